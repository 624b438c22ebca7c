//! Jobs, from their tokens.

ghost use Rattle.std.specs.Prelude.{◌≡◌, ◌≤◌, ◌<◌, IfOk, Some, [], length, List};
ghost use Rattle.json.specs.Token.{Token as SpecToken};
ghost use Rattle.json.specs.Json.{read_key};
ghost use Rattle.es_value.specs.Limits.{most_jobs};
ghost use Rattle.es_reading.specs.Reading.{said, job_read, jobs_read};
ghost use Rattle.es_reading.specs.Shape.{is_job};
ghost use Rattle.es_script.specs.Taking.{IsRead, Took, TookItems};
ghost use Rattle.es_script.specs.Drafts.{IsAwaited, IsJobDraft, AreJobs};

use crate::command::{parts_in, run_in};
use crate::marks;
use crate::quit::Quit;
use es_event::{Command, Job, Sequence, SharedList};
use es_reading::{KnownNames, Part, Place, Scope, Spot, awaited_of};
use es_value::{MOST_JOBS, Name};
use json::Reader;
use std::alloc::Global;

/// What was read of a job so far.
#[derive(Drop)]
pub(crate) struct JobDraft {
    on: Option<(usize, Name)>,
    run: Option<SharedList<Command>>,
}

impl JobDraft {
    /// The job, where its commands were read.
    fn into_job(self, alloc: Global) -> Result<Job, Quit>
        ensures on { IfOk result (λ j. self.on ≡ j.on) }
        ensures run { IfOk result (λ j. self.run ≡ Some j.run) }
        ensures catches { IfOk result (λ j. j.catches ≡ []) }
    {
        let JobDraft { on, run } = self;
        match run {
            Some(run) => Ok(Job {
                on,
                run,
                catches: Sequence::new(alloc),
            }),
            None => Err(Quit::Unusual),
        }
    }
}

/// The array of jobs that comes next.
pub(crate) fn jobs_in<'a>(
    names: &mut KnownNames,
    scope: &Scope,
    reader: &mut Reader<'a>,
    parts: &mut Vec<Part<'a>>,
    agent: usize,
) -> Result<Sequence<Job>, Quit>
    ensures { IfOk result (λ js. Took 4 (AreJobs (said scope.now) agent) reader.old js reader.new) }
{
    marks::open_array(reader)?;
    let jobs = jobs_after(names, scope, reader, parts, agent)?;
    Ok(jobs)
}

/// The jobs up to the bracket that closes their array.
fn jobs_after<'a>(
    names: &mut KnownNames,
    scope: &Scope,
    reader: &mut Reader<'a>,
    parts: &mut Vec<Part<'a>>,
    agent: usize,
) -> Result<Sequence<Job>, Quit>
    ensures taken { IfOk result (λ js. TookItems 3 is_job (jobs_read (said scope.now) agent 1) reader.old js reader.new) }
    ensures few { IfOk result (λ js. length js ≤ most_jobs) }
{
    let mut jobs = Sequence::new(names.allocator());
    let mut number = 0;
    'jobs: while !reader.take_end_array() {
        if number >= MOST_JOBS {
            return Err(Quit::Unusual);
        }
        number += 1;
        let job = job_in(names, scope, reader, parts, Place::Job(agent, number))?;
        jobs.push(job)?;
    }
    Ok(jobs)
}

/// The job that comes next, whose members come in any order.
fn job_in<'a>(
    names: &mut KnownNames,
    scope: &Scope,
    reader: &mut Reader<'a>,
    parts: &mut Vec<Part<'a>>,
    place: Place,
) -> Result<Job, Quit>
    ensures { IfOk result (λ j. Took 3 (IsRead is_job (job_read (said scope.now) place)) reader.old j reader.new) }
{
    marks::open_object(reader)?;
    let mut draft = JobDraft {
        on: None,
        run: None,
    };
    'members: while let Some(key) = reader.next_key()? {
        member_in(names, scope, reader, parts, place, key, &mut draft)?;
    }
    let job = draft.into_job(names.allocator())?;
    Ok(job)
}

/// The value of the member with this key. Of a key that comes twice the last counts.
fn member_in<'a>(
    names: &mut KnownNames,
    scope: &Scope,
    reader: &mut Reader<'a>,
    parts: &mut Vec<Part<'a>>,
    place: Place,
    key: &str,
    draft: &mut JobDraft,
) -> Result<(), Quit>
    ensures taken { IfOk result (λ _. (old now : List SpecToken) → read_key now ≡ Some (Some key.now, reader.old)
        → IsJobDraft (said scope.now) place old now draft.old → IsJobDraft (said scope.now) place old reader.new draft.new) }
    ensures shorter { IfOk result (λ _. length reader.new < length reader.old) }
{
    match key {
        "on" => {
            let on = awaited_in(names, scope, reader, parts, Spot { place, command: 0 })?;
            draft.on = Some(on);
            Ok(())
        }
        "run" => {
            let run = run_in(names, scope, reader, parts, place)?;
            draft.run = Some(run);
            Ok(())
        }
        _ => Err(Quit::Unusual),
    }
}

/// The pair that comes next, of the agent whose message a job waits for and the variable.
fn awaited_in<'a>(
    names: &mut KnownNames,
    scope: &Scope,
    reader: &mut Reader<'a>,
    parts: &mut Vec<Part<'a>>,
    spot: Spot,
) -> Result<(usize, Name), Quit>
    ensures { IfOk result (λ on. Took 1 (IsAwaited (said scope.now) spot) reader.old on reader.new) }
{
    marks::open_array(reader)?;
    parts_in(reader, parts)?;
    match awaited_of(names, scope, parts.as_slice(), spot) {
        Ok(on) => Ok(on),
        Err(fault) => Err(fault.into()),
    }
}
