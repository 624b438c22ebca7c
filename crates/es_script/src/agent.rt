//! Agents, from their tokens.

ghost use Rattle.std.specs.Prelude.{◌≡◌, ◌<◌, IfOk, Some, length, List};
ghost use Rattle.json.specs.Token.{Token as SpecToken};
ghost use Rattle.json.specs.Json.{read_key};
ghost use Rattle.es_value.specs.Spelling.{is_name};
ghost use Rattle.es_reading.specs.Reading.{numbered, said, agent_read};
ghost use Rattle.es_reading.specs.Shape.{is_agent};
ghost use Rattle.es_script.specs.Taking.{IsRead, Took};
ghost use Rattle.es_script.specs.Drafts.{IsNameOf, IsAgentDraft, IsAgentWithin};

use crate::callback::{are_named, callbacks_in};
use crate::job::jobs_in;
use crate::marks;
use crate::quit::Quit;
use es_event::{AgentPlan, Callback, Job, Sequence};
use es_reading::{KnownNames, NumberTable, Part, Scope, Version, numbers_of};
use es_value::Name;
use json::Reader;
use std::alloc::Global;

/// What was read of an agent so far.
#[derive(Drop)]
pub(crate) struct AgentDraft {
    callbacks: Option<Sequence<Callback>>,
    jobs: Option<Sequence<Job>>,
    name: Option<Name>,
}

impl AgentDraft {
    /// The agent's plan, where all of it was read.
    fn into_plan(self) -> Result<AgentPlan, Quit>
        ensures callbacks { IfOk result (λ p. self.callbacks ≡ Some p.callbacks) }
        ensures jobs { IfOk result (λ p. self.jobs ≡ Some p.jobs) }
        ensures name { IfOk result (λ p. self.name ≡ Some p.name) }
    {
        let AgentDraft {
            callbacks,
            jobs,
            name,
        } = self;
        let Some(callbacks) = callbacks else {
            return Err(Quit::Unusual);
        };
        let Some(jobs) = jobs else {
            return Err(Quit::Unusual);
        };
        let Some(name) = name else {
            return Err(Quit::Unusual);
        };
        Ok(AgentPlan {
            name,
            callbacks,
            jobs,
        })
    }
}

/// The agent that comes next, where its callbacks are those that were found.
pub(crate) fn agent_in<'a>(
    alloc: Global,
    version: Version,
    numbers: &NumberTable,
    agent: usize,
    found: &[Name],
    reader: &mut Reader<'a>,
    parts: &mut Vec<Part<'a>>,
) -> Result<AgentPlan, Quit>
    ensures { IfOk result (λ p. Took 5 (IsRead is_agent (agent_read version (numbered numbers.now) agent)) reader.old p reader.new) }
{
    let Ok(callbacks) = numbers_of(alloc, found, 1) else {
        return Err(Quit::NoMemory);
    };
    let scope = Scope::new(version, callbacks, numbers, agent);
    let mut names = KnownNames::new(alloc);
    let plan = agent_within(&mut names, &scope, agent, reader, parts)?;
    if !are_named(plan.callbacks.as_slice(), found) {
        return Err(Quit::Unusual);
    }
    Ok(plan)
}

/// The agent that comes next, whose members come in any order.
fn agent_within<'a>(
    names: &mut KnownNames,
    scope: &Scope,
    agent: usize,
    reader: &mut Reader<'a>,
    parts: &mut Vec<Part<'a>>,
) -> Result<AgentPlan, Quit>
    ensures { IfOk result (λ p. Took 5 (IsAgentWithin (said scope.now) agent) reader.old p reader.new) }
{
    marks::open_object(reader)?;
    let mut draft = AgentDraft {
        callbacks: None,
        jobs: None,
        name: None,
    };
    'members: while let Some(key) = reader.next_key()? {
        member_in(names, scope, agent, reader, parts, key, &mut draft)?;
    }
    let plan = draft.into_plan()?;
    Ok(plan)
}

/// The value of the member with this key. Of a key that comes twice the last counts.
fn member_in<'a>(
    names: &mut KnownNames,
    scope: &Scope,
    agent: usize,
    reader: &mut Reader<'a>,
    parts: &mut Vec<Part<'a>>,
    key: &str,
    draft: &mut AgentDraft,
) -> Result<(), Quit>
    ensures taken { IfOk result (λ _. (old now : List SpecToken) → read_key now ≡ Some (Some key.now, reader.old)
        → IsAgentDraft (said scope.now) agent old now draft.old → IsAgentDraft (said scope.now) agent old reader.new draft.new) }
    ensures shorter { IfOk result (λ _. length reader.new < length reader.old) }
{
    match key {
        "callbacks" => {
            let callbacks = callbacks_in(names, scope, reader, parts, agent)?;
            draft.callbacks = Some(callbacks);
            Ok(())
        }
        "jobs" => {
            let jobs = jobs_in(names, scope, reader, parts, agent)?;
            draft.jobs = Some(jobs);
            Ok(())
        }
        "name" => {
            let name = name_in(names, reader)?;
            draft.name = Some(name);
            Ok(())
        }
        _ => Err(Quit::Unusual),
    }
}

/// The name that comes next.
fn name_in(names: &mut KnownNames, reader: &mut Reader<'_>) -> Result<Name, Quit>
    ensures { IfOk result (λ n. Took 0 IsNameOf reader.old n reader.new) }
{
    let text = marks::text(reader)?;
    let name = names.read(text)?;
    Ok(name)
}
