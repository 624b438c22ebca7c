//! What is known of an agent's variables by its plan.

ghost use Rattle.std.specs.Prelude.{◌≡◌, [], ◌∷◌, Some, codes, length, ◌≤◌, IfOk, IfSome, IfNone, OnOk};
ghost use Rattle.std.specs.Option.{option_copied};
ghost use Rattle.es_event.specs.Reading.{names_of};
ghost use Rattle.es_warnings.specs.Known.{IsEntry, Knows, Notes, noted as noted_said};
ghost use Rattle.es_warnings.specs.Mentions.{awaited, caught, caught_at, each_callback, each_command, each_job, in_callback, in_job, mention, mentioned, mentions, read_all};
ghost use Rattle.es_warnings.specs.Warnings.{is_answer as is_answer_said, is_in_callback as is_in_callback_said, is_reading as is_reading_said, newest_first};

use crate::mention::{Manner, Place, Section, manner_of};
use es_event::{AgentPlan, Callback, Command, Job, OperandNames, OptionalName};
use es_value::{Name, NameFault, NoMemory};
use indexmap::IndexMap;
use std::alloc::Global;
use std::marker::Model;

/// What is known of a variable.
#[derive(Clone, Copy)]
pub(crate) struct Known {
    /// How it was mentioned first.
    pub(crate) manner: Manner,
    /// Where it was mentioned first.
    pub(crate) place: Place,
    /// Whether it is read anywhere, or assigned otherwise than by answers.
    pub(crate) is_used: bool,
    /// Whether it is assigned anywhere.
    pub(crate) is_assigned: bool,
    /// Whether it is assigned in a callback.
    pub(crate) is_given: bool,
}

/// The variables that were mentioned so far, in the order of their first mentions.
#[derive(Drop)]
pub(crate) struct Variables {
    known: IndexMap<Name, Known>,
}

impl Model for Variables {
    ghost use Rattle.es_warnings.specs.Known.{VariablesView};

    ghost Value = { VariablesView };

    ghost view = { λ v. record { entries = v.known.entries } };
}

impl Variables {
    /// All that the agent's plan mentions: its jobs, and then its callbacks.
    pub(crate) fn of(alloc: Global, plan: &AgentPlan) -> Result<Variables, NoMemory>
        ensures { IfOk result (Knows (newest_first (mentioned plan.now))) }
    {
        let mut variables = Variables {
            known: IndexMap::new(alloc),
        };
        let held = held_name(alloc)?;
        variables.note_jobs(plan.jobs.as_slice())?;
        variables.note_callbacks(&held, plan.callbacks.as_slice())?;
        Ok(variables)
    }

    fn note_jobs(&mut self, jobs: &[Job]) -> Result<(), NoMemory>
        ensures { OnOk result (Notes self.old self.new (each_job in_job 0 jobs.now)) }
    {
        for (number, job) in jobs.iter().enumerate() {
            let section = Section::Job(number);
            self.note_awaited(section, job)?;
            self.note_caught(section, job.catches.as_slice())?;
            self.note_commands(section, job.run.as_slice())?;
        }
        Ok(())
    }

    /// The variable that is assigned the message that the job waits for.
    fn note_awaited(&mut self, section: Section, job: &Job) -> Result<(), NoMemory>
        ensures { OnOk result (Notes self.old self.new (awaited section job.now.on)) }
    {
        match &job.on {
            Some((_, name)) => self.note(name, Manner::Assigned, Place { section, index: 0 }),
            None => Ok(()),
        }
    }

    /// The callbacks, before each of which the host assigns `held`.
    fn note_callbacks(&mut self, held: &Name, callbacks: &[Callback]) -> Result<(), NoMemory>
        requires { held.now ≡ codes "held" }
        ensures { OnOk result (Notes self.old self.new (each_callback in_callback 0 callbacks.now)) }
    {
        for (number, callback) in callbacks.iter().enumerate() {
            let section = Section::Callback(number);
            self.note(held, Manner::Assigned, Place { section, index: 0 })?;
            self.note_caught(section, callback.catches.as_slice())?;
            self.note_commands(section, callback.run.as_slice())?;
        }
        Ok(())
    }

    /// The variables that catch refusals.
    fn note_caught(&mut self, section: Section, catches: &[OptionalName]) -> Result<(), NoMemory>
        ensures { OnOk result (Notes self.old self.new (caught section 0 catches.now)) }
    {
        for (index, to) in catches.iter().enumerate() {
            self.note_catch(to, Place { section, index })?;
        }
        Ok(())
    }

    fn note_catch(&mut self, to: &OptionalName, place: Place) -> Result<(), NoMemory>
        ensures { OnOk result (Notes self.old self.new (caught_at place to.now)) }
    {
        match to.get() {
            Some(name) => self.note(name, Manner::Assigned, place),
            None => Ok(()),
        }
    }

    fn note_commands(&mut self, section: Section, commands: &[Command]) -> Result<(), NoMemory>
        ensures { OnOk result (Notes self.old self.new (each_command mentions section 0 commands.now)) }
    {
        for (index, command) in commands.iter().enumerate() {
            self.note_command(command, Place { section, index })?;
        }
        Ok(())
    }

    fn note_command(&mut self, command: &Command, place: Place) -> Result<(), NoMemory>
        ensures { OnOk result (Notes self.old self.new (mentions place command.now)) }
    {
        self.note_reads(command.reads(), place)?;
        match command.assigns() {
            Some(name) => self.note(name, manner_of(command), place),
            None => Ok(()),
        }
    }

    fn note_reads(&mut self, names: OperandNames<'_>, place: Place) -> Result<(), NoMemory>
        ensures { OnOk result (Notes self.old self.new (read_all place (names_of names.entry))) }
    {
        match names {
            OperandNames::Nothing => Ok(()),
            OperandNames::One(a) => self.note(a, Manner::Read, place),
            OperandNames::Two(a, b) => {
                self.note(a, Manner::Read, place)?;
                self.note(b, Manner::Read, place)
            }
            OperandNames::Three(a, b, c) => {
                self.note(a, Manner::Read, place)?;
                self.note(b, Manner::Read, place)?;
                self.note(c, Manner::Read, place)
            }
            OperandNames::Four(a, b, c, d) => {
                self.note(a, Manner::Read, place)?;
                self.note(b, Manner::Read, place)?;
                self.note(c, Manner::Read, place)?;
                self.note(d, Manner::Read, place)
            }
        }
    }

    /// A variable that is mentioned as it was before is left as it is.
    fn note(&mut self, name: &Name, manner: Manner, place: Place) -> Result<(), NoMemory>
        ensures { OnOk result (Notes self.old self.new (mention place manner name.now ∷ [])) }
    {
        let Some(known) = noted(self.known.get(name), name, manner, place) else {
            return Ok(());
        };
        let name = name.copy()?;
        self.known.insert(name, known)?;
        Ok(())
    }

    /// How many there are.
    pub(crate) fn count(&self) -> usize
        ensures { result ≡ length self.now.entries }
    {
        self.known.len()
    }

    /// The variable at an index, and what is known of it.
    pub(crate) fn at(&self, index: usize) -> Option<(&Name, &Known)>
        ensures entry { IfSome result (λ p. IsEntry self.now index p.0.now p.1.now) }
        ensures none { IfNone result (length self.now.entries ≤ index) }
    {
        self.known.get_index(index)
    }
}

/// What is known of a variable, once it was mentioned so; none where that is what was known.
fn noted(known: Option<&Known>, name: &Name, manner: Manner, place: Place) -> Option<Known>
    ensures more { IfSome result (λ k. k ≡ noted_said (option_copied known.entry) (mention place manner name.now)) }
    ensures same { IfNone result (option_copied known.entry ≡ Some (noted_said (option_copied known.entry) (mention place manner name.now))) }
{
    let is_used = !is_answer(manner);
    let is_assigned = !is_reading(manner);
    let is_given = is_assigned && is_in_callback(place.section);
    match known {
        Some(known) => {
            let is_used = is_used || known.is_used;
            let is_assigned = is_assigned || known.is_assigned;
            let is_given = is_given || known.is_given;
            if is_used == known.is_used
                && is_assigned == known.is_assigned
                && is_given == known.is_given
            {
                return None;
            }
            Some(Known {
                manner: known.manner,
                place: known.place,
                is_used,
                is_assigned,
                is_given,
            })
        }
        None => Some(Known {
            manner,
            place,
            is_used,
            is_assigned,
            is_given,
        }),
    }
}

fn is_answer(manner: Manner) -> bool
    ensures { result ≡ is_answer_said manner }
{
    matches!(manner, Manner::Answered)
}

fn is_reading(manner: Manner) -> bool
    ensures { result ≡ is_reading_said manner }
{
    matches!(manner, Manner::Read)
}

fn is_in_callback(section: Section) -> bool
    ensures { result ≡ is_in_callback_said section }
{
    matches!(section, Section::Callback(_))
}

/// The variable that the host assigns before it calls a callback.
fn held_name(alloc: Global) -> Result<Name, NoMemory>
    ensures { IfOk result (λ n. n ≡ codes "held") }
{
    match Name::read(alloc, "held") {
        Ok(name) => Ok(name),
        Err(NameFault::BadName | NameFault::NoMemory) => Err(NoMemory),
    }
}
