//! What a plan is warned of.

ghost use Rattle.std.specs.Prelude.{◌≡◌, ◌++◌, ◌∷◌, [], List, OnOk, IfOk};
ghost use Rattle.std.specs.Option.{option_copied, option_to_list};
ghost use Rattle.es_warnings.specs.Known.{Knows, of_known, of_variable_at};
ghost use Rattle.es_warnings.specs.Mentions.{Mention, each_callback, each_command, each_job};
ghost use Rattle.es_warnings.specs.Warnings.{cause_of as cause_said, held_target as held_target_said, of_agent, of_callback, of_command, of_job, of_variables, warning, warnings};

use crate::mention::{Manner, Place, Section};
use crate::variables::{Known, Variables};
use es_event::{AgentPlan, Callback, Command, Job, Plan};
use es_value::{Name, NoMemory};
use std::alloc::Global;

/// Why a command is warned of.
#[derive(Clone, Copy, Debug, PartialEq, Eq)]
pub enum Cause {
    /// It reads a variable that nothing in the agent's plan assigns.
    Unassigned,
    /// It reads a variable that is assigned only later.
    AssignedLater,
    /// It assigns a variable that nothing reads, and that is assigned only such answers.
    Unread,
    /// It registers a target with itself as the held value.
    HeldTarget,
}

/// A warning.
#[derive(Debug, Drop)]
pub struct Warning {
    /// The agent, counted from 0.
    pub agent: usize,
    /// Where the command stands in the agent's plan.
    pub place: Place,
    /// The variable.
    pub name: Name,
    /// Why.
    pub cause: Cause,
}

/// What the plan is warned of, agent by agent: of each variable at most once, where it is first mentioned; and of
/// each registration whose held value is its target. Fails where there is no memory.
pub fn warnings_of(alloc: Global, plan: &Plan) -> Result<Vec<Warning>, NoMemory>
    ensures { IfOk result (λ ws. ws.items ≡ warnings plan.now) }
{
    let mut found = Vec::new(alloc);
    for (agent, plan) in plan.agents.as_slice().iter().enumerate() {
        add_agent(alloc, agent, plan, &mut found)?;
    }
    Ok(found)
}

fn add_agent(
    alloc: Global,
    agent: usize,
    plan: &AgentPlan,
    found: &mut Vec<Warning>,
) -> Result<(), NoMemory>
    ensures { OnOk result (found.new.items ≡ found.old.items ++ of_agent agent plan.now) }
{
    let variables = Variables::of(alloc, plan)?;
    add_variables(agent, &variables, found)?;
    add_jobs(agent, plan.jobs.as_slice(), found)?;
    add_callbacks(agent, plan.callbacks.as_slice(), found)
}

fn add_variables(
    agent: usize,
    variables: &Variables,
    found: &mut Vec<Warning>,
) -> Result<(), NoMemory>
    ensures { OnOk result ((past : List Mention) → Knows past variables.now → found.new.items ≡ found.old.items ++ of_variables agent past) }
{
    for index in 0..variables.count() {
        add_at(agent, variables, index, found)?;
    }
    Ok(())
}

/// Adds what is to be said of the variable at an index.
fn add_at(
    agent: usize,
    variables: &Variables,
    index: usize,
    found: &mut Vec<Warning>,
) -> Result<(), NoMemory>
    ensures { OnOk result ((past : List Mention) → Knows past variables.now → found.new.items ≡ found.old.items ++ of_variable_at agent past index) }
{
    match variables.at(index) {
        Some((name, known)) => add(agent, name, known, found),
        None => Ok(()),
    }
}

/// Adds what is to be said of a variable, if anything is.
fn add(agent: usize, name: &Name, known: &Known, found: &mut Vec<Warning>) -> Result<(), NoMemory>
    ensures { OnOk result (found.new.items ≡ found.old.items ++ option_to_list (of_known agent name.now known.now)) }
{
    if let Some(cause) = cause_of(known) {
        add_warning(agent, name, known.place, cause, found)?;
    }
    Ok(())
}

fn cause_of(known: &Known) -> Option<Cause>
    ensures { result ≡ cause_said known.now.manner known.now.is_used known.now.is_assigned known.now.is_given }
{
    match known.manner {
        Manner::Read if known.is_given => None,
        Manner::Read if known.is_assigned => Some(Cause::AssignedLater),
        Manner::Read => Some(Cause::Unassigned),
        Manner::Answered if known.is_used => None,
        Manner::Answered => Some(Cause::Unread),
        Manner::Assigned => None,
    }
}

fn add_warning(
    agent: usize,
    name: &Name,
    place: Place,
    cause: Cause,
    found: &mut Vec<Warning>,
) -> Result<(), NoMemory>
    ensures { OnOk result (found.new.items ≡ found.old.items ++ warning agent name.now place cause ∷ []) }
{
    let name = name.copy()?;
    found.push(Warning {
        agent,
        place,
        name,
        cause,
    })?;
    Ok(())
}

/// Adds what is to be said of registrations in jobs.
fn add_jobs(agent: usize, jobs: &[Job], found: &mut Vec<Warning>) -> Result<(), NoMemory>
    ensures { OnOk result (found.new.items ≡ found.old.items ++ each_job (of_job agent) 0 jobs.now) }
{
    for (number, job) in jobs.iter().enumerate() {
        add_commands(agent, Section::Job(number), job.run.as_slice(), found)?;
    }
    Ok(())
}

/// Adds what is to be said of registrations in callbacks.
fn add_callbacks(
    agent: usize,
    callbacks: &[Callback],
    found: &mut Vec<Warning>,
) -> Result<(), NoMemory>
    ensures { OnOk result (found.new.items ≡ found.old.items ++ each_callback (of_callback agent) 0 callbacks.now) }
{
    for (number, callback) in callbacks.iter().enumerate() {
        let section = Section::Callback(number);
        add_commands(agent, section, callback.run.as_slice(), found)?;
    }
    Ok(())
}

fn add_commands(
    agent: usize,
    section: Section,
    commands: &[Command],
    found: &mut Vec<Warning>,
) -> Result<(), NoMemory>
    ensures { OnOk result (found.new.items ≡ found.old.items ++ each_command (of_command agent) section 0 commands.now) }
{
    for (index, command) in commands.iter().enumerate() {
        if let Some(name) = held_target(command) {
            add_warning(
                agent,
                name,
                Place { section, index },
                Cause::HeldTarget,
                found,
            )?;
        }
    }
    Ok(())
}

/// The variable that the command registers with itself as the held value.
fn held_target(command: &Command) -> Option<&Name>
    ensures { option_copied result ≡ held_target_said command.now }
{
    match command {
        Command::Register { target, held, .. } if *target == *held => Some(target),
        _ => None,
    }
}
