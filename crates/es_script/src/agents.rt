//! The agents of a plan, from their tokens.

ghost use Rattle.std.specs.Prelude.{◌≡◌, ◌≤◌, IfOk, IsTrue, map, length, true, []};
ghost use Rattle.es_value.specs.Limits.{most_agents};
ghost use Rattle.es_reading.specs.Scope.{are_new};
ghost use Rattle.es_reading.specs.Reading.{numbered, agents_read};
ghost use Rattle.es_reading.specs.Shape.{is_agent};
ghost use Rattle.es_script.specs.Taking.{Took, TookItems};
ghost use Rattle.es_script.specs.Drafts.{AreAgents};

use crate::agent::agent_in;
use crate::marks;
use crate::overview::Overview;
use crate::quit::Quit;
use es_event::{AgentPlan, Sequence};
use es_reading::{NumberTable, Version, numbers_of};
use es_value::{MOST_AGENTS, Name};
use json::Reader;
use std::alloc::Global;

/// The array of agents that comes next, where they are those that were found.
pub(crate) fn agents_in(
    alloc: Global,
    overview: &Overview,
    reader: &mut Reader<'_>,
) -> Result<Sequence<AgentPlan>, Quit>
    ensures { IfOk result (λ ps. Took 6 (AreAgents overview.now.version) reader.old ps reader.new) }
{
    marks::open_array(reader)?;
    let found = overview.agents.as_slice();
    let Ok(numbers) = numbers_of(alloc, found, 0) else {
        return Err(Quit::NoMemory);
    };
    let agents = agents_after(
        alloc,
        overview.version,
        &numbers,
        overview.callbacks.as_slice(),
        reader,
    )?;
    if agents.as_slice().is_empty() {
        return Err(Quit::Unusual);
    }
    if !are_agents(agents.as_slice(), found) {
        return Err(Quit::Unusual);
    }
    if !are_new(found) {
        return Err(Quit::Unusual);
    }
    Ok(agents)
}

/// The agents up to the bracket that closes their array.
fn agents_after<'a>(
    alloc: Global,
    version: Version,
    numbers: &NumberTable,
    found: &[Vec<Name>],
    reader: &mut Reader<'a>,
) -> Result<Sequence<AgentPlan>, Quit>
    ensures taken { IfOk result (λ ps. TookItems 5 is_agent (agents_read version (numbered numbers.now) 0) reader.old ps reader.new) }
    ensures few { IfOk result (λ ps. length ps ≤ most_agents) }
{
    let mut parts = Vec::new(alloc);
    let mut agents = Sequence::new(alloc);
    let mut number = 0;
    'agents: while !reader.take_end_array() {
        if number >= MOST_AGENTS || number >= found.len() {
            return Err(Quit::Unusual);
        }
        let agent = agent_in(
            alloc,
            version,
            numbers,
            number,
            found[number].as_slice(),
            reader,
            &mut parts,
        )?;
        agents.push(agent)?;
        number += 1;
    }
    Ok(agents)
}

/// Whether these are the agents' names, in order.
fn are_agents(agents: &[AgentPlan], names: &[Name]) -> bool
    ensures { IsTrue result → map (λ a. a.name) agents.now ≡ names.now }
{
    if agents.len() != names.len() {
        return false;
    }
    for index in 0..names.len() {
        if agents[index].name != names[index] {
            return false;
        }
    }
    true
}

/// Whether no name is one of those before it.
fn are_new(names: &[Name]) -> bool
    ensures { IsTrue result → are_new [] names.now ≡ true }
{
    for index in 0..names.len() {
        if names[..index].contains(&names[index]) {
            return false;
        }
    }
    true
}
