//! Agents and their callbacks.

ghost use Rattle.std.specs.Prelude.{◌≡◌, [], option_map};
ghost use Rattle.serde_json.specs.View.{view, items_view, members_view};
ghost use Rattle.es_reading.specs.Parts.{members_in};
ghost use Rattle.es_reading.specs.Scope.{agent_from, is_used};
ghost use Rattle.es_reading.specs.Reading.{Gives, numbered, said, callback_read, callbacks_read, names_read, agent_name_read, agent_read, agents_read};

use crate::command::callback_run;
use crate::fault::{FaultCode, Spot, fault_in};
use crate::job::jobs_of;
use crate::known_names::KnownNames;
use crate::number_table::{NumberTable, agent_numbers, callback_numbers};
use crate::parts::{has_at_most, has_at_most_members, items, taken_items, text};
use crate::scope::Scope;
use crate::spelled::name_of;
use crate::version::Version;
use crate::{Place, ReadFault};
use es_event::{AgentPlan, Callback, Sequence, SharedList};
use es_value::{MOST_CALLBACKS, MOST_JOBS, Name};
use serde_json::{Map, Value};
use std::alloc::Global;

/// Fails where an agent's name is not spelled as one, or is that of an earlier agent: with the first such
/// fault, or for want of memory.
pub fn check_names(alloc: Global, agents: &[Value]) -> Result<(), ReadFault>
    ensures { Gives (λ _. tt) result (names_read 0 [] (items_view agents.now)) }
{
    let mut names = KnownNames::new(alloc);
    let mut used = Vec::new(alloc);
    check_each(&mut names, &mut used, agents)
}

/// The same, beside the names that are used already.
fn check_each(
    names: &mut KnownNames,
    used: &mut Vec<Name>,
    agents: &[Value],
) -> Result<(), ReadFault>
    ensures { Gives (λ _. tt) result (names_read 0 used.old.items (items_view agents.now)) }
{
    for (index, agent) in agents.iter().enumerate() {
        let name = agent_name(names, index, agent)?;
        if is_used(used.as_slice(), &name) {
            return Err(fault_in(Place::Agent(index), FaultCode::Name));
        }
        used.push(name)?;
    }
    Ok(())
}

fn agent_name(names: &mut KnownNames, agent: usize, value: &Value) -> Result<Name, ReadFault>
    ensures { Gives (λ n. n) result (agent_name_read agent (view value.now)) }
{
    let spot = Spot {
        place: Place::Agent(agent),
        command: 0,
    };
    name_of(names, text(value.get("name")), spot)
}

fn is_used(names: &[Name], name: &Name) -> bool
    ensures { result ≡ is_used name.now names.now }
{
    names.contains(name)
}

/// The plans of the agents of a plan of this version, in order, or the first fault in them: agent by agent
/// the limits, the callbacks by rising names and the jobs in order, of each job first whose message it waits
/// for, and then its commands. The values lose their jobs.
pub fn agents_of(
    alloc: Global,
    version: Version,
    agents: &mut [Value],
) -> Result<Sequence<AgentPlan>, ReadFault>
    ensures { Gives (λ s. s) result (agents_read version (agent_from 0 (items_view agents.old)) 0 (items_view agents.old)) }
{
    let numbers = agent_numbers(alloc, agents)?;
    plans_of(alloc, version, &numbers, agents)
}

/// The plans, by the numbers of all agents.
fn plans_of(
    alloc: Global,
    version: Version,
    numbers: &NumberTable,
    agents: &mut [Value],
) -> Result<Sequence<AgentPlan>, ReadFault>
    ensures { Gives (λ s. s) result (agents_read version (numbered numbers.now) 0 (items_view agents.old)) }
{
    let mut plans = Sequence::new(alloc);
    for (index, agent) in agents.iter_mut().enumerate() {
        let plan = agent_of(alloc, version, numbers, index, agent.take())?;
        plans.push(plan)?;
    }
    Ok(plans)
}

/// The plan of an agent. Its names share their texts with each other, and with no other agent's.
fn agent_of(
    alloc: Global,
    version: Version,
    numbers: &NumberTable,
    agent: usize,
    value: Value,
) -> Result<AgentPlan, ReadFault>
    ensures { Gives (λ a. a) result (agent_read version (numbered numbers.now) agent (view value)) }
{
    agent_with(&mut KnownNames::new(alloc), version, numbers, agent, value)
}

fn agent_with(
    names: &mut KnownNames,
    version: Version,
    numbers: &NumberTable,
    agent: usize,
    mut value: Value,
) -> Result<AgentPlan, ReadFault>
    ensures { Gives (λ a. a) result (agent_read version (numbered numbers.now) agent (view value)) }
{
    let name = agent_name(names, agent, &value)?;
    if !has_at_most_members(value.get("callbacks"), MOST_CALLBACKS) {
        return Err(fault_in(Place::Agent(agent), FaultCode::Limit));
    }
    if !has_at_most(items(value.get("jobs")), MOST_JOBS) {
        return Err(fault_in(Place::Agent(agent), FaultCode::Limit));
    }
    let callbacks = callback_numbers(names.allocator(), value.get("callbacks"))?;
    let scope = Scope::new(version, callbacks, numbers, agent);
    let callbacks = callbacks_of(names, &scope, agent, value.get("callbacks"))?;
    let mut jobs = taken_items(names.allocator(), value.get_mut("jobs"));
    let jobs = jobs_of(names, &scope, agent, jobs.as_mut_slice())?;
    Ok(AgentPlan {
        name,
        callbacks,
        jobs,
    })
}

fn callbacks_of(
    names: &mut KnownNames,
    scope: &Scope,
    agent: usize,
    value: Option<&Value>,
) -> Result<Sequence<Callback>, ReadFault>
    ensures { Gives (λ s. s) result
        (callbacks_read (said scope.now) agent 1 (members_in (option_map (λ v. view v.now) value.entry))) }
{
    match value {
        Some(Value::Object(members)) => callbacks_in(names, scope, agent, members),
        _ => Ok(Sequence::new(names.allocator())),
    }
}

/// The callbacks. The members of an object stand in the byte order of their keys, so the callbacks
/// come by rising names.
fn callbacks_in(
    names: &mut KnownNames,
    scope: &Scope,
    agent: usize,
    members: &Map<String, Value>,
) -> Result<Sequence<Callback>, ReadFault>
    ensures { Gives (λ s. s) result (callbacks_read (said scope.now) agent 1 (members_view members.now.entries)) }
{
    let mut callbacks = Vec::new(names.allocator());
    for (name, value) in members.iter() {
        let place = Place::Callback(agent, callbacks.len() + 1);
        let callback = callback_of(names, scope, name.as_str(), value, place)?;
        callbacks.push(callback)?;
    }
    Ok(Sequence::from_vec(callbacks))
}

fn callback_of(
    names: &mut KnownNames,
    scope: &Scope,
    name: &str,
    value: &Value,
    place: Place,
) -> Result<Callback, ReadFault>
    ensures { Gives (λ c. c) result (callback_read (said scope.now) place name.now (view value.now)) }
{
    let name = name_of(names, name, Spot { place, command: 0 })?;
    let (commands, catches) = callback_run(names, scope, items(Some(value)), place)?.into_parts();
    let run = SharedList::of(commands)?;
    Ok(Callback { name, run, catches })
}
