//! The sentence that says what a fault is.

ghost use Rattle.std.specs.Prelude.{◌≡◌, Some, option_map, string_bytes, IfOk};
ghost use Rattle.serde_json.specs.Data.{Data};
ghost use Rattle.serde_json.specs.Events.{items_len, members_len};
ghost use Rattle.serde_json.specs.Find.{get};
ghost use Rattle.serde_json.specs.View.{view};
ghost use Rattle.es_reading.specs.Parts.{items_in, members_in};
ghost use Rattle.es_explain.specs.Causes.{agent_count, agent_limit, agent_of, beside, cause, limit_sentence, too_many};

use crate::command::{count_of, inside};
use crate::names::{awaited_sentence, items_of, name_sentence};
use crate::shape::sentence_of_trouble;
use es_reading::{FaultCode, Place, ScriptFault, member_count};
use es_value::{MOST_CALLBACKS, MOST_COMMANDS, MOST_JOBS};
use serde_json::Value;
use std::alloc::{AllocError, Global};

/// What a fault of a plan's value is, which this part of it has.
pub(crate) fn cause(
    alloc: Global,
    fault: ScriptFault,
    plan: &Value,
    part: &Value,
) -> Result<String, AllocError>
    ensures { IfOk result (λ s. string_bytes s ≡ cause fault (view plan.now) (view part.now)) }
{
    if fault.command == 0 {
        return beside(alloc, fault.code, plan, fault.place, part);
    }
    inside(alloc, fault.code, plan, agent_of(fault.place), part)
}

/// What a fault outside of commands is.
fn beside(
    alloc: Global,
    code: FaultCode,
    plan: &Value,
    place: Place,
    part: &Value,
) -> Result<String, AllocError>
    ensures { IfOk result (λ s. string_bytes s ≡ beside code (view plan.now) place (view part.now)) }
{
    match code {
        FaultCode::Shape => sentence_of_trouble(alloc, plan),
        FaultCode::Version => String::from_str(alloc, "The version is 1, 2 or 3."),
        FaultCode::AgentCount => agent_count(alloc, count_of(items_of(Some(part)))),
        FaultCode::Name => name_sentence(alloc, place, part),
        FaultCode::Unknown => awaited_sentence(alloc, plan, agent_of(place), part),
        FaultCode::Limit => limit_sentence(alloc, place, part),
        _ => Ok(String::new(alloc)),
    }
}

/// The agent that a place is in.
fn agent_of(place: Place) -> usize
    ensures { result ≡ agent_of place }
{
    match place {
        Place::Whole => 0,
        Place::Agent(agent) => agent,
        Place::Callback(agent, _) => agent,
        Place::Job(agent, _) => agent,
    }
}

fn agent_count(alloc: Global, count: usize) -> Result<String, AllocError>
    ensures { IfOk result (λ s. string_bytes s ≡ agent_count count) }
{
    if count == 0 {
        return String::from_str(alloc, "A plan has 1 to 8 agents, and here are none.");
    }
    format!(in alloc; "A plan has 1 to 8 agents, and here are {count}.")
}

/// Of what there is too much.
fn limit_sentence(alloc: Global, place: Place, part: &Value) -> Result<String, AllocError>
    ensures { IfOk result (λ s. string_bytes s ≡ limit_sentence place (view part.now)) }
{
    match place {
        Place::Whole => Ok(String::new(alloc)),
        Place::Agent(_) => agent_limit(alloc, part),
        Place::Callback(_, _) => {
            let count = count_of(items_of(Some(part)));
            too_many(alloc, "A callback", "commands", MOST_COMMANDS, count)
        }
        Place::Job(_, _) => {
            let count = count_of(items_of(Some(part)));
            too_many(alloc, "A job", "commands", MOST_COMMANDS, count)
        }
    }
}

/// That an agent has too many callbacks, or else too many jobs.
fn agent_limit(alloc: Global, agent: &Value) -> Result<String, AllocError>
    ensures { IfOk result (λ s. string_bytes s ≡ agent_limit (view agent.now)) }
{
    let callbacks = member_count(agent.get("callbacks"));
    if callbacks <= MOST_CALLBACKS {
        let jobs = count_of(items_of(agent.get("jobs")));
        return too_many(alloc, "An agent", "jobs", MOST_JOBS, jobs);
    }
    too_many(alloc, "An agent", "callbacks", MOST_CALLBACKS, callbacks)
}

fn too_many(
    alloc: Global,
    owner: &str,
    parts: &str,
    most: usize,
    count: usize,
) -> Result<String, AllocError>
    ensures { IfOk result (λ s. string_bytes s ≡ too_many owner.now parts.now most count) }
{
    format!(in alloc; "{owner} has at most {most} {parts}, and this one has {count}.")
}
