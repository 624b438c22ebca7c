//! Where a fault is, as a JSON Pointer.

ghost use Rattle.std.specs.Prelude.{◌≡◌, option_map, option_and_then, string_bytes, codes, ◌++◌, IfOk, OnOk};
ghost use Rattle.serde_json.specs.Find.{at, get};
ghost use Rattle.serde_json.specs.View.{view, members_view};
ghost use Rattle.es_reading.specs.Parts.{members_in};
ghost use Rattle.es_explain.specs.Texts.{escape, escaped};
ghost use Rattle.es_explain.specs.Explaining.{agent_part, callback_part, callback_place, callbacks_in, index_of, job_part, job_place, key_at, key_from, pointer, whole_part};

use crate::shape::place_of_trouble;
use es_reading::{FaultCode, Place, ScriptFault};
use serde_json::{Map, Value};
use std::alloc::{AllocError, Global};

/// The place of a fault in the value of a plan's text, as RFC 6901 has it; there is no value where the
/// text is no JSON.
pub(crate) fn pointer_of(
    alloc: Global,
    value: Option<&Value>,
    fault: ScriptFault,
) -> Result<String, AllocError>
    ensures { IfOk result (λ s. string_bytes s ≡ pointer (option_map (λ v. view v.now) value.entry) fault) }
{
    match fault.place {
        Place::Whole => in_whole(alloc, value, fault.code),
        Place::Agent(agent) => in_agent(alloc, agent, fault.code),
        Place::Callback(agent, _) => {
            let place = callback_place(alloc, agent, key_at(value, fault.place))?;
            in_callback(alloc, place.as_str(), index_of(fault.command))
        }
        Place::Job(agent, job) => {
            let place = job_place(alloc, agent, job.saturating_sub(1))?;
            in_job(alloc, place.as_str(), index_of(fault.command), fault.code)
        }
    }
}

/// The index of a command that has this number, if it is one.
fn index_of(command: usize) -> Option<usize>
    ensures { result ≡ index_of command }
{
    if command == 0 {
        return None;
    }
    Some(command - 1)
}

fn in_whole(alloc: Global, value: Option<&Value>, code: FaultCode) -> Result<String, AllocError>
    ensures { IfOk result (λ s. string_bytes s ≡ whole_part (option_map (λ v. view v.now) value.entry) code) }
{
    match code {
        FaultCode::Shape => place_of_trouble(alloc, value),
        FaultCode::Version => String::from_str(alloc, "/version"),
        FaultCode::AgentCount => String::from_str(alloc, "/agents"),
        _ => String::from_str(alloc, ""),
    }
}

fn in_agent(alloc: Global, agent: usize, code: FaultCode) -> Result<String, AllocError>
    ensures { IfOk result (λ s. string_bytes s ≡ agent_part agent code) }
{
    match code {
        FaultCode::Name => format!(in alloc; "/agents/{agent}/name"),
        _ => format!(in alloc; "/agents/{agent}"),
    }
}

fn in_callback(alloc: Global, place: &str, index: Option<usize>) -> Result<String, AllocError>
    ensures { IfOk result (λ s. string_bytes s ≡ callback_part place.now index) }
{
    match index {
        Some(index) => format!(in alloc; "{place}/{index}"),
        None => String::from_str(alloc, place),
    }
}

fn callback_place(alloc: Global, agent: usize, key: &str) -> Result<String, AllocError>
    ensures { IfOk result (λ s. string_bytes s ≡ callback_place agent key.now) }
{
    let key = escaped(alloc, key)?;
    format!(in alloc; "/agents/{agent}/callbacks/{key}")
}

/// A key as a part of a JSON Pointer.
pub(crate) fn escaped(alloc: Global, key: &str) -> Result<String, AllocError>
    ensures { IfOk result (λ s. string_bytes s ≡ escaped key.now) }
{
    let mut text = String::new(alloc);
    for letter in key.chars() {
        push_escaped(&mut text, letter)?;
    }
    Ok(text)
}

fn push_escaped(text: &mut String, letter: char) -> Result<(), AllocError>
    ensures { OnOk result (string_bytes text.new ≡ string_bytes text.old ++ escape letter) }
{
    match letter {
        '~' => text.push_str("~0"),
        '/' => text.push_str("~1"),
        _ => text.push(letter),
    }
}

fn job_place(alloc: Global, agent: usize, job: usize) -> Result<String, AllocError>
    ensures { IfOk result (λ s. string_bytes s ≡ job_place agent job) }
{
    format!(in alloc; "/agents/{agent}/jobs/{job}")
}

fn in_job(
    alloc: Global,
    place: &str,
    index: Option<usize>,
    code: FaultCode,
) -> Result<String, AllocError>
    ensures { IfOk result (λ s. string_bytes s ≡ job_part place.now index code) }
{
    match index {
        Some(index) => format!(in alloc; "{place}/run/{index}"),
        None => match code {
            FaultCode::Limit => format!(in alloc; "{place}/run"),
            _ => format!(in alloc; "{place}/on"),
        },
    }
}

/// The key of a callback of a plan's value; empty at any other place.
pub(crate) fn key_at(value: Option<&Value>, place: Place) -> &str
    ensures { result.now ≡ key_at (option_map (λ v. view v.now) value.entry) place }
{
    match place {
        Place::Callback(agent, callback) => {
            key_of(callbacks_of(value, agent), callback.saturating_sub(1))
        }
        _ => "",
    }
}

/// The callbacks of an agent of a plan's value.
fn callbacks_of(value: Option<&Value>, agent: usize) -> Option<&Value>
    ensures { option_map (λ v. view v.now) result ≡ callbacks_in (option_map (λ v. view v.now) value.entry) agent }
{
    value?.get("agents")?.get(agent)?.get("callbacks")
}

/// The key of an object's member that has so many before it; empty where there is none.
fn key_of(value: Option<&Value>, before: usize) -> &str
    ensures { result.now ≡ key_from before (members_in (option_map (λ v. view v.now) value.entry)) }
{
    match value {
        Some(Value::Object(members)) => key_in(members, before),
        _ => "",
    }
}

fn key_in(members: &Map<String, Value>, before: usize) -> &str
    ensures { result.now ≡ key_from before (members_view members.now.entries) }
{
    let mut left = before;
    for (name, _) in members.iter() {
        if left == 0 {
            return name.as_str();
        }
        left -= 1;
    }
    ""
}
