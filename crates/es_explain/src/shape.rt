//! The first part of a value that keeps it from having the shape of a plan.

ghost use Rattle.std.specs.Prelude.{◌≡◌, Option, codes, option_map, option_and_then, string_bytes, IfOk};
ghost use Rattle.serde_json.specs.Data.{Data};
ghost use Rattle.serde_json.specs.View.{view, items_view, members_view};
ghost use Rattle.es_explain.specs.Misshapen.{Trouble as Told, agent_trouble, agents_trouble, at_key, callback_trouble, callbacks_trouble, command_trouble, each_item, each_member, first_trouble, job_trouble, jobs_trouble, list_trouble, name_trouble, on_trouble, other, place_of, plan_trouble, run_trouble, sentence_of, under, version_trouble};
ghost use Rattle.es_explain.specs.Coded.{trouble_of};

use crate::members::{Owner, Trouble, here, missing, other, under, unknown};
use crate::pointer::escaped;
use crate::text::value_text;
use es_script::is_text_pair;
use serde_json::{Map, Value};
use std::alloc::{AllocError, Global};

/// A part of a plan, which has a shape of its own.
trait Part {
    ghost fault: { Data → Option Told };

    /// The first trouble with its shape.
    fn trouble(alloc: Global, value: &Value) -> Result<Option<Trouble>, AllocError>
        ensures { IfOk result (λ o. option_map trouble_of o ≡ fault (view value.now)) };
}

/// The trouble with the list that has this key, where there is one.
fn at_list<P: Part>(
    alloc: Global,
    key: &str,
    wanted: &str,
    value: &Value,
) -> Result<Option<Trouble>, AllocError>
    ensures { IfOk result (λ o. option_map trouble_of o ≡ at_key key.now (list_trouble wanted.now P.fault) (view value.now)) }
{
    match value.get(key) {
        Some(list) => under(alloc, key, list_trouble::<P>(alloc, wanted, list)?),
        None => Ok(None),
    }
}

/// That the member with this key is something else.
fn at(alloc: Global, key: &str, wanted: &str, value: &Value) -> Result<Option<Trouble>, AllocError>
    ensures { IfOk result (λ o. option_map trouble_of o ≡ under key.now (other wanted.now (view value.now))) }
{
    under(alloc, key, Some(other(alloc, wanted, value)?))
}

/// The trouble with a list, or that it is none.
fn list_trouble<P: Part>(
    alloc: Global,
    wanted: &str,
    value: &Value,
) -> Result<Option<Trouble>, AllocError>
    ensures { IfOk result (λ o. option_map trouble_of o ≡ list_trouble wanted.now P.fault (view value.now)) }
{
    match value {
        Value::Array(list) => each_item::<P>(alloc, list.as_slice()),
        _ => Ok(Some(other(alloc, wanted, value)?)),
    }
}

fn each_item<P: Part>(alloc: Global, list: &[Value]) -> Result<Option<Trouble>, AllocError>
    ensures { IfOk result (λ o. option_map trouble_of o ≡ each_item P.fault 0 (items_view list.now)) }
{
    for (index, value) in list.iter().enumerate() {
        if let Some(trouble) = P::trouble(alloc, value)? {
            let place = format!(in alloc; "{index}")?;
            return under(alloc, place.as_str(), Some(trouble));
        }
    }
    Ok(None)
}

/// Where the first trouble with a plan's shape is.
pub(crate) fn place_of_trouble(alloc: Global, value: Option<&Value>) -> Result<String, AllocError>
    ensures { IfOk result (λ s. string_bytes s ≡ place_of (option_and_then plan_trouble (option_map (λ v. view v.now) value.entry))) }
{
    match value {
        Some(value) => match plan_trouble(alloc, value)? {
            Some(trouble) => Ok(trouble.place),
            None => Ok(String::new(alloc)),
        },
        None => Ok(String::new(alloc)),
    }
}

/// What it is.
pub(crate) fn sentence_of_trouble(alloc: Global, value: &Value) -> Result<String, AllocError>
    ensures { IfOk result (λ s. string_bytes s ≡ sentence_of (plan_trouble (view value.now))) }
{
    match plan_trouble(alloc, value)? {
        Some(trouble) => Ok(trouble.sentence),
        None => Ok(String::new(alloc)),
    }
}

#[tactic(auto, unfolding(crate::specs::Misshapen::plan_trouble, crate::specs::Misshapen::agents_trouble))]
fn plan_trouble(alloc: Global, value: &Value) -> Result<Option<Trouble>, AllocError>
    ensures { IfOk result (λ o. option_map trouble_of o ≡ plan_trouble (view value.now)) }
{
    let Value::Object(members) = value else {
        return Ok(Some(other(alloc, "A plan is an object", value)?));
    };
    if let Some(trouble) = unknown(alloc, Owner::Plan, members)? {
        return Ok(Some(trouble));
    }
    if let Some(trouble) = missing(alloc, Owner::Plan, "version", value)? {
        return Ok(Some(trouble));
    }
    if let Some(trouble) = missing(alloc, Owner::Plan, "agents", value)? {
        return Ok(Some(trouble));
    }
    if let Some(trouble) = at_version(alloc, value)? {
        return Ok(Some(trouble));
    }
    at_list::<Agent>(alloc, "agents", "agents is a list", value)
}

#[tactic(auto, unfolding(crate::specs::Misshapen::version_trouble))]
fn at_version(alloc: Global, value: &Value) -> Result<Option<Trouble>, AllocError>
    ensures { IfOk result (λ o. option_map trouble_of o ≡ at_key (codes "version") version_trouble (view value.now)) }
{
    match value.get("version") {
        None | Some(Value::Number(_)) => Ok(None),
        Some(other) => at(alloc, "version", "version is a number", other),
    }
}

/// An item of the agents.
struct Agent;

impl Part for Agent {
    ghost fault = { agent_trouble };

    #[tactic(auto, unfolding(crate::specs::Misshapen::agent_trouble, crate::specs::Misshapen::jobs_trouble))]
    fn trouble(alloc: Global, value: &Value) -> Result<Option<Trouble>, AllocError> {
        let Value::Object(members) = value else {
            return Ok(Some(other(alloc, "An agent is an object", value)?));
        };
        if let Some(trouble) = unknown(alloc, Owner::Agent, members)? {
            return Ok(Some(trouble));
        }
        if let Some(trouble) = missing(alloc, Owner::Agent, "name", value)? {
            return Ok(Some(trouble));
        }
        if let Some(trouble) = missing(alloc, Owner::Agent, "callbacks", value)? {
            return Ok(Some(trouble));
        }
        if let Some(trouble) = missing(alloc, Owner::Agent, "jobs", value)? {
            return Ok(Some(trouble));
        }
        if let Some(trouble) = at_name(alloc, value)? {
            return Ok(Some(trouble));
        }
        if let Some(trouble) = at_callbacks(alloc, value)? {
            return Ok(Some(trouble));
        }
        at_list::<Job>(alloc, "jobs", "jobs is a list", value)
    }
}

#[tactic(auto, unfolding(crate::specs::Misshapen::name_trouble))]
fn at_name(alloc: Global, value: &Value) -> Result<Option<Trouble>, AllocError>
    ensures { IfOk result (λ o. option_map trouble_of o ≡ at_key (codes "name") name_trouble (view value.now)) }
{
    match value.get("name") {
        None | Some(Value::String(_)) => Ok(None),
        Some(other) => at(alloc, "name", "The name of an agent is a text", other),
    }
}

fn at_callbacks(alloc: Global, value: &Value) -> Result<Option<Trouble>, AllocError>
    ensures { IfOk result (λ o. option_map trouble_of o ≡ at_key (codes "callbacks") callbacks_trouble (view value.now)) }
{
    match value.get("callbacks") {
        Some(callbacks) => under(alloc, "callbacks", callbacks_trouble(alloc, callbacks)?),
        None => Ok(None),
    }
}

#[tactic(auto, unfolding(crate::specs::Misshapen::callbacks_trouble))]
fn callbacks_trouble(alloc: Global, value: &Value) -> Result<Option<Trouble>, AllocError>
    ensures { IfOk result (λ o. option_map trouble_of o ≡ callbacks_trouble (view value.now)) }
{
    match value {
        Value::Object(members) => each_callback(alloc, members),
        _ => Ok(Some(other(alloc, "callbacks is an object of lists", value)?)),
    }
}

#[tactic(auto, unfolding(crate::specs::Misshapen::callback_trouble))]
fn each_callback(alloc: Global, members: &Map<String, Value>) -> Result<Option<Trouble>, AllocError>
    ensures { IfOk result (λ o. option_map trouble_of o ≡ each_member callback_trouble (members_view members.now.entries)) }
{
    for (key, value) in members.iter() {
        if let Some(trouble) = list_trouble::<Command>(
            alloc,
            "A callback is a list of commands",
            value,
        )? {
            let place = escaped(alloc, key.as_str())?;
            return under(alloc, place.as_str(), Some(trouble));
        }
    }
    Ok(None)
}

/// An item of the jobs.
struct Job;

impl Part for Job {
    ghost fault = { job_trouble };

    #[tactic(auto, unfolding(crate::specs::Misshapen::job_trouble, crate::specs::Misshapen::run_trouble))]
    fn trouble(alloc: Global, value: &Value) -> Result<Option<Trouble>, AllocError> {
        let Value::Object(members) = value else {
            return Ok(Some(other(alloc, "A job is an object", value)?));
        };
        if let Some(trouble) = unknown(alloc, Owner::Job, members)? {
            return Ok(Some(trouble));
        }
        if let Some(trouble) = missing(alloc, Owner::Job, "run", value)? {
            return Ok(Some(trouble));
        }
        if let Some(trouble) = at_list::<Command>(
            alloc,
            "run",
            "run is a list of commands",
            value,
        )? {
            return Ok(Some(trouble));
        }
        at_on(alloc, value)
    }
}

#[tactic(auto, unfolding(crate::specs::Misshapen::on_trouble))]
fn at_on(alloc: Global, value: &Value) -> Result<Option<Trouble>, AllocError>
    ensures { IfOk result (λ o. option_map trouble_of o ≡ at_key (codes "on") on_trouble (view value.now)) }
{
    let Some(on) = value.get("on") else {
        return Ok(None);
    };
    if is_text_pair(Some(on)) {
        return Ok(None);
    }
    let sentence = String::from_str(
        alloc,
        "on is a list of two texts: the agent that is waited for, and a variable.",
    )?;
    under(alloc, "on", Some(here(alloc, sentence)))
}

/// An item of a list of commands.
struct Command;

impl Part for Command {
    ghost fault = { command_trouble };

    #[tactic(auto, unfolding(crate::specs::Misshapen::command_trouble))]
    fn trouble(alloc: Global, value: &Value) -> Result<Option<Trouble>, AllocError> {
        match value {
            Value::Array(list) => first_trouble(alloc, list.first()),
            _ => {
                let trouble = other(
                    alloc,
                    "A command is a list that begins with its word",
                    value,
                )?;
                Ok(Some(trouble))
            }
        }
    }
}

/// What is wrong with what a command begins with.
fn first_trouble(alloc: Global, first: Option<&Value>) -> Result<Option<Trouble>, AllocError>
    ensures { IfOk result (λ o. option_map trouble_of o ≡ first_trouble (option_map (λ v. view v.now) first.entry)) }
{
    let sentence = match first {
        Some(Value::String(_)) => return Ok(None),
        Some(value) => {
            let found = value_text(alloc, value)?;
            format!(in alloc;
                "A command is a list that begins with its word, and this one begins with {found}."
            )?
        }
        None => String::from_str(
            alloc,
            "A command is a list that begins with its word, and this one is empty.",
        )?,
    };
    Ok(Some(here(alloc, sentence)))
}
