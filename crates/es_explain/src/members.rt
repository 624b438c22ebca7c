//! Members that an object of a plan has, and those that it has not.

ghost use Rattle.std.specs.Prelude.{◌≡◌, Some, string_bytes, option_map, IfOk};
ghost use Rattle.serde_json.specs.View.{view, members_view};
ghost use Rattle.es_explain.specs.Misshapen.{first_unknown, here, is_owned, missing, other, owned, owner_name, under, unknown, unknown_member};
ghost use Rattle.es_explain.specs.Coded.{trouble_of};

use crate::pointer::escaped;
use crate::text::{quoted, value_text};
use serde_json::{Map, Value};
use std::alloc::{AllocError, Global};

/// What has members of its own.
#[derive(Clone, Copy, Debug)]
pub(crate) enum Owner {
    Plan,
    Agent,
    Job,
}

/// A place in a value, as a JSON Pointer, and what is wrong there.
#[derive(Drop)]
pub(crate) struct Trouble {
    pub(crate) place: String,
    pub(crate) sentence: String,
}

/// The trouble with a value itself.
pub(crate) fn here(alloc: Global, sentence: String) -> Trouble
    ensures { Some (trouble_of result) ≡ here (string_bytes sentence) }
{
    Trouble {
        place: String::new(alloc),
        sentence,
    }
}

/// That a value is something else than what is wanted.
pub(crate) fn other(alloc: Global, wanted: &str, value: &Value) -> Result<Trouble, AllocError>
    ensures { IfOk result (λ t. Some (trouble_of t) ≡ other wanted.now (view value.now)) }
{
    let found = value_text(alloc, value)?;
    let sentence = format!(in alloc; "{wanted}, and here stands {found}.")?;
    Ok(here(alloc, sentence))
}

/// The same trouble, in the part that has this key.
pub(crate) fn under(
    alloc: Global,
    key: &str,
    trouble: Option<Trouble>,
) -> Result<Option<Trouble>, AllocError>
    ensures { IfOk result (λ o. option_map trouble_of o ≡ under key.now (option_map trouble_of trouble)) }
{
    match trouble {
        Some(Trouble { place, sentence }) => {
            let place = format!(in alloc; "/{key}{place}")?;
            Ok(Some(Trouble { place, sentence }))
        }
        None => Ok(None),
    }
}

fn owner_name(owner: Owner) -> &'static str
    ensures { result.now ≡ owner_name owner }
{
    match owner {
        Owner::Plan => "A plan",
        Owner::Agent => "An agent",
        Owner::Job => "A job",
    }
}

fn owned(owner: Owner) -> &'static str
    ensures { result.now ≡ owned owner }
{
    match owner {
        Owner::Plan => "version and agents",
        Owner::Agent => "name, callbacks and jobs",
        Owner::Job => "run, and on where it waits",
    }
}

fn is_owned(owner: Owner, key: &str) -> bool
    ensures { result ≡ is_owned owner key.now }
{
    match owner {
        Owner::Plan => key == "version" || key == "agents",
        Owner::Agent => key == "name" || (key == "callbacks" || key == "jobs"),
        Owner::Job => key == "run" || key == "on",
    }
}

/// The first member that no such object has.
pub(crate) fn unknown(
    alloc: Global,
    owner: Owner,
    members: &Map<String, Value>,
) -> Result<Option<Trouble>, AllocError>
    ensures { IfOk result (λ o. option_map trouble_of o ≡ unknown owner (members_view members.now.entries)) }
{
    match first_unknown(owner, members) {
        Some(key) => unknown_member(alloc, owner, key),
        None => Ok(None),
    }
}

fn first_unknown(owner: Owner, members: &Map<String, Value>) -> Option<&str>
    ensures { option_map (λ k. k.now) result ≡ first_unknown owner (members_view members.entry.now.entries) }
{
    for (key, _) in members.iter() {
        if !is_owned(owner, key.as_str()) {
            return Some(key.as_str());
        }
    }
    None
}

fn unknown_member(alloc: Global, owner: Owner, key: &str) -> Result<Option<Trouble>, AllocError>
    ensures { IfOk result (λ o. option_map trouble_of o ≡ unknown_member owner key.now) }
{
    let name = owner_name(owner);
    let owned = owned(owner);
    let shown = quoted(alloc, key)?;
    let sentence = format!(in alloc; "{name} has no member {shown}: it has {owned}.")?;
    let place = escaped(alloc, key)?;
    under(alloc, place.as_str(), Some(here(alloc, sentence)))
}

/// That a member is not there.
pub(crate) fn missing(
    alloc: Global,
    owner: Owner,
    key: &str,
    value: &Value,
) -> Result<Option<Trouble>, AllocError>
    ensures { IfOk result (λ o. option_map trouble_of o ≡ missing owner key.now (view value.now)) }
{
    if value.get(key).is_some() {
        return Ok(None);
    }
    let name = owner_name(owner);
    let owned = owned(owner);
    let sentence = format!(in alloc; "{name} has {owned}: {key} is missing.")?;
    Ok(Some(here(alloc, sentence)))
}
