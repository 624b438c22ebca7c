//! What is wrong with names: a text that is none, and a name that none has.

ghost use Rattle.std.specs.Prelude.{◌≡◌, ◌++◌, [], map, option_map, option_and_then, string_bytes, IfOk, OnOk};
ghost use Rattle.std.specs.Str.{bytes_eq, chars};
ghost use Rattle.serde_json.specs.View.{view, items_view, members_view};
ghost use Rattle.serde_json.specs.Find.{at, get};
ghost use Rattle.es_value.specs.Spelling.{is_name_byte};
ghost use Rattle.es_reading.specs.Parts.{items_in, members_in, text_in};
ghost use Rattle.es_explain.specs.Causes.{agent_in, agents_in, all_listed, awaited_sentence, ill_formed, keys, listed, name_in, name_sentence, next_name, no_agent, or_none, no_callback, no_name, one_name, other_names, two_names, why_no_name};

use crate::spelling::{Alphabet, first_other, spells_name};
use crate::text::{quoted, quoted_letter};
use es_reading::Place;
use es_value::LONGEST_NAME;
use serde_json::{Map, Value};
use std::alloc::{AllocError, Global};

/// How many names a sentence lists.
const MOST_NAMES: usize = 8;

/// Why a text is no name.
pub(crate) fn no_name(alloc: Global, text: &str) -> Result<String, AllocError>
    ensures { IfOk result (λ s. string_bytes s ≡ no_name text.now) }
{
    let shown = quoted(alloc, text)?;
    let why = why_no_name(alloc, first_other(Alphabet::Names, text), text)?;
    format!(in alloc; "{shown} is no name: {why}")
}

fn why_no_name(alloc: Global, other: Option<char>, text: &str) -> Result<String, AllocError>
    ensures { IfOk result (λ s. string_bytes s ≡ why_no_name other text.now) }
{
    match other {
        Some(letter) => {
            let letter = quoted_letter(alloc, letter)?;
            format!(in alloc; "it has {letter}.")
        }
        None => ill_formed(alloc, text),
    }
}

fn ill_formed(alloc: Global, text: &str) -> Result<String, AllocError>
    ensures { IfOk result (λ s. string_bytes s ≡ ill_formed text.now) }
{
    let length = text.len();
    if length == 0 {
        return String::from_str(alloc, "it is empty.");
    }
    if length <= LONGEST_NAME {
        return String::from_str(alloc, "it begins with a digit.");
    }
    format!(in alloc; "it has {length} letters, and a name has at most {LONGEST_NAME}.")
}

/// What is wrong with an agent's name, with a callback's key, or with the names of what a job waits for.
pub(crate) fn name_sentence(alloc: Global, place: Place, part: &Value) -> Result<String, AllocError>
    ensures { IfOk result (λ s. string_bytes s ≡ name_sentence place (view part.now)) }
{
    match place {
        Place::Job(_, _) => of_two(alloc, text_of(part.get(0)), text_of(part.get(1))),
        _ => of_one(alloc, text_of(Some(part))),
    }
}

fn of_one(alloc: Global, name: &str) -> Result<String, AllocError>
    ensures { IfOk result (λ s. string_bytes s ≡ one_name name.now) }
{
    if spells_name(name) {
        return format!(in alloc; "Two agents have the name {name}.");
    }
    no_name(alloc, name)
}

fn of_two(alloc: Global, agent: &str, variable: &str) -> Result<String, AllocError>
    ensures { IfOk result (λ s. string_bytes s ≡ two_names agent.now variable.now) }
{
    if spells_name(agent) {
        return no_name(alloc, variable);
    }
    no_name(alloc, agent)
}

/// Adds a name of a list, of which so many stand before it.
fn push_name(alloc: Global, text: &mut String, before: usize, name: &str) -> Result<(), AllocError>
    ensures { OnOk result (string_bytes text.new ≡ string_bytes text.old ++ next_name before name.now) }
{
    if before > MOST_NAMES {
        return text.push_str("");
    }
    if before == MOST_NAMES {
        return text.push_str(", ..");
    }
    let shown = quoted(alloc, name)?;
    if before == 0 {
        return text.push_str(shown.as_str());
    }
    text.push_str(", ")?;
    text.push_str(shown.as_str())
}

/// A list of names, or the word for none.
fn or_none(alloc: Global, names: String) -> Result<String, AllocError>
    ensures { IfOk result (λ s. string_bytes s ≡ or_none (string_bytes names)) }
{
    if names.is_empty() {
        return String::from_str(alloc, "none");
    }
    Ok(names)
}

/// The keys of an object, and none of any other value.
fn keys_of(alloc: Global, value: Option<&Value>) -> Result<String, AllocError>
    ensures { IfOk result (λ s. string_bytes s
        ≡ all_listed (keys (members_in (option_map (λ v. view v.now) value.entry)))) }
{
    match value {
        Some(Value::Object(members)) => or_none(alloc, keys_in(alloc, members)?),
        _ => String::from_str(alloc, "none"),
    }
}

fn keys_in(alloc: Global, members: &Map<String, Value>) -> Result<String, AllocError>
    ensures { IfOk result (λ s. string_bytes s ≡ listed 0 (keys (members_view members.now.entries))) }
{
    let mut text = String::new(alloc);
    let mut before = 0;
    for (name, _) in members.iter() {
        push_name(alloc, &mut text, before, name.as_str())?;
        before += 1;
    }
    Ok(text)
}

/// The names of all agents but one.
fn other_agents(alloc: Global, agents: &[Value], agent: usize) -> Result<String, AllocError>
    ensures { IfOk result (λ s. string_bytes s ≡ listed 0 (other_names agent 0 (items_view agents.now))) }
{
    let mut text = String::new(alloc);
    let mut before = 0;
    for (index, value) in agents.iter().enumerate() {
        if index != agent {
            push_name(alloc, &mut text, before, text_of(value.get("name")))?;
            before += 1;
        }
    }
    Ok(text)
}

/// The bytes of a text, and none of any other value.
pub(crate) fn text_of(value: Option<&Value>) -> &str
    ensures { result.now ≡ text_in (option_map (λ v. view v.now) value.entry) }
{
    match value {
        Some(Value::String(text)) => text.as_str(),
        _ => "",
    }
}

/// The items of an array, and none of any other value.
pub(crate) fn items_of(value: Option<&Value>) -> &[Value]
    ensures { items_view result.now ≡ items_in (option_map (λ v. view v.now) value.entry) }
{
    match value {
        Some(Value::Array(list)) => list.as_slice(),
        _ => &[],
    }
}

/// An agent of a plan's value.
fn agent_in(value: &Value, agent: usize) -> Option<&Value>
    ensures { option_map (λ v. view v.now) result ≡ agent_in (view value.entry.now) agent }
{
    value.get("agents")?.get(agent)
}

/// The name of an agent.
fn name_in(value: &Value, agent: usize) -> &str
    ensures { result.now ≡ name_in (view value.entry.now) agent }
{
    match agent_in(value, agent) {
        Some(agent) => text_of(agent.get("name")),
        None => "",
    }
}

/// That an agent has no callback of this name.
pub(crate) fn no_callback(
    alloc: Global,
    value: &Value,
    agent: usize,
    name: &str,
) -> Result<String, AllocError>
    ensures { IfOk result (λ s. string_bytes s ≡ no_callback (view value.now) agent name.now) }
{
    let owner = name_in(value, agent);
    let shown = quoted(alloc, name)?;
    let callbacks = match agent_in(value, agent) {
        Some(agent) => keys_of(alloc, agent.get("callbacks"))?,
        None => keys_of(alloc, None)?,
    };
    format!(in alloc; "There is no callback {shown}. Callbacks of agent {owner}: {callbacks}.")
}

/// That there is no other agent of this name, with which this one could do the deed.
pub(crate) fn no_agent(
    alloc: Global,
    deed: &str,
    value: &Value,
    agent: usize,
    name: &str,
) -> Result<String, AllocError>
    ensures { IfOk result (λ s. string_bytes s ≡ no_agent deed.now (view value.now) agent name.now) }
{
    if name == name_in(value, agent) {
        return format!(in alloc; "Agent {name} can't {deed} itself.");
    }
    let shown = quoted(alloc, name)?;
    let others = other_agents(alloc, items_of(value.get("agents")), agent)?;
    let others = or_none(alloc, others)?;
    format!(in alloc; "There is no agent {shown} to {deed}. Other agents: {others}.")
}

/// That there is no other agent for whose message a job could wait.
pub(crate) fn awaited_sentence(
    alloc: Global,
    value: &Value,
    agent: usize,
    part: &Value,
) -> Result<String, AllocError>
    ensures { IfOk result (λ s. string_bytes s ≡ awaited_sentence (view value.now) agent (view part.now)) }
{
    no_agent(alloc, "wait for", value, agent, text_of(part.get(0)))
}
