//! Which callback each FinalizationRegistry of an agent has, by the agent's events.

ghost use Rattle.std.specs.Prelude.{◌≡◌, ℕ, List, [], nat_eq, OnOk, if◌then◌else◌};
ghost use Rattle.std.specs.HashMap.{get};
ghost use Rattle.std.specs.Option.{option_and_then, option_map};
ghost use Rattle.es_value.specs.declared.value.Value.{Value as Operand};
ghost use Rattle.es_event.specs.Commands.{kind_made};
ghost use Rattle.es_event.specs.History.{History};
ghost use Rattle.es_event.specs.Identities.{object_given as object_given_said, object_of};
ghost use Rattle.es_event.specs.Registrations.{callback as callback_said, callback_in};
ghost use Rattle.es_event.specs.Answers.{answer_said};
ghost use Rattle.es_trace.specs.Callbacks.{Tells, Told, made_at as made_said};

use es_event::{AnswerRef, Command, Event};
use es_value::{Id, Value};
use std::alloc::Global;
use std::collections::HashMap;
use std::io;

/// Which callback each FinalizationRegistry has, by the events so far.
#[derive(Drop)]
pub(crate) struct Callbacks {
    /// For each registry the number of its callback, counted from 1.
    known: HashMap<Id, usize>,
}

impl Callbacks {
    /// Before the first event; it takes no memory.
    pub(crate) fn new(alloc: Global) -> Callbacks
        ensures { Told [] result }
    {
        Callbacks {
            known: HashMap::new(alloc),
        }
    }

    /// The callback of a registry, if there is one.
    pub(crate) fn of(&self, registry: Option<Id>) -> Option<usize>
        ensures { (h : History) → Told h self.now → result ≡ option_and_then (callback_said h) registry }
    {
        match registry {
            Some(registry) => self.known.get(&registry).copied(),
            None => None,
        }
    }

    /// Notes the next event.
    pub(crate) fn note(&mut self, event: &Event) -> Result<(), io::Error>
        ensures { OnOk result (Tells event.now self.old self.new) }
    {
        match made_at(event) {
            Some((object, callback)) => set(&mut self.known, object, callback),
            None => Ok(()),
        }
    }
}

/// Sets what is known of an object: its callback, or that it has none.
fn set(known: &mut HashMap<Id, usize>, object: Id, callback: Option<usize>) -> Result<(), io::Error>
    ensures { OnOk result ((r : ℕ) → get nat_eq known.new r ≡ (if nat_eq object r then callback else get nat_eq known.old r)) }
{
    match callback {
        Some(callback) => {
            known.insert(object, callback)?;
        }
        None => {
            let _ = known.remove(&object);
        }
    }
    Ok(())
}

/// The object that the event makes, with its callback if it is a FinalizationRegistry.
fn made_at(event: &Event) -> Option<(Id, Option<usize>)>
    ensures { result ≡ made_said event.now }
{
    match event {
        Event::Received { value, .. } => Some((object_in(value)?, None)),
        Event::Did(done) => {
            let callback = callback_made(done.command())?;
            Some((object_given(done.answer())?, callback))
        }
        Event::JobBegun { .. }
        | Event::CleanupBegun { .. }
        | Event::Refused { .. }
        | Event::Emptied { .. }
        | Event::Taken { .. }
        | Event::JobEnded
        | Event::Skipped { .. }
        | Event::Closed => None,
    }
}

/// The callback of what the command makes, if it makes an object.
fn callback_made(command: &Command) -> Option<Option<usize>>
    ensures { (vs : List Operand) → result ≡ option_map callback_in (kind_made command.now vs) }
{
    match command {
        Command::FinalizationRegistry { callback, .. } => Some(Some(*callback)),
        Command::New { .. }
        | Command::WeakRef { .. }
        | Command::WeakMap { .. }
        | Command::WeakSet { .. }
        | Command::SharedArrayBuffer { .. } => Some(None),
        _ => None,
    }
}

/// The object that an answer is.
fn object_given(answer: AnswerRef<'_>) -> Option<Id>
    ensures { result ≡ object_given_said (answer_said answer.entry) }
{
    match answer {
        AnswerRef::Gives(value) => object_in(value),
        AnswerRef::Nothing | AnswerRef::Listed(_) => None,
    }
}

fn object_in(value: &Value) -> Option<Id>
    ensures { result ≡ object_of value.now }
{
    match value {
        Value::Object(id) => Some(*id),
        _ => None,
    }
}
