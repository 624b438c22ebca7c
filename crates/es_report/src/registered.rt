//! What commands say of registrations.

ghost use Rattle.std.specs.Prelude.{◌≡◌};
ghost use Rattle.es_report.specs.Registered.{identity_at as identity_said, made_by as made_said, made_from as made_read, named_by as named_said, named_in as named_read, object_at as object_said};

use es_event::Command;
use es_value::{Id, Value};

/// What a registration was made with, but for its held value.
#[derive(Clone, Copy)]
pub struct Made {
    /// The registry that its cell was put into.
    pub registry: Id,
    /// What is waited for.
    pub target: Id,
    /// What it is unregistered by.
    pub token: Option<Id>,
}

/// The registration that a command makes, if it makes one.
pub fn made_by(command: &Command, values: &[Value]) -> Option<Made>
    ensures { result ≡ made_said command.now values.now }
{
    match command {
        Command::Register { .. } => made_from(values),
        _ => None,
    }
}

fn made_from(values: &[Value]) -> Option<Made>
    ensures { result ≡ made_read values.now }
{
    if values.get(2).is_none() {
        return None;
    }
    let registry = object_at(values, 0)?;
    let target = identity_at(values, 1)?;
    let token = identity_at(values, 3);
    Some(Made {
        registry,
        target,
        token,
    })
}

/// The registry and the token whose registrations a command takes out, if it names any.
pub fn named_by(command: &Command, values: &[Value]) -> Option<(Id, Id)>
    ensures { result ≡ named_said command.now values.now }
{
    match command {
        Command::Unregister { .. } => named_in(values),
        _ => None,
    }
}

fn named_in(values: &[Value]) -> Option<(Id, Id)>
    ensures { result ≡ named_read values.now }
{
    if values.get(2).is_some() {
        return None;
    }
    let registry = object_at(values, 0)?;
    let token = identity_at(values, 1)?;
    Some((registry, token))
}

/// The object at a place.
fn object_at(values: &[Value], place: usize) -> Option<Id>
    ensures { result ≡ object_said values.now place }
{
    match values.get(place) {
        Some(Value::Object(id)) => Some(*id),
        _ => None,
    }
}

/// The identity of the value at a place.
fn identity_at(values: &[Value], place: usize) -> Option<Id>
    ensures { result ≡ identity_said values.now place }
{
    match values.get(place) {
        Some(value) => value.identity(),
        None => None,
    }
}
