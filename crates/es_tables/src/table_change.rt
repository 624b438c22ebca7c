//! What an event does to the tables beside an assignment: one change, read off the event.

ghost use Rattle.std.specs.Prelude.{◌≡◌, IsTrue, IfOk};
ghost use Rattle.es_event.specs.Commands.{first};
ghost use Rattle.es_event.specs.Ephemerons.{entered_by, joined_by};
ghost use Rattle.es_event.specs.Identities.{identity, object_of, object_given};
ghost use Rattle.es_event.specs.Properties.{put_by};
ghost use Rattle.es_event.specs.Answers.{answer_said};
ghost use Rattle.es_tables.specs.Effects.{IsStill};
ghost use Rattle.es_tables.specs.Plain.{IsAssignment, IsPlain};
ghost use Rattle.es_tables.specs.Changes.{table_change, table_change_by, identity_kept, pointing};
ghost use Rattle.es_tables.specs.Registries.{change_by};
ghost use Rattle.es_tables.specs.Tags.{tag_made, tag_received};

use crate::ephemerons::{entered_by, joined_by};
use crate::properties::put_by;
use crate::registries::{RegistryChange, change_by, made_by, queued};
use crate::tags::Tag;
use es_event::{AnswerRef, Command, Event};
use es_value::{Id, Name, NoMemory, Value};

/// What an event does to the tables beside an assignment. Most events touch one table or none.
#[derive(Drop)]
pub enum TableChange {
    /// Nothing.
    NoChange,
    /// This object's property with this key is written, with the new value, none for a delete.
    Property(Option<((Id, Name), Option<Value>)>),
    /// Something is made under the next identity, with this tag, and it is this object, if it is one.
    Birth {
        tag: Option<Tag>,
        object: Option<Id>,
    },
    /// A WeakRef is made, with its target, which is added to KeptAlive.
    WeakRefBirth {
        object: Option<Id>,
        points: Option<(Id, Id)>,
        kept: Option<Id>,
    },
    /// A FinalizationRegistry is made.
    RegistryBirth {
        object: Option<Id>,
        change: RegistryChange,
    },
    /// The identity is added to KeptAlive.
    Keeping(Option<Id>),
    /// The entry of this WeakMap and this key is written, with the new value, none for a delete.
    Entry(Option<((Id, Id), Option<Value>)>),
    /// The member of this WeakSet is written, and whether it is one from now on.
    Member(Option<((Id, Id), bool)>),
    /// The FinalizationRegistries, their cells or the cleanup queue change.
    Registry(RegistryChange),
    /// A job ends: KeptAlive is emptied, and a registry may be queued again.
    JobEnd(RegistryChange),
}

/// What an event does to the tables; `again` is the registry that is queued again where the event ends
/// a job. It takes memory for the texts that are written.
pub(crate) fn table_change(event: &Event, again: Option<Id>) -> Result<TableChange, NoMemory>
    ensures { IfOk result (λ c. c ≡ table_change again event.now) }
{
    match event {
        Event::JobBegun { .. } => Ok(TableChange::NoChange),
        Event::CleanupBegun { .. } => Ok(TableChange::Registry(RegistryChange::Dequeues)),
        Event::Received { value, .. } => Ok(TableChange::Birth {
            tag: tag_received(value),
            object: object_of(value),
        }),
        Event::Did(done) => table_change_by(done.command(), done.values(), done.answer()),
        Event::Refused { .. } => Ok(TableChange::NoChange),
        Event::Emptied { .. } => Ok(TableChange::NoChange),
        Event::Taken { registration, .. } => Ok(TableChange::Registry(RegistryChange::Takes {
            registration: *registration,
        })),
        Event::JobEnded => Ok(TableChange::JobEnd(queued(again))),
        Event::Skipped { .. } => Ok(TableChange::NoChange),
        Event::Closed => Ok(TableChange::NoChange),
    }
}

/// Whether the command opens no block, posts nothing and opens no later collection, as most do not.
#[inline(always)]
pub fn is_plain(command: &Command) -> bool
    ensures { IsTrue result → IsPlain command.now }
{
    !matches!(
        command,
        Command::SharedArrayBuffer { .. } | Command::Post { .. } | Command::CollectLater
    )
}

/// Whether the command changes no table, and so assigns a variable at most, whatever it read and gave.
#[inline(always)]
pub(crate) fn is_assignment(command: &Command) -> bool
    ensures { IsTrue result → IsAssignment command.now }
{
    match command {
        Command::Let { .. }
        | Command::SymbolFor { .. }
        | Command::Copy { .. }
        | Command::Same { .. }
        | Command::Say { .. }
        | Command::Get { .. }
        | Command::Keys { .. }
        | Command::WeakMapGet { .. }
        | Command::WeakMapHas { .. }
        | Command::WeakSetHas { .. }
        | Command::Length { .. }
        | Command::SameBlock { .. }
        | Command::Atomic(_) => true,
        _ => false,
    }
}

/// Whether the event changes no table and assigns nothing, as a job's beginning and a refusal do.
#[inline(always)]
pub(crate) fn is_still(event: &Event) -> bool
    ensures { IsTrue result → IsStill event.now }
{
    matches!(event, Event::JobBegun { .. } | Event::Refused { .. })
}

/// What a command does to the tables.
pub(crate) fn table_change_by(
    command: &Command,
    values: &[Value],
    answer: AnswerRef<'_>,
) -> Result<TableChange, NoMemory>
    ensures { IfOk result (λ c. c ≡ table_change_by command.now values.now (answer_said answer.entry)) }
{
    match command {
        Command::Set { .. } => written(command, values),
        Command::Delete { .. } => written(command, values),
        Command::New { .. } => Ok(birth(command, answer)),
        Command::WeakMap { .. } => Ok(birth(command, answer)),
        Command::WeakSet { .. } => Ok(birth(command, answer)),
        Command::SharedArrayBuffer { .. } => Ok(birth(command, answer)),
        Command::Symbol { .. } => Ok(TableChange::Birth {
            tag: Some(Tag::Symbol),
            object: None,
        }),
        Command::WeakRef { .. } => Ok(TableChange::WeakRefBirth {
            object: object_given(answer),
            points: pointing(object_given(answer), first_identity(values)),
            kept: first_identity(values),
        }),
        Command::Deref { .. } => Ok(TableChange::Keeping(identity_given(answer))),
        Command::WeakMapSet { .. } => entry(command, values),
        Command::WeakMapDelete { .. } => entry(command, values),
        Command::WeakSetAdd { .. } => Ok(TableChange::Member(joined_by(command, values))),
        Command::WeakSetDelete { .. } => Ok(TableChange::Member(joined_by(command, values))),
        Command::FinalizationRegistry { callback, .. } => Ok(TableChange::RegistryBirth {
            object: object_given(answer),
            change: made_by(*callback, answer),
        }),
        Command::Register { .. } => registry(command, values, answer),
        Command::Unregister { .. } => registry(command, values, answer),
        // no other command changes a table
        _ => Ok(TableChange::NoChange),
    }
}

/// The writing or the deleting of a property.
fn written(command: &Command, values: &[Value]) -> Result<TableChange, NoMemory>
    ensures { IfOk result (λ c. c ≡ TableChange.Property (put_by command.now values.now)) }
{
    Ok(TableChange::Property(put_by(command, values)?))
}

/// The writing or the deleting of an entry.
fn entry(command: &Command, values: &[Value]) -> Result<TableChange, NoMemory>
    ensures { IfOk result (λ c. c ≡ TableChange.Entry (entered_by command.now values.now)) }
{
    Ok(TableChange::Entry(entered_by(command, values)?))
}

/// A registration, or the end of some.
fn registry(
    command: &Command,
    values: &[Value],
    answer: AnswerRef<'_>,
) -> Result<TableChange, NoMemory>
    ensures { IfOk result (λ c. c ≡ TableChange.Registry (change_by command.now values.now (answer_said answer.entry))) }
{
    Ok(TableChange::Registry(change_by(command, values, answer)?))
}

/// The making of an object of a kind that needs nothing more.
fn birth(command: &Command, answer: AnswerRef<'_>) -> TableChange
    ensures { result ≡ TableChange.Birth (tag_made command.now) (object_given (answer_said answer.entry)) }
{
    TableChange::Birth {
        tag: tag_made(command),
        object: object_given(answer),
    }
}

/// The object that was given, if it is one.
pub(crate) fn object_given(answer: AnswerRef<'_>) -> Option<Id>
    ensures { result ≡ object_given (answer_said answer.entry) }
{
    match answer {
        AnswerRef::Nothing => None,
        AnswerRef::Gives(value) => object_of(value),
        AnswerRef::Listed(_) => None,
    }
}

fn object_of(value: &Value) -> Option<Id>
    ensures { result ≡ object_of value.now }
{
    match value {
        Value::Object(object) => Some(*object),
        _ => None,
    }
}

/// The WeakRef and its target, where both are there.
fn pointing(weakref: Option<Id>, target: Option<Id>) -> Option<(Id, Id)>
    ensures { result ≡ pointing weakref target }
{
    Some((weakref?, target?))
}

/// The identity of the first value that was read, if it has one.
fn first_identity(values: &[Value]) -> Option<Id>
    ensures { result ≡ identity (first values.now) }
{
    match values.first() {
        Some(value) => value.identity(),
        None => None,
    }
}

/// The identity of the value that was given, if it has one.
fn identity_given(answer: AnswerRef<'_>) -> Option<Id>
    ensures { result ≡ identity_kept (answer_said answer.entry) }
{
    match answer {
        AnswerRef::Nothing => None,
        AnswerRef::Gives(value) => value.identity(),
        AnswerRef::Listed(_) => None,
    }
}

fn tag_made(command: &Command) -> Option<Tag>
    ensures { result ≡ tag_made command.now }
{
    match command {
        Command::New { .. } => Some(Tag::Ordinary),
        Command::Symbol { .. } => Some(Tag::Symbol),
        Command::WeakRef { .. } => Some(Tag::WeakRef),
        Command::WeakMap { .. } => Some(Tag::WeakMap),
        Command::WeakSet { .. } => Some(Tag::WeakSet),
        Command::FinalizationRegistry { .. } => Some(Tag::FinalizationRegistry),
        Command::SharedArrayBuffer { .. } => Some(Tag::SharedArrayBuffer),
        // no other command makes anything
        _ => None,
    }
}

/// A received object is a new buffer.
fn tag_received(value: &Value) -> Option<Tag>
    ensures { result ≡ tag_received value.now }
{
    match value {
        Value::Object(_) => Some(Tag::SharedArrayBuffer),
        _ => None,
    }
}
