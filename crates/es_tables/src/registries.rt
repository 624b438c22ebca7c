//! What an event does to FinalizationRegistries, to their cells and to the cleanup queue: read off the
//! event, reserved, and done.

ghost use Rattle.std.specs.Prelude.{◌≡◌, ℕ, IfOk, OnOk};
ghost use Rattle.std.specs.Option.{option_map_or};
ghost use Rattle.es_value.specs.Values.{identity};
ghost use Rattle.es_registry.specs.Registries.{callback, SameCallbacks};
ghost use Rattle.es_tables.specs.Registries.{change_by, made_by, callback_after, cells_after, queue_after, CanChange, HasRoomFor};
ghost use Rattle.es_event.specs.Answers.{answer_said};

use es_event::{AnswerRef, Command};
use es_registry::Registries;
use es_value::{Id, NoMemory, Value};

/// What an event changes of the FinalizationRegistries, their cells and the cleanup queue.
#[derive(Drop)]
pub enum RegistryChange {
    /// Nothing.
    Leaves,
    /// A registry is made, with the callback of this number.
    Makes {
        registry: Id,
        callback: usize,
    },
    /// A cell is made, and takes the next number.
    Registers {
        registry: Id,
        target: Id,
        held: Value,
        token: Option<Id>,
    },
    /// Every cell of a registry with this token is taken out.
    Unregisters {
        registry: Id,
        token: Id,
    },
    /// The cell of this registration is taken out for its callback.
    Takes {
        registration: usize,
    },
    /// The first registry leaves the cleanup queue.
    Dequeues,
    /// A registry is put last in the cleanup queue.
    Queues {
        registry: Id,
    },
}

/// The registry that is queued again where a job ends.
pub(crate) fn queued(again: Option<Id>) -> RegistryChange
    ensures { result ≡ option_map_or RegistryChange.Queues again RegistryChange.Leaves }
{
    match again {
        Some(registry) => RegistryChange::Queues { registry },
        None => RegistryChange::Leaves,
    }
}

/// What a command changes.
pub(crate) fn change_by(
    command: &Command,
    values: &[Value],
    answer: AnswerRef<'_>,
) -> Result<RegistryChange, NoMemory>
    ensures { IfOk result (λ c. c ≡ change_by command.now values.now (answer_said answer.entry)) }
{
    match (command, values) {
        (Command::FinalizationRegistry { callback, .. }, _) => Ok(made_by(*callback, answer)),
        (Command::Register { .. }, [Value::Object(registry), target, held]) => {
            registered(*registry, target, held, None)
        }
        (Command::Register { .. }, [Value::Object(registry), target, held, token, ..]) => {
            registered(*registry, target, held, token.identity())
        }
        (Command::Unregister { .. }, [Value::Object(registry), token]) => {
            Ok(unregistered(*registry, token))
        }
        // no other command changes anything
        _ => Ok(RegistryChange::Leaves),
    }
}

/// The making of a registry with the callback of this number.
pub(crate) fn made_by(callback: usize, answer: AnswerRef<'_>) -> RegistryChange
    ensures { result ≡ made_by callback (answer_said answer.entry) }
{
    match answer {
        AnswerRef::Gives(Value::Object(registry)) => RegistryChange::Makes {
            registry: *registry,
            callback,
        },
        _ => RegistryChange::Leaves,
    }
}

fn registered(
    registry: Id,
    target: &Value,
    held: &Value,
    token: Option<Id>,
) -> Result<RegistryChange, NoMemory>
    ensures { IfOk result (λ c. c ≡ option_map_or (λ i. RegistryChange.Registers registry i held.now token) (identity target.now) RegistryChange.Leaves) }
{
    match target.identity() {
        Some(target) => {
            let held = held.copy()?;
            Ok(RegistryChange::Registers {
                registry,
                target,
                held,
                token,
            })
        }
        None => Ok(RegistryChange::Leaves),
    }
}

fn unregistered(registry: Id, token: &Value) -> RegistryChange
    ensures { result ≡ option_map_or (λ t. RegistryChange.Unregisters registry t) (identity token.now) RegistryChange.Leaves }
{
    match token.identity() {
        Some(token) => RegistryChange::Unregisters { registry, token },
        None => RegistryChange::Leaves,
    }
}

/// Makes the room that a change needs.
pub(crate) fn reserve_change(
    registries: &mut Registries,
    change: &RegistryChange,
) -> Result<(), NoMemory>
    ensures callbacks { SameCallbacks registries.old registries.new }
    ensures cells { registries.new.cells ≡ registries.old.cells }
    ensures queue { registries.new.queue ≡ registries.old.queue }
    ensures room { OnOk result (HasRoomFor registries.new change.now) }
{
    match change {
        RegistryChange::Makes { .. } => registries.reserve_make(),
        RegistryChange::Registers {
            registry,
            token,
            ..
        } => registries.reserve_register(*registry, *token),
        RegistryChange::Queues { .. } => registries.reserve_queue(),
        RegistryChange::Leaves
        | RegistryChange::Unregisters { .. }
        | RegistryChange::Takes { .. }
        | RegistryChange::Dequeues => Ok(()),
    }
}

/// Does a change for which there is room; it takes no memory.
pub(crate) fn make_change(registries: &mut Registries, change: RegistryChange)
    requires can { CanChange registries.old change }
    requires room { HasRoomFor registries.old change }
    ensures callbacks { (r : ℕ) → callback registries.new r ≡ callback_after change r (callback registries.old r) }
    ensures cells { registries.new.cells ≡ cells_after change registries.old.cells }
    ensures queue { registries.new.queue ≡ queue_after change registries.old.queue }
{
    match change {
        RegistryChange::Leaves => {}
        RegistryChange::Makes { registry, callback } => registries.make(registry, callback),
        RegistryChange::Registers {
            registry,
            target,
            held,
            token,
        } => {
            registries.register(registry, target, held, token);
        }
        RegistryChange::Unregisters { registry, token } => {
            registries.unregister(registry, token);
        }
        RegistryChange::Takes { registration } => registries.take(registration),
        RegistryChange::Dequeues => {
            registries.pop_queued();
        }
        RegistryChange::Queues { registry } => registries.queue_last(registry),
    }
}
