//! What a command does to the entries of WeakMaps and to the members of WeakSets, read off the command.

ghost use Rattle.std.specs.Prelude.{◌≡◌, Some, IfOk};
ghost use Rattle.std.specs.Option.{option_map};
ghost use Rattle.es_value.specs.Values.{identity};
ghost use Rattle.es_event.specs.Ephemerons.{entered_by, joined_by};

use es_event::Command;
use es_value::{Id, NoMemory, Value};

/// The entry that a command writes; it takes memory for a text that is its value.
pub(crate) fn entered_by(
    command: &Command,
    values: &[Value],
) -> Result<Option<((Id, Id), Option<Value>)>, NoMemory>
    ensures { IfOk result (λ r. r ≡ entered_by command.now values.now) }
{
    match (command, values) {
        (Command::WeakMapSet { .. }, [Value::Object(map), key, value]) => set_at(*map, key, value),
        (Command::WeakMapDelete { .. }, [Value::Object(map), key]) => Ok(deleted_at(*map, key)),
        // no other command writes an entry
        _ => Ok(None),
    }
}

fn set_at(
    map: Id,
    key: &Value,
    value: &Value,
) -> Result<Option<((Id, Id), Option<Value>)>, NoMemory>
    ensures { IfOk result (λ r. r ≡ option_map (λ j. ((map, j), Some value.now)) (identity key.now)) }
{
    match key.identity() {
        Some(key) => Ok(Some(((map, key), Some(value.copy()?)))),
        None => Ok(None),
    }
}

fn deleted_at(map: Id, key: &Value) -> Option<((Id, Id), Option<Value>)>
    ensures { result ≡ option_map (λ j. ((map, j), None)) (identity key.now) }
{
    match key.identity() {
        Some(key) => Some(((map, key), None)),
        None => None,
    }
}

/// The member that a command writes.
pub(crate) fn joined_by(command: &Command, values: &[Value]) -> Option<((Id, Id), bool)>
    ensures { result ≡ joined_by command.now values.now }
{
    match (command, values) {
        (Command::WeakSetAdd { .. }, [Value::Object(set), member]) => written_at(
            *set, member, true,
        ),
        (Command::WeakSetDelete { .. }, [Value::Object(set), member]) => {
            written_at(*set, member, false)
        }
        // no other command writes a member
        _ => None,
    }
}

fn written_at(set: Id, member: &Value, joins: bool) -> Option<((Id, Id), bool)>
    ensures { result ≡ option_map (λ j. ((set, j), joins)) (identity member.now) }
{
    match member.identity() {
        Some(member) => Some(((set, member), joins)),
        None => None,
    }
}
