//! What a command does to the properties of objects, read off the command.

ghost use Rattle.std.specs.Prelude.{◌≡◌, Some, None, IfOk};
ghost use Rattle.es_event.specs.Properties.{put_by};

use es_event::Command;
use es_value::{Id, Name, NoMemory, Value};

/// The property that a command writes or deletes.
pub(crate) fn put_by(
    command: &Command,
    values: &[Value],
) -> Result<Option<((Id, Name), Option<Value>)>, NoMemory>
    ensures { IfOk result (λ r. r ≡ put_by command.now values.now) }
{
    match (command, values) {
        (Command::Set { key, .. }, [Value::Object(object), value]) => {
            written(*object, key, value)
        }
        (Command::Delete { key, .. }, [Value::Object(object)]) => { deleted(*object, key) }
        // no other command writes a property
        _ => Ok(None),
    }
}

fn written(
    object: Id,
    key: &Name,
    value: &Value,
) -> Result<Option<((Id, Name), Option<Value>)>, NoMemory>
    ensures { IfOk result (λ r. r ≡ Some ((object, key.now), Some value.now)) }
{
    let value = value.copy()?;
    let key = key.copy()?;
    Ok(Some(((object, key), Some(value))))
}

fn deleted(object: Id, key: &Name) -> Result<Option<((Id, Name), Option<Value>)>, NoMemory>
    ensures { IfOk result (λ r. r ≡ Some ((object, key.now), None)) }
{
    let key = key.copy()?;
    Ok(Some(((object, key), None)))
}
