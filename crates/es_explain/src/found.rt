//! What is said of a fault's place: what is wrong there, and what was found, as JSON and no longer than a
//! line may be.

ghost use Rattle.std.specs.Prelude.{◌≡◌, Some, option_map, string_bytes, IfOk};
ghost use Rattle.serde_json.specs.View.{view};
ghost use Rattle.es_explain.specs.Explaining.{IsCut, IsSaid, Shows, is_of_key};
ghost use Rattle.es_explain.specs.Told.{SaysOf};

use crate::pointer::key_at;
use crate::sentence::cause;
use es_reading::{FaultCode, Place, ScriptFault};
use serde_json::Value;
use std::alloc::{AllocError, Global};

/// How many bytes of what was found are shown.
const MOST_SHOWN: usize = 60;

/// What is said of a fault's place.
#[derive(Debug, Drop)]
pub struct Said {
    /// What is wrong there, in a sentence or two.
    pub sentence: String,
    /// What was found there: JSON on one line, cut at 60 bytes. It is empty where the text is no JSON.
    pub found: String,
}

/// What is said of a fault where the pointer leads. Of a callback's key that is no name the key was found.
pub(crate) fn said_of(
    alloc: Global,
    value: &Value,
    pointer: &str,
    fault: ScriptFault,
) -> Result<Said, AllocError>
    ensures { IfOk result (IsSaid (view value.now) pointer.now fault) }
{
    if is_of_key(fault) {
        let key = String::from_str(alloc, key_at(Some(value), fault.place))?;
        return said_by(alloc, value, Some(&Value::String(key)), fault);
    }
    said_by(alloc, value, value.pointer(pointer), fault)
}

/// Whether what is wrong is the key of a callback.
fn is_of_key(fault: ScriptFault) -> bool
    ensures { result ≡ is_of_key fault.place fault.command fault.code }
{
    match fault.place {
        Place::Callback(_, _) => match fault.code {
            FaultCode::Name => fault.command == 0,
            _ => false,
        },
        _ => false,
    }
}

/// What is said of a fault of this part of a value.
fn said_by(
    alloc: Global,
    value: &Value,
    part: Option<&Value>,
    fault: ScriptFault,
) -> Result<Said, AllocError>
    ensures { IfOk result (SaysOf (view value.now) (option_map (λ v. view v.now) part.entry) fault) }
{
    match part {
        Some(part) => {
            let sentence = cause(alloc, fault, value, part)?;
            let found = cut(alloc, part)?;
            Ok(Said { sentence, found })
        }
        None => Ok(Said {
            sentence: String::new(alloc),
            found: String::new(alloc),
        }),
    }
}

/// A value as JSON, cut.
fn cut(alloc: Global, value: &Value) -> Result<String, AllocError>
    ensures { IfOk result (λ s. Shows (Some (view value.now)) (string_bytes s)) }
{
    let text = value.to_string(alloc)?;
    shortened(alloc, text.as_str())
}

/// The first letters of a text, and two dots, where it has more bytes than are shown.
fn shortened(alloc: Global, text: &str) -> Result<String, AllocError>
    ensures { IfOk result (λ s. IsCut text.now (string_bytes s)) }
{
    if text.len() <= MOST_SHOWN {
        return String::from_str(alloc, text);
    }
    let end = text.floor_char_boundary(MOST_SHOWN);
    let mut shown = String::from_str(alloc, &text[..end])?;
    shown.push_str("..")?;
    Ok(shown)
}
