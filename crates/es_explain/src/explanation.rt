//! What there is to say of a plan's text.

ghost use Rattle.std.specs.Prelude.{◌≡◌, option_map, IfOk, OnOk};
ghost use Rattle.std.specs.Io.KnownBytes.{Appends};
ghost use Rattle.serde_json.specs.View.{view};
ghost use Rattle.es_script.specs.Fault.{json_value};
ghost use Rattle.es_explain.specs.Explaining.{Explains, IsWarned, explanation_text, fault_lines, found_line};
ghost use Rattle.es_explain.specs.Told.{Tells};

use crate::found::{Said, said_of};
use crate::pointer::pointer_of;
use crate::text::as_json;
use crate::unread::{Unread, said_of_unread};
use es_event::Plan;
use es_reading::{FaultCode, ReadFault, ScriptFault};
use es_script::read_plan;
use es_value::NoMemory;
use es_warnings::{Warning, warnings_of, write_warnings};
use serde_json::Value;
use std::alloc::{AllocError, Global};
use std::io;
use std::io::Write;

/// What a plan's text is, for people.
#[derive(Drop)]
pub enum Explanation {
    /// A plan, and what it is warned of.
    Plan {
        plan: Plan,
        warnings: Vec<Warning>,
    },
    /// It has a fault.
    Fault {
        /// What is wrong.
        fault: ScriptFault,
        /// Where: a JSON Pointer (RFC 6901), in quotation marks, as JSON has a text; or of a text that is no
        /// JSON its line and column.
        place: String,
        /// What is said of it.
        said: Said,
    },
}

/// What there is to say of a text: that it is a plan, with what it is warned of; or its first fault (`docs/PLANS.md`,
/// Faults of a plan), where that is, what it is, and what was found there. Fails for want of memory alone.
pub fn explained(alloc: Global, bytes: &[u8]) -> Result<Explanation, NoMemory>
    ensures { IfOk result (Explains bytes.now) }
{
    match read_plan(alloc, bytes) {
        Ok(plan) => warned(alloc, plan),
        Err(ReadFault::Script(fault)) => told(alloc, bytes, fault),
        Err(ReadFault::NoMemory) => Err(NoMemory),
    }
}

/// A plan with what it is warned of.
fn warned(alloc: Global, plan: Plan) -> Result<Explanation, NoMemory>
    ensures { IfOk result (IsWarned plan) }
{
    let warnings = warnings_of(alloc, &plan)?;
    Ok(Explanation::Plan { plan, warnings })
}

fn told(alloc: Global, bytes: &[u8], fault: ScriptFault) -> Result<Explanation, NoMemory>
    ensures { IfOk result (Tells bytes.now (json_value bytes.now) fault) }
{
    let value = value_of(alloc, bytes)?;
    Ok(told_by(alloc, bytes, value.as_ref(), fault)?)
}

/// The same by the value of the text, if it is JSON.
fn told_by(
    alloc: Global,
    bytes: &[u8],
    value: Option<&Value>,
    fault: ScriptFault,
) -> Result<Explanation, AllocError>
    ensures { IfOk result (Tells bytes.now (option_map (λ v. view v.now) value.entry) fault) }
{
    match value {
        Some(value) => {
            let pointer = pointer_of(alloc, Some(value), fault)?;
            let said = said_of(alloc, value, pointer.as_str(), fault)?;
            let place = as_json(alloc, pointer)?;
            Ok(Explanation::Fault { fault, place, said })
        }
        None => {
            let Unread { place, said } = said_of_unread(alloc, bytes)?;
            Ok(Explanation::Fault { fault, place, said })
        }
    }
}

/// The value of a JSON text, if it is one.
fn value_of(alloc: Global, bytes: &[u8]) -> Result<Option<Value>, NoMemory>
    ensures { IfOk result (λ o. option_map view o ≡ json_value bytes.now) }
{
    match Value::from_slice(alloc, bytes) {
        Ok(value) => Ok(Some(value)),
        Err(error) if error.is_memory() => Err(NoMemory),
        Err(_) => Ok(None),
    }
}

/// Writes an explanation, which takes no memory: `ok` and a line for each warning; or a line with the fault's code
/// and place, one with its sentence, and where something was found a third with that. Fails where the writer does, and part of
/// it may be written then.
pub fn write_explanation<W: Write>(
    explanation: &Explanation,
    writer: &mut W,
) -> Result<(), io::Error>
    ensures { OnOk result (Appends (W.contents writer.old) (W.contents writer.new) (explanation_text explanation.now)) }
{
    match explanation {
        Explanation::Plan { plan, warnings } => {
            writer.write_all(b"ok\n")?;
            write_warnings(plan, warnings.as_slice(), writer)
        }
        Explanation::Fault { fault, place, said } => {
            write_fault(fault.code, place.as_str(), said.sentence.as_str(), writer)?;
            write_found(said.found.as_str(), writer)
        }
    }
}

fn write_fault<W: Write>(
    code: FaultCode,
    place: &str,
    sentence: &str,
    writer: &mut W,
) -> Result<(), io::Error>
    ensures { OnOk result (Appends (W.contents writer.old) (W.contents writer.new) (fault_lines code place.now sentence.now)) }
{
    let number = code.number();
    writeln!(writer, "S{number} {place}")?;
    writeln!(writer, "{sentence}")
}

fn write_found<W: Write>(found: &str, writer: &mut W) -> Result<(), io::Error>
    ensures { OnOk result (Appends (W.contents writer.old) (W.contents writer.new) (found_line found.now)) }
{
    if found.is_empty() {
        return writer.write_all(b"");
    }
    writeln!(writer, "found {found}")
}
