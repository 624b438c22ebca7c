//! Commands and lists of them.

ghost use Rattle.std.specs.Prelude.{◌≡◌};
ghost use Rattle.serde_json.specs.Events.{items_len};
ghost use Rattle.serde_json.specs.View.{view, items_view};
ghost use Rattle.es_reading.specs.Reading.{Gives, said, line_read, tried_read, tried_form_read, lines_read, body_read};
ghost use Rattle.es_reading.specs.Run.{GivesRun};
ghost use Rattle.es_reading.specs.Forms.{form, is_try};
ghost use Rattle.es_reading.specs.Faults.{is_of_form};

use crate::fault::{FaultCode, Spot, fault_in};
use crate::known_names::KnownNames;
use crate::named::command_named;
use crate::parts::has_at_most;
use crate::run::Run;
use crate::scope::Scope;
use crate::spelled::name_of;
use crate::version::Version;
use crate::{Place, ReadFault};
use es_event::Command;
use es_value::{MOST_COMMANDS, Name};
use serde_json::Value;

/// The commands of a callback, read where they stand: `Value::get_mut` says nothing of the value's other
/// parts, so of an agent only the jobs are taken.
pub(crate) fn callback_run(
    names: &mut KnownNames,
    scope: &Scope,
    list: &[Value],
    place: Place,
) -> Result<Run, ReadFault>
    ensures { GivesRun result (body_read (said scope.now) place (items_view list.now)) }
{
    if !has_at_most(list, MOST_COMMANDS) {
        return Err(fault_in(place, FaultCode::Limit));
    }
    lines_of(names, scope, list, place)
}

fn lines_of(
    names: &mut KnownNames,
    scope: &Scope,
    list: &[Value],
    place: Place,
) -> Result<Run, ReadFault>
    ensures { GivesRun result (lines_read (said scope.now) place 1 (items_view list.now)) }
{
    let mut run = Run::new(names.allocator());
    for (index, value) in list.iter().enumerate() {
        let spot = Spot {
            place,
            command: index + 1,
        };
        let (catch, command) = line_of(names, scope, value, spot)?;
        run.push(names.allocator(), catch, command)?;
    }
    Ok(run)
}

/// The commands of a job, whose JSON is given up piece by piece as they are made.
pub(crate) fn job_run(
    names: &mut KnownNames,
    scope: &Scope,
    mut list: Vec<Value>,
    place: Place,
) -> Result<Run, ReadFault>
    ensures { GivesRun result (body_read (said scope.now) place (items_view list.items)) }
{
    if !has_at_most(list.as_slice(), MOST_COMMANDS) {
        return Err(fault_in(place, FaultCode::Limit));
    }
    lines_taken(names, scope, list.as_mut_slice(), place)
}

fn lines_taken(
    names: &mut KnownNames,
    scope: &Scope,
    list: &mut [Value],
    place: Place,
) -> Result<Run, ReadFault>
    ensures { GivesRun result (lines_read (said scope.now) place 1 (items_view list.old)) }
{
    let mut run = Run::new(names.allocator());
    for (index, value) in list.iter_mut().enumerate() {
        let spot = Spot {
            place,
            command: index + 1,
        };
        let (catch, command) = line_of(names, scope, &value.take(), spot)?;
        run.push(names.allocator(), catch, command)?;
    }
    Ok(run)
}

/// A command, and the variable that catches its refusal where it stands behind `try`.
fn line_of(
    names: &mut KnownNames,
    scope: &Scope,
    value: &Value,
    spot: Spot,
) -> Result<(Option<Name>, Command), ReadFault>
    ensures { Gives (λ l. l) result (line_read (said scope.now) spot (view value.now)) }
{
    match value {
        Value::Array(parts) => match parts.as_slice() {
            [Value::String(word), operands @ ..] => {
                if is_try(scope.version(), word.as_str()) {
                    tried(names, scope, operands, spot)
                } else {
                    let command = command_named(names, scope, word.as_str(), operands, spot)?;
                    Ok((None, command))
                }
            }
            _ => Err(spot.fault(FaultCode::Operands)),
        },
        _ => Err(spot.fault(FaultCode::Operands)),
    }
}

/// Whether the word stands before a command whose refusal is caught, in a plan of this version.
pub fn is_try(version: Version, word: &str) -> bool
    ensures { result ≡ is_try version word.now }
{
    match version {
        Version::Three => word == "try",
        _ => false,
    }
}

/// A command behind `try`.
fn tried(
    names: &mut KnownNames,
    scope: &Scope,
    operands: &[Value],
    spot: Spot,
) -> Result<(Option<Name>, Command), ReadFault>
    ensures { Gives (λ l. l) result (tried_read (said scope.now) spot (items_view operands.now)) }
{
    match operands {
        [Value::String(to), command @ ..] => match command {
            [Value::String(word), rest @ ..] => {
                tried_command(names, scope, to.as_str(), word.as_str(), rest, spot)
            }
            _ => Err(spot.fault(FaultCode::Operands)),
        },
        _ => Err(spot.fault(FaultCode::Operands)),
    }
}

/// The same, by its variable, its word and its operands. A fault of the command's form comes before one of the
/// variable, and that before one of the operands.
fn tried_command(
    names: &mut KnownNames,
    scope: &Scope,
    to: &str,
    word: &str,
    operands: &[Value],
    spot: Spot,
) -> Result<(Option<Name>, Command), ReadFault>
    ensures { Gives (λ l. l) result (tried_form_read (said scope.now) spot (form (said scope.now).version word.now (items_len (items_view operands.now))) to.now (items_view operands.now)) }
{
    let to = name_of(names, to, spot);
    match command_named(names, scope, word, operands, spot) {
        Err(ReadFault::NoMemory) => Err(ReadFault::NoMemory),
        Err(ReadFault::Script(fault)) => {
            if is_of_form(fault.code) {
                return Err(ReadFault::Script(fault));
            }
            match to {
                Ok(_) => Err(ReadFault::Script(fault)),
                Err(first) => Err(first),
            }
        }
        Ok(command) => match to {
            Ok(to) => Ok((Some(to), command)),
            Err(first) => Err(first),
        },
    }
}

/// Whether it is a fault that a command's form alone has: its word, its operands' number and kinds, or that
/// it stands in a callback.
fn is_of_form(code: FaultCode) -> bool
    ensures { result ≡ is_of_form code }
{
    matches!(code, FaultCode::Operands | FaultCode::Collection)
}
