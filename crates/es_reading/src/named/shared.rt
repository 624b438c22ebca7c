//! Commands on buffers and messages.

ghost use Rattle.std.specs.Prelude.{◌≡◌, map, IfOk, IfErr};
ghost use Rattle.serde_json.specs.View.{items_of};
ghost use Rattle.serde_json.specs.Events.{items_len};
ghost use Rattle.es_event.specs.Commands.{atomic};
ghost use Rattle.es_reading.specs.Forms.{compare_form, count_form, load_form, modification_named, modify_form, notify_form, shared_form, store_form, wait_form};
ghost use Rattle.es_reading.specs.Reading.{Gives, said, form_read};

use super::registry::registry_command;
use crate::ReadFault;
use crate::fault::{FaultCode, Spot};
use crate::known_names::KnownNames;
use crate::operand::AgentNumber;
use crate::operands::{five, four, three, two};
use crate::part::Seen;
use crate::parts::has_exactly;
use crate::scope::Scope;
use crate::version::Version;
use es_event::{Atomic, Command, Modification, Operand as Amount, Operation};
use es_value::Name;

/// A command on buffers or messages, and then the others.
pub(crate) fn shared_command<V: Seen>(
    names: &mut KnownNames,
    scope: &Scope,
    word: &str,
    operands: &[V],
    spot: Spot,
) -> Result<Command, ReadFault>
    ensures { Gives (λ c. c) result (form_read (said scope.now) spot (shared_form (said scope.now).version word.now (items_len (items_of (map V.shown operands.now)))) (items_of (map V.shown operands.now))) }
{
    match word {
        "buffer" => {
            let (to, words) = two(names, scope, operands, spot)?;
            Ok(Command::SharedArrayBuffer { to, words })
        }
        "length" => {
            let (to, buffer) = two(names, scope, operands, spot)?;
            Ok(Command::Length { to, buffer })
        }
        "sameblock" => {
            let (to, left, right) = three(names, scope, operands, spot)?;
            Ok(Command::SameBlock { to, left, right })
        }
        "load" => load(names, scope, operands, spot),
        "store" => store(names, scope, operands, spot),
        "compareexchange" => compare_exchange(names, scope, operands, spot),
        "wait" => wait(names, scope, operands, spot),
        "notify" => notify(names, scope, operands, spot),
        "post" => {
            let (AgentNumber(receiver), from) = two(names, scope, operands, spot)?;
            Ok(Command::Post { receiver, from })
        }
        _ => match modification_named(word) {
            Some(how) => modify(names, scope, how, operands, spot),
            None => registry_command(names, scope, word, operands, spot),
        },
    }
}

/// The modification with this word.
pub fn modification_named(word: &str) -> Option<Modification>
    ensures { result ≡ modification_named word.now }
{
    match word {
        "add" => Some(Modification::Add),
        "sub" => Some(Modification::Sub),
        "and" => Some(Modification::And),
        "or" => Some(Modification::Or),
        "xor" => Some(Modification::Xor),
        "exchange" => Some(Modification::Exchange),
        _ => None,
    }
}

fn load<V: Seen>(
    names: &mut KnownNames,
    scope: &Scope,
    operands: &[V],
    spot: Spot,
) -> Result<Command, ReadFault>
    ensures { Gives (λ c. c) result (form_read (said scope.now) spot (load_form (said scope.now).version) (items_of (map V.shown operands.now))) }
{
    let (to, buffer, index) = match scope.version() {
        Version::Three => three(names, scope, operands, spot)?,
        Version::One | Version::Two => {
            let (to, buffer, index) = three(names, scope, operands, spot)?;
            (to, buffer, Amount::Number(index))
        }
    };
    access(names, buffer, index, Operation::Load { to })
}

fn store<V: Seen>(
    names: &mut KnownNames,
    scope: &Scope,
    operands: &[V],
    spot: Spot,
) -> Result<Command, ReadFault>
    ensures { Gives (λ c. c) result (form_read (said scope.now) spot (store_form (said scope.now).version) (items_of (map V.shown operands.now))) }
{
    let (buffer, index, number) = match scope.version() {
        Version::Three => three(names, scope, operands, spot)?,
        Version::One | Version::Two => {
            let (buffer, index, number) = three(names, scope, operands, spot)?;
            (buffer, Amount::Number(index), Amount::Number(number))
        }
    };
    access(names, buffer, index, Operation::Store { number })
}

/// One that modifies a word; before version 3 an addition is the only one.
fn modify<V: Seen>(
    names: &mut KnownNames,
    scope: &Scope,
    how: Modification,
    operands: &[V],
    spot: Spot,
) -> Result<Command, ReadFault>
    ensures { Gives (λ c. c) result (form_read (said scope.now) spot (modify_form (said scope.now).version how) (items_of (map V.shown operands.now))) }
{
    let (to, buffer, index, number) = match scope.version() {
        Version::Three => four(names, scope, operands, spot)?,
        Version::One | Version::Two => {
            if how != Modification::Add {
                return Err(spot.fault(FaultCode::Operands));
            }
            let (to, buffer, index, number) = four(names, scope, operands, spot)?;
            (to, buffer, Amount::Number(index), Amount::Number(number))
        }
    };
    access(names, buffer, index, Operation::Modify { to, how, number })
}

fn compare_exchange<V: Seen>(
    names: &mut KnownNames,
    scope: &Scope,
    operands: &[V],
    spot: Spot,
) -> Result<Command, ReadFault>
    ensures { Gives (λ c. c) result (form_read (said scope.now) spot (compare_form (said scope.now).version) (items_of (map V.shown operands.now))) }
{
    match scope.version() {
        Version::Three => {
            let (to, buffer, index, expected, replacement) = five(names, scope, operands, spot)?;
            access(
                names,
                buffer,
                index,
                Operation::CompareExchange {
                    to,
                    expected,
                    replacement,
                },
            )
        }
        Version::One | Version::Two => Err(spot.fault(FaultCode::Operands)),
    }
}

fn wait<V: Seen>(
    names: &mut KnownNames,
    scope: &Scope,
    operands: &[V],
    spot: Spot,
) -> Result<Command, ReadFault>
    ensures { Gives (λ c. c) result (form_read (said scope.now) spot (wait_form (said scope.now).version) (items_of (map V.shown operands.now))) }
{
    match scope.version() {
        Version::Three => {
            let (to, buffer, index, number) = four(names, scope, operands, spot)?;
            access(names, buffer, index, Operation::Wait { to, number })
        }
        Version::One | Version::Two => Err(spot.fault(FaultCode::Operands)),
    }
}

fn notify<V: Seen>(
    names: &mut KnownNames,
    scope: &Scope,
    operands: &[V],
    spot: Spot,
) -> Result<Command, ReadFault>
    ensures { Gives (λ c. c) result (form_read (said scope.now) spot (notify_form (said scope.now).version (items_len (items_of (map V.shown operands.now)))) (items_of (map V.shown operands.now))) }
{
    match scope.version() {
        Version::Three => notify_of(names, scope, operands, spot),
        Version::One | Version::Two => Err(spot.fault(FaultCode::Operands)),
    }
}

/// A `notify`, with a count where there are four operands.
fn notify_of<V: Seen>(
    names: &mut KnownNames,
    scope: &Scope,
    operands: &[V],
    spot: Spot,
) -> Result<Command, ReadFault>
    ensures { Gives (λ c. c) result (form_read (said scope.now) spot (count_form (items_len (items_of (map V.shown operands.now)))) (items_of (map V.shown operands.now))) }
{
    if has_exactly(operands, 4) {
        let (to, buffer, index, count) = four(names, scope, operands, spot)?;
        let count = Some(count);
        return access(names, buffer, index, Operation::Notify { to, count });
    }
    let (to, buffer, index) = three(names, scope, operands, spot)?;
    let count = None;
    access(names, buffer, index, Operation::Notify { to, count })
}

/// A command on a word of a buffer's block.
fn access(
    names: &KnownNames,
    buffer: Name,
    index: Amount,
    operation: Operation,
) -> Result<Command, ReadFault>
    ensures made { IfOk result (λ c. c ≡ atomic buffer index operation) }
    ensures fault { IfErr result (λ e. e ≡ ReadFault.NoMemory) }
{
    Ok(Command::Atomic(Atomic::new(names.allocator(), buffer, index, operation)?))
}
