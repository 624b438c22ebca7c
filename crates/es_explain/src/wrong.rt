//! Which operand of a command has a fault.

ghost use Rattle.std.specs.Prelude.{◌≡◌, false, option_map, unwrap_or};
ghost use Rattle.serde_json.specs.View.{view, items_view, number_view};
ghost use Rattle.serde_json.specs.Find.{as_i64};
ghost use Rattle.es_reading.specs.Forms.{fits, is_whole};
ghost use Rattle.es_explain.specs.Causes.{first_wrong, is_wrong};
ghost use Rattle.es_explain.specs.Coded.{type_of, types_of, wrong_of};

use crate::kinds::Kind;
use crate::spelling::{spells_name, spells_text};
use es_reading::FaultCode;
use serde_json::{Number, Value};

/// An operand that has a fault, counted from 1.
#[derive(Clone, Copy, Drop)]
pub(crate) struct Wrong<'a> {
    pub(crate) number: usize,
    pub(crate) kind: Kind,
    pub(crate) operand: &'a Value,
}

/// The first operand from the left that has the fault.
pub(crate) fn first_wrong<'a>(
    code: FaultCode,
    kinds: &[Kind],
    operands: &'a [Value],
) -> Option<Wrong<'a>>
    ensures { option_map wrong_of result ≡ first_wrong code 1 (types_of kinds.now) (items_view operands.entry.now) }
{
    let mut rest = operands;
    for (index, kind) in kinds.iter().enumerate() {
        let [operand, others @ ..] = rest else {
            return None;
        };
        if is_wrong(code, *kind, operand) {
            return Some(Wrong {
                number: index + 1,
                kind: *kind,
                operand,
            });
        }
        rest = others;
    }
    None
}

fn is_wrong(code: FaultCode, kind: Kind, operand: &Value) -> bool
    ensures { result ≡ is_wrong code (type_of kind) (view operand.now) }
{
    match code {
        FaultCode::Operands => !fits(kind, operand),
        FaultCode::Name => is_misnamed(kind, operand),
        FaultCode::Unknown => matches!(kind, Kind::Callback | Kind::Agent),
        FaultCode::Profile => is_outside(kind, operand),
        FaultCode::Limit => matches!(kind, Kind::Words),
        _ => false,
    }
}

/// Whether an operand is of the JSON kind that is asked for.
fn fits(kind: Kind, operand: &Value) -> bool
    ensures { result ≡ fits (type_of kind) (view operand.now) }
{
    match kind {
        Kind::Literal => !matches!(operand, Value::Array(_) | Value::Object(_)),
        Kind::Whole => matches!(operand, Value::Number(_)),
        Kind::Words => matches!(operand, Value::Number(_)),
        Kind::Amount => matches!(operand, Value::String(_) | Value::Number(_)),
        _ => matches!(operand, Value::String(_)),
    }
}

fn is_misnamed(kind: Kind, operand: &Value) -> bool
    ensures { result ≡ is_wrong FaultCode.Name (type_of kind) (view operand.now) }
{
    match (kind, operand) {
        (Kind::Name | Kind::Callback | Kind::Agent | Kind::Amount, Value::String(name)) => {
            !spells_name(name.as_str())
        }
        _ => false,
    }
}

fn is_outside(kind: Kind, operand: &Value) -> bool
    ensures { result ≡ is_wrong FaultCode.Profile (type_of kind) (view operand.now) }
{
    match (kind, operand) {
        (Kind::Literal | Kind::Text, Value::String(text)) => !spells_text(text.as_str()),
        (_, Value::Number(number)) => !is_of_profile(number),
        _ => false,
    }
}

/// Whether a number is whole and within ±9007199254740991.
fn is_of_profile(number: &Number) -> bool
    ensures { result ≡ unwrap_or (option_map is_whole (as_i64 (number_view number.now))) false }
{
    match number.as_i64() {
        Some(number) => is_whole(number),
        None => false,
    }
}

fn is_whole(number: i64) -> bool
    ensures { result ≡ is_whole number }
{
    (-9007199254740991..=9007199254740991).contains(&number)
}
