//! Number tokens.

ghost use Rattle.std.specs.Prelude.{◌≡◌, IfSome, Some, true, false};
ghost use Rattle.fast_float.specs.Text.{scan};
ghost use Rattle.serde_json.specs.Read.{number_of, number_from};
ghost use Rattle.serde_json.specs.View.{number_view};

use fast_float::Numeral;
use serde_json::Number;

/// The whole number that a number token writes, and nothing where it writes none of 64 bits.
pub(crate) fn whole_number(token: &str) -> Option<Number>
    ensures { IfSome result (λ x. number_of token.now ≡ Some (number_view x)) }
{
    let bytes = token.as_bytes();
    if bytes.is_empty() {
        return None;
    }
    if bytes[0] == b'-' {
        return below_zero(&bytes[1..]);
    }
    zero_or_above(bytes)
}

/// The number of these digits, where it has 64 bits.
fn zero_or_above(digits: &[u8]) -> Option<Number>
    ensures { IfSome result (λ x. number_from false (scan digits.now) ≡ Some (number_view x)) }
{
    match Numeral::scan(digits).to_u64() {
        Some(number) => Some(Number::from(number)),
        None => None,
    }
}

/// The number that these digits write behind a minus sign, where it is below zero and has 64 bits.
fn below_zero(digits: &[u8]) -> Option<Number>
    ensures { IfSome result (λ x. number_from true (scan digits.now) ≡ Some (number_view x)) }
{
    match Numeral::scan(digits).to_i64(true) {
        Some(number) if number < 0 => Some(Number::from(number)),
        _ => None,
    }
}
