//! What a value is as a number.

ghost use Rattle.std.specs.Prelude.{◌≡◌, ◌<◌, ◌^◌, ◌+◌, ◌==◌, length, IfSome, if◌then◌else◌};
ghost use Rattle.es_event.specs.Numbers.{after_blanks as after_said, before_blanks as before_said, digits as digits_said, number_of as number_said, number_of_text as text_said, signed as signed_said, trimmed as trimmed_said};

use crate::Refusal;
use es_value::Value;

/// The longest text of digits that is read as a number.
const MOST_DIGITS: usize = 15;

/// What a value is as a number, where a command takes an index or a word (ECMA-262, ToIntegerOrInfinity). A text that is
/// blank is 0; one that is no whole number of at most 15 digits is outside of this project.
pub fn number_of(value: &Value) -> Result<i64, Refusal>
    ensures { result ≡ number_said value.now }
{
    match value {
        Value::Undefined => Ok(0),
        Value::Boolean(true) => Ok(1),
        Value::Boolean(false) => Ok(0),
        Value::Number(number) => Ok(*number),
        Value::Text(text) => number_of_text(trimmed(text.as_str().as_bytes())),
        Value::Registered(_) | Value::Object(_) | Value::Symbol(_) => Err(Refusal::NotANumber),
    }
}

/// What a text without blanks at its ends is as a number (ECMA-262, StringToNumber).
fn number_of_text(text: &[u8]) -> Result<i64, Refusal>
    ensures { result ≡ text_said text.now }
{
    if text.is_empty() {
        return Ok(0);
    }
    match signed(text) {
        Some(number) => Ok(number),
        None => Err(Refusal::TextIsNoWhole),
    }
}

/// The number that one sign or none and digits write.
fn signed(text: &[u8]) -> Option<i64>
    requires { 0 < length text.now }
    ensures { result ≡ signed_said text.now }
{
    match text[0] {
        b'-' => Some(-(digits(&text[1..])? as i64)),
        b'+' => Some(digits(&text[1..])? as i64),
        _ => Some(digits(text)? as i64),
    }
}

/// The number that 1 to 15 digits write.
fn digits(text: &[u8]) -> Option<u64>
    ensures value { result ≡ digits_said text.now }
    ensures small { IfSome result (λ n. n < 10 ^ 15) }
{
    if text.is_empty() || text.len() > MOST_DIGITS {
        return None;
    }
    let mut number = 0;
    for letter in text {
        if !letter.is_ascii_digit() {
            return None;
        }
        number = number * 10 + u64::from(*letter - b'0');
    }
    Some(number)
}

/// The text without blanks at its ends; of all blanks a text of this project has the space alone.
fn trimmed(text: &[u8]) -> &[u8]
    ensures { result.now ≡ trimmed_said text.now }
{
    before_blanks(after_blanks(text))
}

fn after_blanks(text: &[u8]) -> &[u8]
    ensures { result.now ≡ after_said text.now }
{
    for place in 0..text.len() {
        if text[place] != b' ' {
            return &text[place..];
        }
    }
    &[]
}

fn before_blanks(text: &[u8]) -> &[u8]
    ensures { result.now ≡ before_said text.now }
{
    let mut end = 0;
    for place in 0..text.len() {
        end = end_after(text[place], end, place);
    }
    &text[..end]
}

/// Where a text ends without the blanks after it, with this letter at this place.
fn end_after(letter: u8, end: usize, place: usize) -> usize
    requires { place < 2 ^ 63 }
    ensures { result ≡ (if letter == 32 then end else place + 1) }
{
    if letter == b' ' { end } else { place + 1 }
}
