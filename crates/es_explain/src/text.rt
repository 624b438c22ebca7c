//! Texts in a sentence.

ghost use Rattle.std.specs.Prelude.{◌≡◌, string_bytes, IfOk};
ghost use Rattle.std.specs.Str.{chars};
ghost use Rattle.serde_json.specs.Data.{string};
ghost use Rattle.serde_json.specs.Written.{compact_text};
ghost use Rattle.serde_json.specs.View.{number_view, view};
ghost use Rattle.es_explain.specs.Texts.{first_letters, letter, number_name, quoted, value_text};

use serde_json::{Number, Value};
use std::alloc::{AllocError, Global};

/// How many letters of a text a sentence shows.
const MOST_LETTERS: usize = 32;

/// A text as JSON has it, in quotation marks.
pub(crate) fn as_json(alloc: Global, text: String) -> Result<String, AllocError>
    ensures { IfOk result (λ s. string_bytes s ≡ compact_text (string (string_bytes text))) }
{
    Value::String(text).to_string(alloc)
}

/// The same of a text in a sentence, which shows its first letters alone.
pub(crate) fn quoted(alloc: Global, text: &str) -> Result<String, AllocError>
    ensures { IfOk result (λ s. string_bytes s ≡ quoted text.now) }
{
    as_json(alloc, first_letters(alloc, MOST_LETTERS, text)?)
}

/// A letter in quotation marks.
pub(crate) fn quoted_letter(alloc: Global, character: char) -> Result<String, AllocError>
    ensures { IfOk result (λ s. string_bytes s ≡ letter character) }
{
    let mut text = String::new(alloc);
    text.push(character)?;
    quoted(alloc, text.as_str())
}

/// So many letters of a text, and two dots where it has more.
fn first_letters(alloc: Global, most: usize, text: &str) -> Result<String, AllocError>
    ensures { IfOk result (λ s. string_bytes s ≡ first_letters most (chars text.now)) }
{
    let mut shown = String::new(alloc);
    let mut left = most;
    for character in text.chars() {
        if left == 0 {
            shown.push_str("..")?;
            return Ok(shown);
        }
        left -= 1;
        shown.push(character)?;
    }
    Ok(shown)
}

/// What a value is.
pub(crate) fn value_text(alloc: Global, value: &Value) -> Result<String, AllocError>
    ensures { IfOk result (λ s. string_bytes s ≡ value_text (view value.now)) }
{
    match value {
        Value::Null => String::from_str(alloc, "null"),
        Value::Bool(true) => String::from_str(alloc, "true"),
        Value::Bool(false) => String::from_str(alloc, "false"),
        Value::Number(number) => number_name(alloc, number),
        Value::String(text) => {
            let shown = quoted(alloc, text.as_str())?;
            format!(in alloc; "the text {shown}")
        }
        Value::Array(_) => String::from_str(alloc, "a list"),
        Value::Object(_) => String::from_str(alloc, "an object"),
    }
}

/// A number, of which the digits are shown where it is whole.
fn number_name(alloc: Global, number: &Number) -> Result<String, AllocError>
    ensures { IfOk result (λ s. string_bytes s ≡ number_name (number_view number.now)) }
{
    if number.is_f64() {
        return String::from_str(alloc, "a number");
    }
    let digits = Value::Number(*number).to_string(alloc)?;
    format!(in alloc; "the number {digits}")
}
