//! The tokens that hold values together.

ghost use Rattle.std.specs.Prelude.{◌≡◌, ◌∷◌, IfOk};
ghost use Rattle.json.specs.Token as spec;

use crate::quit::Quit;
use json::{Reader, Token};

/// Takes the brace that opens an object.
pub(crate) fn open_object(reader: &mut Reader<'_>) -> Result<(), Quit>
    ensures { IfOk result (λ _. reader.old ≡ spec.begin_object ∷ reader.new) }
{
    match reader.next() {
        Some(Token::BeginObject) => Ok(()),
        _ => Err(Quit::Unusual),
    }
}

/// Takes the bracket that opens an array.
#[inline(always)]
pub(crate) fn open_array(reader: &mut Reader<'_>) -> Result<(), Quit>
    ensures { IfOk result (λ _. reader.old ≡ spec.begin_array ∷ reader.new) }
{
    match reader.next() {
        Some(Token::BeginArray) => Ok(()),
        _ => Err(Quit::Unusual),
    }
}

/// Takes a text.
#[inline(always)]
pub(crate) fn text<'a>(reader: &mut Reader<'a>) -> Result<&'a str, Quit>
    ensures { IfOk result (λ s. reader.old ≡ spec.string s.now ∷ reader.new) }
{
    match reader.next() {
        Some(Token::String(text)) => Ok(text),
        _ => Err(Quit::Unusual),
    }
}

/// Takes a number, which is answered as it is written.
pub(crate) fn number<'a>(reader: &mut Reader<'a>) -> Result<&'a str, Quit>
    ensures { IfOk result (λ s. reader.old ≡ spec.number s.now ∷ reader.new) }
{
    match reader.next() {
        Some(Token::Number(text)) => Ok(text),
        _ => Err(Quit::Unusual),
    }
}
