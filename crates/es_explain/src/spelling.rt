//! Which letters and texts spell a name or a text of the profile.

ghost use Rattle.std.specs.Prelude.{◌≡◌};
ghost use Rattle.std.specs.List.{list_all};
ghost use Rattle.std.specs.Str.{chars};
ghost use Rattle.es_value.specs.Spelling.{is_name, is_name_byte, is_name_start, is_text, is_text_byte};
ghost use Rattle.es_explain.specs.Causes.{first_other};
ghost use Rattle.es_explain.specs.Coded.{has_letter};

use es_value::{LONGEST_NAME, LONGEST_TEXT};

/// The letters of names, or those of texts.
#[derive(Clone, Copy, Debug)]
pub(crate) enum Alphabet {
    Names,
    Texts,
}

/// Whether a text is a name.
pub(crate) fn spells_name(text: &str) -> bool
    ensures { result ≡ is_name text.now }
{
    let bytes = text.as_bytes();
    match bytes.first() {
        None => false,
        Some(first) => {
            starts_name(*first) && bytes.len() <= LONGEST_NAME && all_go_in_name(bytes)
        }
    }
}

/// Whether a text is one of the profile.
pub(crate) fn spells_text(text: &str) -> bool
    ensures { result ≡ is_text text.now }
{
    text.len() <= LONGEST_TEXT && all_go_in_text(text.as_bytes())
}

fn starts_name(byte: u8) -> bool
    ensures { result ≡ is_name_start byte }
{
    byte.is_ascii_alphabetic() || byte == b'_'
}

fn goes_in_name(letter: u32) -> bool
    ensures { result ≡ is_name_byte letter }
{
    (48..=57).contains(&letter)
        || (65..=90).contains(&letter)
        || (97..=122).contains(&letter)
        || letter == 95
}

fn goes_in_text(letter: u32) -> bool
    ensures { result ≡ is_text_byte letter }
{
    letter >= 32 && letter <= 126 && letter != 34 && letter != 92
}

fn all_go_in_name(bytes: &[u8]) -> bool
    ensures { result ≡ list_all is_name_byte bytes.now }
{
    bytes.iter().all(|b| goes_in_name(u32::from(*b)))
}

fn all_go_in_text(bytes: &[u8]) -> bool
    ensures { result ≡ list_all is_text_byte bytes.now }
{
    bytes.iter().all(|b| goes_in_text(u32::from(*b)))
}

/// Whether a letter is one of them.
fn has_letter(alphabet: Alphabet, letter: char) -> bool
    ensures { result ≡ has_letter alphabet letter }
{
    match alphabet {
        Alphabet::Names => goes_in_name(u32::from(letter)),
        Alphabet::Texts => goes_in_text(u32::from(letter)),
    }
}

/// The first letter of a text that is none of them.
pub(crate) fn first_other(alphabet: Alphabet, text: &str) -> Option<char>
    ensures { result ≡ first_other (has_letter alphabet) (chars text.now) }
{
    for letter in text.chars() {
        if !has_letter(alphabet, letter) {
            return Some(letter);
        }
    }
    None
}
