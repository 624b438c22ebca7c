//! What is said of a text that is no JSON.

mod numeral;
mod scan;
mod text;

ghost use Rattle.std.specs.Prelude.{◌≡◌, ◌≤◌, length, take, string_bytes, IfOk};
ghost use Rattle.es_explain.specs.Unread.{IsUnread, behind, first, mistake_text, position_text};
ghost use Rattle.es_explain.specs.Coded.{TellsUnread, position_of};

use self::scan::first_mistake;
use crate::found::Said;
use std::alloc::{AllocError, Global};

/// What keeps a text from being JSON.
#[derive(Clone, Copy, Debug)]
pub(crate) enum Mistake {
    Empty,
    NotUtf8,
    ByteOrderMark,
    Comment,
    Quotes,
    BareName,
    Word,
    NumberForm,
    NumberRange,
    CommaMissing,
    CommaBeforeEnd,
    ColonMissing,
    ValueMissing,
    NameMissing,
    ListOpen,
    ObjectOpen,
    ListEndWanted,
    ObjectEndWanted,
    TextOpen,
    ControlLetter,
    Escape,
    HalfPair,
    TooDeep,
    AfterEnd,
    Stray,
}

/// A mistake, and the byte at which it is noticed.
#[derive(Clone, Copy, Debug)]
pub(crate) struct Noticed {
    pub(crate) offset: usize,
    pub(crate) mistake: Mistake,
}

/// A line and a column, counted from 1, in numbers that are wide enough for any text.
#[derive(Clone, Copy, Debug)]
pub(crate) struct Position {
    pub(crate) line: u128,
    pub(crate) column: u128,
}

/// The place of a text's first mistake, and what is said of it.
#[derive(Drop)]
pub(crate) struct Unread {
    pub(crate) place: String,
    pub(crate) said: Said,
}

/// What is said of a text that is no JSON: the place is the first mistake that a scan notices.
pub(crate) fn said_of_unread(alloc: Global, bytes: &[u8]) -> Result<Unread, AllocError>
    ensures { IfOk result (TellsUnread bytes.now) }
{
    let Noticed { offset, mistake } = first_mistake(alloc, bytes)?;
    let offset = offset.min(bytes.len());
    let Position { line, column } = behind(&bytes[..offset]);
    let place = format!(in alloc; "line {line} column {column}")?;
    let sentence = String::from_str(alloc, mistake_text(mistake))?;
    let found = String::new(alloc);
    Ok(Unread {
        place,
        said: Said { sentence, found },
    })
}

/// The place behind these bytes.
fn behind(bytes: &[u8]) -> Position
    ensures { position_of result ≡ behind bytes.now first }
{
    let mut line: u128 = 1;
    let mut column: u128 = 1;
    for byte in bytes {
        if *byte == b'\n' {
            line += 1;
            column = 1;
        } else if *byte < 128 || *byte >= 192 {
            column += 1;
        }
    }
    Position { line, column }
}

fn mistake_text(mistake: Mistake) -> &'static str
    ensures { result.now ≡ mistake_text mistake }
{
    match mistake {
        Mistake::Empty => "There is nothing here: a plan is an object.",
        Mistake::NotUtf8 => "This byte is no UTF-8.",
        Mistake::ByteOrderMark => "A byte order mark stands before the plan: JSON has none.",
        Mistake::Comment => "JSON has no comments.",
        Mistake::Quotes => "JSON has texts between double quotation marks alone.",
        Mistake::BareName => "A name stands between double quotation marks.",
        Mistake::Word => { "JSON has three words, true, false and null, and this is none of them." }
        Mistake::NumberForm => {
            "JSON has no number of this form: a number has no + and no 0 before it, and digits on both sides of a point."
        }
        Mistake::NumberRange => "This number is past the range of a double.",
        Mistake::CommaMissing => "A comma is missing before this.",
        Mistake::CommaBeforeEnd => {
            "After this comma comes a closing bracket: JSON has no comma there."
        }
        Mistake::ColonMissing => {
            "A colon is missing before this: it stands between a name and its value."
        }
        Mistake::ValueMissing => "A value is missing before this.",
        Mistake::NameMissing => "A name is missing before this.",
        Mistake::ListOpen => "This [ is never closed.",
        Mistake::ObjectOpen => "This { is never closed.",
        Mistake::ListEndWanted => "This } stands where ] is wanted.",
        Mistake::ObjectEndWanted => "This ] stands where } is wanted.",
        Mistake::TextOpen => "This text is not closed on its line.",
        Mistake::ControlLetter => "In a text JSON writes this letter with a backslash.",
        Mistake::Escape => "JSON has no such letter after a backslash.",
        Mistake::HalfPair => { "This is half of a surrogate pair, and the other half is missing." }
        Mistake::TooDeep => "More than 127 brackets are open here.",
        Mistake::AfterEnd => "The plan has ended before this.",
        Mistake::Stray => "This can't stand here.",
    }
}
