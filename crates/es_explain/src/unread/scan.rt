//! A scan for the first mistake of a text that is no JSON. No contract says which one it finds: that is
//! tested. Each step goes on by a letter at least, and the text's length bounds the steps.

use super::numeral::numeral_end;
use super::text::text_end;
use super::{Mistake, Noticed};
use std::alloc::{AllocError, Global};

/// How many brackets may be open at once.
const MOST_OPEN: usize = 127;

/// What may come next.
#[derive(Clone, Copy, Debug)]
enum Wanted {
    /// A value.
    Value,
    /// The first item of a list, or its end.
    FirstItem,
    /// The first name of an object, or its end.
    FirstName,
    /// What comes after the comma at this byte: an item, or a name.
    AfterComma(usize),
    /// The colon behind a name.
    Colon,
    /// A comma, or the end of the list or object.
    Comma,
    /// Nothing more.
    Nothing,
}

/// A bracket that is open.
#[derive(Clone, Copy, Debug)]
struct Open {
    offset: usize,
    is_list: bool,
}

/// How far a scan is.
#[derive(Drop)]
struct Scan<'a> {
    bytes: &'a [u8],
    at: usize,
    wanted: Wanted,
    open: Vec<Open>,
}

/// The first mistake of a text, or its end where there is none.
pub(super) fn first_mistake(alloc: Global, bytes: &[u8]) -> Result<Noticed, AllocError> {
    if let Err(error) = str::from_utf8(bytes) {
        return Ok(noticed(error.valid_up_to(), Mistake::NotUtf8));
    }
    if bytes.starts_with(b"\xEF\xBB\xBF") {
        return Ok(noticed(0, Mistake::ByteOrderMark));
    }
    let mut scan = Scan {
        bytes,
        at: 0,
        wanted: Wanted::Value,
        open: Vec::new(alloc),
    };
    for _ in 0..bytes.len() {
        if let Some(found) = step(&mut scan)? {
            return Ok(found);
        }
    }
    Ok(at_end(&scan))
}

pub(super) fn noticed(offset: usize, mistake: Mistake) -> Noticed {
    Noticed { offset, mistake }
}

/// What is wrong at the end of a text.
fn at_end(scan: &Scan<'_>) -> Noticed {
    match scan.open.last() {
        Some(open) if open.is_list => noticed(open.offset, Mistake::ListOpen),
        Some(open) => noticed(open.offset, Mistake::ObjectOpen),
        None => match scan.wanted {
            Wanted::Value => noticed(0, Mistake::Empty),
            _ => noticed(scan.bytes.len(), Mistake::Stray),
        },
    }
}

/// Goes on by one part, or says what is wrong with it.
fn step(scan: &mut Scan<'_>) -> Result<Option<Noticed>, AllocError> {
    let Some(byte) = scan.bytes.get(scan.at) else {
        return Ok(None);
    };
    let byte = *byte;
    if matches!(byte, b' ' | b'\t' | b'\n' | b'\r') {
        scan.at = scan.at.saturating_add(1);
        return Ok(None);
    }
    if is_comment(scan, byte) {
        return Ok(Some(noticed(scan.at, Mistake::Comment)));
    }
    match scan.wanted {
        Wanted::Value | Wanted::FirstItem => value(scan, byte),
        Wanted::FirstName => Ok(name(scan, byte)),
        Wanted::AfterComma(comma) => after_comma(scan, byte, comma),
        Wanted::Colon => Ok(colon(scan, byte)),
        Wanted::Comma => Ok(comma(scan, byte)),
        Wanted::Nothing => Ok(Some(noticed(scan.at, Mistake::AfterEnd))),
    }
}

fn is_comment(scan: &Scan<'_>, byte: u8) -> bool {
    let next = scan.bytes.get(scan.at.saturating_add(1)).copied();
    byte == b'#' || byte == b'/' && matches!(next, Some(b'/' | b'*'))
}

/// Goes on behind a part, after which this is wanted.
fn go_on(scan: &mut Scan<'_>, at: usize, wanted: Wanted) -> Option<Noticed> {
    scan.at = at;
    scan.wanted = wanted;
    None
}

/// What is wanted behind a value.
fn behind_value(scan: &Scan<'_>) -> Wanted {
    if scan.open.is_empty() {
        Wanted::Nothing
    } else {
        Wanted::Comma
    }
}

fn value(scan: &mut Scan<'_>, byte: u8) -> Result<Option<Noticed>, AllocError> {
    let found = match byte {
        b'{' => open_bracket(scan, false)?,
        b'[' => open_bracket(scan, true)?,
        b'"' => text(scan, behind_value(scan)),
        b'-' | b'+' | b'.' | b'0'..=b'9' => numeral(scan),
        b'\'' | b'`' | 0xE2 => Some(noticed(scan.at, Mistake::Quotes)),
        b']' | b'}' => close_early(scan, byte),
        b',' | b':' => Some(noticed(scan.at, Mistake::ValueMissing)),
        _ if is_letter(byte) => word(scan),
        _ => Some(noticed(scan.at, Mistake::Stray)),
    };
    Ok(found)
}

fn open_bracket(scan: &mut Scan<'_>, is_list: bool) -> Result<Option<Noticed>, AllocError> {
    if scan.open.len() >= MOST_OPEN {
        return Ok(Some(noticed(scan.at, Mistake::TooDeep)));
    }
    scan.open.push(Open {
        offset: scan.at,
        is_list,
    })?;
    let wanted = if is_list {
        Wanted::FirstItem
    } else {
        Wanted::FirstName
    };
    Ok(go_on(scan, scan.at.saturating_add(1), wanted))
}

/// A text, after which this is wanted.
fn text(scan: &mut Scan<'_>, wanted: Wanted) -> Option<Noticed> {
    match text_end(scan.bytes, scan.at) {
        Ok(end) => go_on(scan, end, wanted),
        Err(found) => Some(found),
    }
}

fn numeral(scan: &mut Scan<'_>) -> Option<Noticed> {
    match numeral_end(scan.bytes, scan.at) {
        Ok(end) => go_on(scan, end, behind_value(scan)),
        Err(found) => Some(found),
    }
}

fn is_letter(byte: u8) -> bool {
    byte.is_ascii_alphabetic() || byte == b'_' || byte == b'$'
}

fn word(scan: &mut Scan<'_>) -> Option<Noticed> {
    let rest = rest_of(scan.bytes, scan.at);
    let length = rest.iter().take_while(|b| is_letter(**b)).count();
    let end = scan.at.saturating_add(length);
    match rest.get(..length).unwrap_or(&[]) {
        [b't', b'r', b'u', b'e'] | [b'f', b'a', b'l', b's', b'e'] | [b'n', b'u', b'l', b'l'] => {
            go_on(scan, end, behind_value(scan))
        }
        _ => Some(noticed(scan.at, Mistake::Word)),
    }
}

/// The bytes from an offset on.
pub(super) fn rest_of(bytes: &[u8], at: usize) -> &[u8] {
    bytes.get(at..).unwrap_or(&[])
}

/// A closing bracket where a value is wanted: the end of an empty list, or too early.
fn close_early(scan: &mut Scan<'_>, byte: u8) -> Option<Noticed> {
    match scan.wanted {
        Wanted::FirstItem => close(scan, byte),
        _ => Some(noticed(scan.at, Mistake::ValueMissing)),
    }
}

fn close(scan: &mut Scan<'_>, byte: u8) -> Option<Noticed> {
    let Some(last) = scan.open.pop() else {
        return Some(noticed(scan.at, Mistake::AfterEnd));
    };
    if last.is_list && byte == b'}' {
        return Some(noticed(scan.at, Mistake::ListEndWanted));
    }
    if !last.is_list && byte == b']' {
        return Some(noticed(scan.at, Mistake::ObjectEndWanted));
    }
    go_on(scan, scan.at.saturating_add(1), behind_value(scan))
}

fn name(scan: &mut Scan<'_>, byte: u8) -> Option<Noticed> {
    match byte {
        b'"' => text(scan, Wanted::Colon),
        b'}' | b']' => close(scan, byte),
        b'\'' | b'`' | 0xE2 => Some(noticed(scan.at, Mistake::Quotes)),
        b',' | b':' => Some(noticed(scan.at, Mistake::NameMissing)),
        _ if is_letter(byte) || byte.is_ascii_digit() => {
            Some(noticed(scan.at, Mistake::BareName))
        }
        _ => Some(noticed(scan.at, Mistake::Stray)),
    }
}

/// What stands behind the comma at this byte.
fn after_comma(scan: &mut Scan<'_>, byte: u8, comma: usize) -> Result<Option<Noticed>, AllocError> {
    if matches!(byte, b'}' | b']') {
        return Ok(Some(noticed(comma, Mistake::CommaBeforeEnd)));
    }
    match scan.open.last() {
        Some(open) if !open.is_list => Ok(name(scan, byte)),
        _ => value(scan, byte),
    }
}

fn colon(scan: &mut Scan<'_>, byte: u8) -> Option<Noticed> {
    if byte == b':' {
        return go_on(scan, scan.at.saturating_add(1), Wanted::Value);
    }
    Some(noticed(scan.at, Mistake::ColonMissing))
}

fn comma(scan: &mut Scan<'_>, byte: u8) -> Option<Noticed> {
    match byte {
        b',' => {
            let at = scan.at;
            go_on(scan, at.saturating_add(1), Wanted::AfterComma(at))
        }
        b'}' | b']' => close(scan, byte),
        b'"' | b'\'' | b'`' | b'{' | b'[' | b'-' => {
            Some(noticed(scan.at, Mistake::CommaMissing))
        }
        _ if is_letter(byte) || byte.is_ascii_digit() => {
            Some(noticed(scan.at, Mistake::CommaMissing))
        }
        _ => Some(noticed(scan.at, Mistake::Stray)),
    }
}
