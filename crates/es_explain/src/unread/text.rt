//! The texts of JSON, as the scan goes over them.

ghost use Rattle.std.specs.Prelude.{◌<◌, IfSome};

use super::scan::{noticed, rest_of};
use super::{Mistake, Noticed};

/// Where a text ends that begins with the quotation mark at this byte, or what is wrong in it.
pub(super) fn text_end(bytes: &[u8], start: usize) -> Result<usize, Noticed> {
    let mut at = start.saturating_add(1);
    for _ in 0..bytes.len() {
        match bytes.get(at) {
            Some(b'"') => return Ok(at.saturating_add(1)),
            Some(b'\\') => at = escape_end(bytes, at)?,
            Some(b'\n' | b'\r') => break,
            Some(byte) if *byte < 32 => return Err(noticed(at, Mistake::ControlLetter)),
            Some(_) => at = at.saturating_add(1),
            None => break,
        }
    }
    Err(noticed(start, Mistake::TextOpen))
}

/// Where an escape ends that begins with the backslash at this byte.
fn escape_end(bytes: &[u8], start: usize) -> Result<usize, Noticed> {
    match bytes.get(start.saturating_add(1)) {
        Some(b'"' | b'\\' | b'/' | b'b' | b'f' | b'n' | b'r' | b't') => {
            Ok(start.saturating_add(2))
        }
        Some(b'u') => unit_end(bytes, start),
        _ => Err(noticed(start, Mistake::Escape)),
    }
}

/// The same of an escape by four digits: half of a surrogate pair needs the other half.
fn unit_end(bytes: &[u8], start: usize) -> Result<usize, Noticed> {
    let Some(unit) = unit_at(bytes, start) else {
        return Err(noticed(start, Mistake::Escape));
    };
    let end = start.saturating_add(6);
    match unit {
        0xD800..=0xDBFF => match unit_at(bytes, end) {
            Some(0xDC00..=0xDFFF) => Ok(end.saturating_add(6)),
            _ => Err(noticed(start, Mistake::HalfPair)),
        },
        0xDC00..=0xDFFF => Err(noticed(start, Mistake::HalfPair)),
        _ => Ok(end),
    }
}

/// The number that a backslash, a `u` and four digits stand for.
fn unit_at(bytes: &[u8], start: usize) -> Option<u32> {
    match rest_of(bytes, start) {
        [b'\\', b'u', a, b, c, d, ..] => {
            let high = (digit(*a)? * 16) + digit(*b)?;
            let low = (digit(*c)? * 16) + digit(*d)?;
            Some(high * 256 + low)
        }
        _ => None,
    }
}

fn digit(byte: u8) -> Option<u32>
    ensures { IfSome result (λ d. d < 16) }
{
    match byte {
        b'0'..=b'9' => Some(u32::from(byte) - 48),
        b'A'..=b'F' => Some(u32::from(byte) - 55),
        b'a'..=b'f' => Some(u32::from(byte) - 87),
        _ => None,
    }
}
