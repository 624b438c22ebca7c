//! The numbers of JSON, as the scan goes over them.

use super::scan::{noticed, rest_of};
use super::{Mistake, Noticed};

/// Where a number ends that begins at this byte, or what is wrong with it.
pub(super) fn numeral_end(bytes: &[u8], start: usize) -> Result<usize, Noticed> {
    let rest = rest_of(bytes, start);
    let length = rest.iter().take_while(|b| goes_in_numeral(**b)).count();
    let numeral = rest.get(..length).unwrap_or(&[]);
    if !is_numeral(numeral) {
        return Err(noticed(start, Mistake::NumberForm));
    }
    if !is_in_range(numeral) {
        return Err(noticed(start, Mistake::NumberRange));
    }
    Ok(start.saturating_add(length))
}

fn goes_in_numeral(byte: u8) -> bool {
    byte.is_ascii_alphanumeric() || matches!(byte, b'+' | b'-' | b'.' | b'_')
}

/// Whether the bytes are a number of JSON.
fn is_numeral(bytes: &[u8]) -> bool {
    let whole = bytes.strip_prefix(b"-").unwrap_or(bytes);
    let behind_whole = match whole {
        [b'0', rest @ ..] => rest,
        _ => match behind_digits(whole) {
            Some(rest) => rest,
            None => return false,
        },
    };
    let behind_point = match behind_whole {
        [b'.', rest @ ..] => match behind_digits(rest) {
            Some(rest) => rest,
            None => return false,
        },
        _ => behind_whole,
    };
    match behind_point {
        [b'e' | b'E', b'+' | b'-', rest @ ..] => are_digits(rest),
        [b'e' | b'E', rest @ ..] => are_digits(rest),
        rest => rest.is_empty(),
    }
}

/// What comes behind digits, of which there is one at least.
fn behind_digits(bytes: &[u8]) -> Option<&[u8]> {
    let length = bytes.iter().take_while(|b| b.is_ascii_digit()).count();
    if length == 0 {
        return None;
    }
    bytes.get(length..)
}

fn are_digits(bytes: &[u8]) -> bool {
    matches!(behind_digits(bytes), Some([]))
}

/// Whether a number is within the range of a double.
fn is_in_range(numeral: &[u8]) -> bool {
    match str::from_utf8(numeral) {
        Ok(text) => match text.parse::<f64>() {
            Ok(number) => number.is_finite(),
            Err(_) => false,
        },
        Err(_) => false,
    }
}
