//! A word with its operands, in words or as JSON.

ghost use Rattle.std.specs.Prelude.{◌≡◌, decimal, OnOk};
ghost use Rattle.std.specs.Fmt.{signed_decimal};
ghost use Rattle.std.specs.Io.KnownBytes.{Appends};
ghost use Rattle.es_value.specs.Printed.{quoted};
ghost use Rattle.es_trace.specs.Commands.{after, literal_text, mark as mark_said, named, one, three, token_text, two, word as word_said};

use crate::style::Style;
use es_event::{Literal, OptionalName};
use es_value::{Name, Text};
use std::io;
use std::io::Write;

pub(crate) fn write_word<W: Write>(
    style: Style,
    word: &str,
    writer: &mut W,
) -> Result<(), io::Error>
    ensures { OnOk result (Appends (W.contents writer.old) (W.contents writer.new) (word_said style word.now)) }
{
    match style {
        Style::Words => writer.write_all(word.as_bytes()),
        Style::Json => write!(writer, "[\"{word}\""),
    }
}

pub(crate) fn write_one<W: Write>(
    style: Style,
    word: &str,
    a: &Name,
    writer: &mut W,
) -> Result<(), io::Error>
    ensures { OnOk result (Appends (W.contents writer.old) (W.contents writer.new) (one style word.now a.now)) }
{
    write_word(style, word, writer)?;
    write_name(style, a, writer)
}

pub(crate) fn write_two<W: Write>(
    style: Style,
    word: &str,
    a: &Name,
    b: &Name,
    writer: &mut W,
) -> Result<(), io::Error>
    ensures { OnOk result (Appends (W.contents writer.old) (W.contents writer.new) (two style word.now a.now b.now)) }
{
    write_one(style, word, a, writer)?;
    write_name(style, b, writer)
}

pub(crate) fn write_three<W: Write>(
    style: Style,
    word: &str,
    a: &Name,
    b: &Name,
    c: &Name,
    writer: &mut W,
) -> Result<(), io::Error>
    ensures { OnOk result (Appends (W.contents writer.old) (W.contents writer.new) (three style word.now a.now b.now c.now)) }
{
    write_two(style, word, a, b, writer)?;
    write_name(style, c, writer)
}

pub(crate) fn write_name<W: Write>(
    style: Style,
    name: &Name,
    writer: &mut W,
) -> Result<(), io::Error>
    ensures { OnOk result (Appends (W.contents writer.old) (W.contents writer.new) (named style name.now)) }
{
    write_named(style, name.as_str(), writer)
}

/// Writes an operand that is a name.
pub(crate) fn write_named<W: Write>(
    style: Style,
    name: &str,
    writer: &mut W,
) -> Result<(), io::Error>
    ensures { OnOk result (Appends (W.contents writer.old) (W.contents writer.new) (named style name.now)) }
{
    match style {
        Style::Words => write!(writer, " {name}"),
        Style::Json => write!(writer, ",\"{name}\""),
    }
}

pub(crate) fn write_token<W: Write>(
    style: Style,
    token: &OptionalName,
    writer: &mut W,
) -> Result<(), io::Error>
    ensures { OnOk result (Appends (W.contents writer.old) (W.contents writer.new) (token_text style token.now)) }
{
    match token.get() {
        Some(name) => write_name(style, name, writer),
        None => Ok(()),
    }
}

pub(crate) fn write_number<W: Write>(
    style: Style,
    number: i64,
    writer: &mut W,
) -> Result<(), io::Error>
    ensures { OnOk result (Appends (W.contents writer.old) (W.contents writer.new) (after style (signed_decimal number))) }
{
    let mark = mark(style);
    write!(writer, "{mark}{number}")
}

pub(crate) fn write_count<W: Write>(
    style: Style,
    count: u32,
    writer: &mut W,
) -> Result<(), io::Error>
    ensures { OnOk result (Appends (W.contents writer.old) (W.contents writer.new) (after style (decimal count))) }
{
    let mark = mark(style);
    write!(writer, "{mark}{count}")
}

pub(crate) fn write_quoted<W: Write>(
    style: Style,
    text: &Text,
    writer: &mut W,
) -> Result<(), io::Error>
    ensures { OnOk result (Appends (W.contents writer.old) (W.contents writer.new) (after style (quoted text.now))) }
{
    let mark = mark(style);
    let text = text.as_str();
    write!(writer, "{mark}\"{text}\"")
}

pub(crate) fn write_literal<W: Write>(
    style: Style,
    literal: &Literal,
    writer: &mut W,
) -> Result<(), io::Error>
    ensures { OnOk result (Appends (W.contents writer.old) (W.contents writer.new) (after style (literal_text literal.now))) }
{
    match literal {
        Literal::Undefined => write_plain(style, "null", writer),
        Literal::Boolean(true) => write_plain(style, "true", writer),
        Literal::Boolean(false) => write_plain(style, "false", writer),
        Literal::Number(n) => write_number(style, *n, writer),
        Literal::Text(t) => write_quoted(style, t, writer),
    }
}

fn write_plain<W: Write>(style: Style, text: &str, writer: &mut W) -> Result<(), io::Error>
    ensures { OnOk result (Appends (W.contents writer.old) (W.contents writer.new) (after style text.now)) }
{
    let mark = mark(style);
    write!(writer, "{mark}{text}")
}

/// What stands before an operand.
fn mark(style: Style) -> &'static str
    ensures { result.now ≡ mark_said style }
{
    match style {
        Style::Words => " ",
        Style::Json => ",",
    }
}
