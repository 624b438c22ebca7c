//! The columns of a row.

ghost use Rattle.std.specs.Prelude.{◌≡◌, ◌++◌, [], codes, decimal, IfOk, OnOk};
ghost use Rattle.std.specs.Io.KnownBytes.{Appends};
ghost use Rattle.es_trace.specs.Columns.{label, padded, row};

use es_value::Id;
use std::alloc::Global;
use std::io;
use std::io::Write;

/// How wide the column of events is, in bytes; a longer event pushes its answer to the right.
const EVENT_WIDTH: usize = 32;

/// How many bytes an event's text mostly has at most. A longer one takes memory once more.
const MOSTLY: usize = 64;

/// A name in a column that is so wide.
pub(crate) fn label_of(alloc: Global, name: &str, width: usize) -> Result<Vec<u8>, io::Error>
    ensures { IfOk result (λ l. l.items ≡ label width name.now) }
{
    let mut label = Vec::new(alloc);
    label.write_all(name.as_bytes())?;
    pad(&mut label, width)?;
    label.write_all(b"  ")?;
    Ok(label)
}

/// Fills a text up to a width.
fn pad(text: &mut Vec<u8>, width: usize) -> Result<(), io::Error>
    ensures { OnOk result (text.new.items ≡ padded width text.old.items) }
{
    if text.len() < width {
        text.resize(width, b' ')?;
    }
    Ok(())
}

/// An empty text with room for that of an event.
pub(crate) fn empty_text(alloc: Global) -> Result<Vec<u8>, io::Error>
    ensures { IfOk result (λ t. t.items ≡ []) }
{
    Ok(Vec::with_capacity(alloc, MOSTLY)?)
}

/// The text of a row that is about an object or a symbol: its number.
pub(crate) fn id_text(alloc: Global, id: Id) -> Result<Vec<u8>, io::Error>
    ensures { IfOk result (λ t. t.items ≡ codes "  " ++ decimal id) }
{
    let number = id.number();
    let mut text = empty_text(alloc)?;
    write!(text, "  {number}")?;
    Ok(text)
}

/// Writes a row up to its answer: the label, and the event with the blanks that lead to its answer, or with
/// the row's end where it has none.
pub(crate) fn write_row<W: Write>(
    label: &[u8],
    event: Vec<u8>,
    answered: bool,
    writer: &mut W,
) -> Result<(), io::Error>
    ensures { OnOk result (Appends (W.contents writer.old) (W.contents writer.new) (row label.now event.items answered)) }
{
    writer.write_all(label)?;
    if answered {
        write_padded(event, writer)
    } else {
        write_ended(event.as_slice(), writer)
    }
}

fn write_padded<W: Write>(mut event: Vec<u8>, writer: &mut W) -> Result<(), io::Error>
    ensures { OnOk result (Appends (W.contents writer.old) (W.contents writer.new) (padded 32 event.items ++ codes "  ")) }
{
    pad(&mut event, EVENT_WIDTH)?;
    writer.write_all(event.as_slice())?;
    writer.write_all(b"  ")
}

fn write_ended<W: Write>(event: &[u8], writer: &mut W) -> Result<(), io::Error>
    ensures { OnOk result (Appends (W.contents writer.old) (W.contents writer.new) (event.now ++ codes "\n")) }
{
    writer.write_all(event)?;
    writer.write_all(b"\n")
}
