//! The rows of what stays after a collection.

ghost use Rattle.std.specs.Prelude.{◌++◌, codes, decimal, OnOk};
ghost use Rattle.std.specs.Io.KnownBytes.{Appends};
ghost use Rattle.es_trace.specs.Kept.{kept_row, kept_rows, reason_text};

use crate::row::{id_text, write_row};
use es_mark::{Kept, Reason};
use es_value::{Id, Name};
use std::alloc::Global;
use std::io;
use std::io::Write;

/// Writes a row for each of the values, in their order.
pub(crate) fn write_kept_rows<W: Write>(
    alloc: Global,
    label: &[u8],
    kept: &[Kept],
    writer: &mut W,
) -> Result<(), io::Error>
    ensures { OnOk result (Appends (W.contents writer.old) (W.contents writer.new) (kept_rows label.now kept.now)) }
{
    for value in kept {
        write_kept_row(alloc, label, value, writer)?;
    }
    Ok(())
}

fn write_kept_row<W: Write>(
    alloc: Global,
    label: &[u8],
    kept: &Kept,
    writer: &mut W,
) -> Result<(), io::Error>
    ensures { OnOk result (Appends (W.contents writer.old) (W.contents writer.new) (kept_row label.now kept.now)) }
{
    let text = id_text(alloc, kept.value)?;
    write_row(label, text, true, writer)?;
    write_reason(&kept.reason, writer)?;
    writer.write_all(b"\n")
}

/// Writes what keeps a value.
fn write_reason<W: Write>(reason: &Reason, writer: &mut W) -> Result<(), io::Error>
    ensures { OnOk result (Appends (W.contents writer.old) (W.contents writer.new) (reason_text reason.now)) }
{
    match reason {
        Reason::Variable(name) => write_variable(name, writer),
        Reason::KeptAlive => writer.write_all(b"kept by KeptAlive"),
        Reason::Registry => writer.write_all(b"kept as a FinalizationRegistry"),
        Reason::Registration(number) => write!(writer, "kept by registration {number}"),
        Reason::Property(object, key) => write_property(*object, key, writer),
        Reason::Entry(map, key) => write_entry(*map, *key, writer),
    }
}

fn write_variable<W: Write>(name: &Name, writer: &mut W) -> Result<(), io::Error>
    ensures { OnOk result (Appends (W.contents writer.old) (W.contents writer.new) (codes "kept by variable " ++ name.now)) }
{
    let name = name.as_str();
    write!(writer, "kept by variable {name}")
}

fn write_property<W: Write>(object: Id, key: &Name, writer: &mut W) -> Result<(), io::Error>
    ensures { OnOk result (Appends (W.contents writer.old) (W.contents writer.new) (codes "kept by property " ++ (key.now ++ (codes " of " ++ decimal object)))) }
{
    let number = object.number();
    let key = key.as_str();
    write!(writer, "kept by property {key} of {number}")
}

fn write_entry<W: Write>(map: Id, key: Id, writer: &mut W) -> Result<(), io::Error>
    ensures { OnOk result (Appends (W.contents writer.old) (W.contents writer.new) (codes "kept by the entry of " ++ (decimal map ++ (codes " under " ++ decimal key)))) }
{
    let map = map.number();
    let key = key.number();
    write!(writer, "kept by the entry of {map} under {key}")
}
