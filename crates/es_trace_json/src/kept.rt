//! The lines of what stays after a collection, each value with what keeps it.

ghost use Rattle.std.specs.Prelude.{◌≡◌, ◌++◌, codes, decimal, OnOk};
ghost use Rattle.std.specs.Io.KnownBytes.{Appends};
ghost use Rattle.es_value.specs.Printed.{quoted};
ghost use Rattle.es_trace_json.specs.Kept.{kept_line, kept_lines, reason_json};

use crate::member::begin_line;
use es_mark::{Kept, Reason};
use es_value::{Id, Name};
use std::io;
use std::io::Write;

/// Writes the lines of what stays after a collection of the agent of this name.
///
/// It takes no memory. Where the writer fails, it answers that error; then a part of the lines may be written.
pub fn write_kept_lines<W: Write>(
    name: &Name,
    kept: &[Kept],
    writer: &mut W,
) -> Result<(), io::Error>
    ensures { OnOk result (Appends (W.contents writer.old) (W.contents writer.new) (kept_lines name.now kept.now)) }
{
    for value in kept {
        write_line(name, value, writer)?;
    }
    Ok(())
}

fn write_line<W: Write>(name: &Name, kept: &Kept, writer: &mut W) -> Result<(), io::Error>
    ensures { OnOk result (Appends (W.contents writer.old) (W.contents writer.new) (kept_line name.now kept.now)) }
{
    begin_line(name, writer)?;
    write_members(kept, writer)?;
    writer.write_all(b"}\n")
}

/// Writes the members that follow the agent's name.
fn write_members<W: Write>(kept: &Kept, writer: &mut W) -> Result<(), io::Error>
    ensures { OnOk result (Appends (W.contents writer.old) (W.contents writer.new) (codes "\"event\":\"kept\",\"identity\":" ++ (decimal kept.now.value ++ (codes ",\"by\":" ++ reason_json kept.now.reason)))) }
{
    write_identity(kept.value, writer)?;
    writer.write_all(b",\"by\":")?;
    write_reason(&kept.reason, writer)
}

fn write_identity<W: Write>(id: Id, writer: &mut W) -> Result<(), io::Error>
    ensures { OnOk result (Appends (W.contents writer.old) (W.contents writer.new) (codes "\"event\":\"kept\",\"identity\":" ++ decimal id)) }
{
    let number = id.number();
    write!(writer, "\"event\":\"kept\",\"identity\":{number}")
}

/// Writes what keeps a value.
fn write_reason<W: Write>(reason: &Reason, writer: &mut W) -> Result<(), io::Error>
    ensures { OnOk result (Appends (W.contents writer.old) (W.contents writer.new) (reason_json reason.now)) }
{
    match reason {
        Reason::Variable(name) => write_variable(name, writer),
        Reason::KeptAlive => writer.write_all(b"{\"keptalive\":true}"),
        Reason::Registry => writer.write_all(b"{\"registry\":true}"),
        Reason::Registration(number) => write_registration(*number, writer),
        Reason::Property(object, key) => write_property(*object, key, writer),
        Reason::Entry(map, key) => write_entry(*map, *key, writer),
    }
}

fn write_variable<W: Write>(name: &Name, writer: &mut W) -> Result<(), io::Error>
    ensures { OnOk result (Appends (W.contents writer.old) (W.contents writer.new) (codes "{\"variable\":" ++ (quoted name.now ++ codes "}"))) }
{
    let name = name.as_str();
    write!(writer, "{{\"variable\":\"{name}\"}}")
}

fn write_registration<W: Write>(number: usize, writer: &mut W) -> Result<(), io::Error>
    ensures { OnOk result (Appends (W.contents writer.old) (W.contents writer.new) (codes "{\"registration\":" ++ (decimal number ++ codes "}"))) }
{
    write!(writer, "{{\"registration\":{number}}}")
}

fn write_property<W: Write>(object: Id, key: &Name, writer: &mut W) -> Result<(), io::Error>
    ensures { OnOk result (Appends (W.contents writer.old) (W.contents writer.new) (codes "{\"object\":" ++ (decimal object ++ (codes ",\"property\":" ++ (quoted key.now ++ codes "}"))))) }
{
    let object = object.number();
    let key = key.as_str();
    write!(writer, "{{\"object\":{object},\"property\":\"{key}\"}}")
}

fn write_entry<W: Write>(map: Id, key: Id, writer: &mut W) -> Result<(), io::Error>
    ensures { OnOk result (Appends (W.contents writer.old) (W.contents writer.new) (codes "{\"weakmap\":" ++ (decimal map ++ (codes ",\"key\":" ++ (decimal key ++ codes "}"))))) }
{
    let map = map.number();
    let key = key.number();
    write!(writer, "{{\"weakmap\":{map},\"key\":{key}}}")
}
