//! Edges from one object to what it holds, strongly or weakly.

ghost use Rattle.std.specs.Prelude.{Some, OnOk};
ghost use Rattle.std.specs.Io.KnownBytes.{Appends};
ghost use Rattle.es_why.specs.Lines.{entry_lines, held_line, key_line, map_line, point_line, property_line, target_line, value_line, weak_line};
ghost use Rattle.es_why.specs.Picture.{if_some};

use es_value::{Id, Name};
use std::io;
use std::io::Write;

/// Writes what a property of an object holds, if that has an identity.
pub(crate) fn write_property<W: Write>(
    object: Id,
    key: &Name,
    value: Option<Id>,
    writer: &mut W,
) -> Result<(), io::Error>
    ensures { OnOk result (Appends (W.contents writer.old) (W.contents writer.new) (if_some (property_line object key.now) value)) }
{
    match value {
        Some(value) => write_property_line(object, key, value, writer),
        None => Ok(()),
    }
}

fn write_property_line<W: Write>(
    object: Id,
    key: &Name,
    value: Id,
    writer: &mut W,
) -> Result<(), io::Error>
    ensures { OnOk result (Appends (W.contents writer.old) (W.contents writer.new) (property_line object key.now value)) }
{
    let object = object.number();
    let value = value.number();
    let key = key.as_str();
    write!(writer, "  n{object} -> n{value} [label=\"{key}\"]\n")
}

/// Writes the entry of a WeakMap under a key: a point to which both lead, and from which an edge leads to the
/// entry's value, if that has an identity.
pub(crate) fn write_entry<W: Write>(
    map: Id,
    key: Id,
    value: Option<Id>,
    writer: &mut W,
) -> Result<(), io::Error>
    ensures { OnOk result (Appends (W.contents writer.old) (W.contents writer.new) (entry_lines map key value)) }
{
    write_point(map, key, writer)?;
    write_map_line(map, key, writer)?;
    write_key_line(map, key, writer)?;
    write_value(map, key, value, writer)
}

fn write_point<W: Write>(map: Id, key: Id, writer: &mut W) -> Result<(), io::Error>
    ensures { OnOk result (Appends (W.contents writer.old) (W.contents writer.new) (point_line map key)) }
{
    let map = map.number();
    let key = key.number();
    write!(writer, "  e{map}_{key} [shape=point]\n")
}

fn write_map_line<W: Write>(map: Id, key: Id, writer: &mut W) -> Result<(), io::Error>
    ensures { OnOk result (Appends (W.contents writer.old) (W.contents writer.new) (map_line map key)) }
{
    let map = map.number();
    let key = key.number();
    write!(writer, "  n{map} -> e{map}_{key} [arrowhead=none]\n")
}

fn write_key_line<W: Write>(map: Id, key: Id, writer: &mut W) -> Result<(), io::Error>
    ensures { OnOk result (Appends (W.contents writer.old) (W.contents writer.new) (key_line map key)) }
{
    let map = map.number();
    let key = key.number();
    write!(
        writer,
        "  n{key} -> e{map}_{key} [arrowhead=none,style=dashed]\n"
    )
}

fn write_value<W: Write>(
    map: Id,
    key: Id,
    value: Option<Id>,
    writer: &mut W,
) -> Result<(), io::Error>
    ensures { OnOk result (Appends (W.contents writer.old) (W.contents writer.new) (value_line map key value)) }
{
    match value {
        Some(value) => write_value_line(map, key, value, writer),
        None => Ok(()),
    }
}

fn write_value_line<W: Write>(map: Id, key: Id, value: Id, writer: &mut W) -> Result<(), io::Error>
    ensures { OnOk result (Appends (W.contents writer.old) (W.contents writer.new) (value_line map key (Some value))) }
{
    let map = map.number();
    let key = key.number();
    let value = value.number();
    write!(writer, "  e{map}_{key} -> n{value}\n")
}

/// Writes what an object holds weakly: a WeakRef its target, a WeakSet its member.
pub(crate) fn write_weak<W: Write>(
    holder: Id,
    value: Option<Id>,
    writer: &mut W,
) -> Result<(), io::Error>
    ensures { OnOk result (Appends (W.contents writer.old) (W.contents writer.new) (if_some (weak_line holder) value)) }
{
    match value {
        Some(value) => write_weak_line(holder, value, writer),
        None => Ok(()),
    }
}

fn write_weak_line<W: Write>(holder: Id, value: Id, writer: &mut W) -> Result<(), io::Error>
    ensures { OnOk result (Appends (W.contents writer.old) (W.contents writer.new) (weak_line holder value)) }
{
    let holder = holder.number();
    let value = value.number();
    write!(writer, "  n{holder} -> n{value} [style=dashed]\n")
}

/// Writes the target of a registration, if it is not emptied.
pub(crate) fn write_target<W: Write>(
    registry: Id,
    registration: usize,
    target: Option<Id>,
    writer: &mut W,
) -> Result<(), io::Error>
    ensures { OnOk result (Appends (W.contents writer.old) (W.contents writer.new) (if_some (target_line registry registration) target)) }
{
    match target {
        Some(target) => write_target_line(registry, registration, target, writer),
        None => Ok(()),
    }
}

fn write_target_line<W: Write>(
    registry: Id,
    registration: usize,
    target: Id,
    writer: &mut W,
) -> Result<(), io::Error>
    ensures { OnOk result (Appends (W.contents writer.old) (W.contents writer.new) (target_line registry registration target)) }
{
    let registry = registry.number();
    let target = target.number();
    write!(
        writer,
        "  n{registry} -> n{target} [style=dashed,label=\"registration {registration}\"]\n"
    )
}

/// Writes the held value of a registration, if it has an identity.
pub(crate) fn write_held<W: Write>(
    registry: Id,
    registration: usize,
    held: Option<Id>,
    writer: &mut W,
) -> Result<(), io::Error>
    ensures { OnOk result (Appends (W.contents writer.old) (W.contents writer.new) (if_some (held_line registry registration) held)) }
{
    match held {
        Some(held) => write_held_line(registry, registration, held, writer),
        None => Ok(()),
    }
}

fn write_held_line<W: Write>(
    registry: Id,
    registration: usize,
    held: Id,
    writer: &mut W,
) -> Result<(), io::Error>
    ensures { OnOk result (Appends (W.contents writer.old) (W.contents writer.new) (held_line registry registration held)) }
{
    let registry = registry.number();
    let held = held.number();
    write!(
        writer,
        "  n{registry} -> n{held} [label=\"held {registration}\"]\n"
    )
}
