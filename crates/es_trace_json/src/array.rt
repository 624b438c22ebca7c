//! Arrays of JSON.

ghost use Rattle.std.specs.Prelude.{◌≡◌, ◌++◌, codes, ℕ, List, OnOk, decimal};
ghost use Rattle.std.specs.List.{flat_map};
ghost use Rattle.std.specs.Io.KnownBytes.{Appends};
ghost use Rattle.es_value.specs.Printed.{quoted};
ghost use Rattle.es_trace_json.specs.Values.{array_json, further, value_json};

use crate::value::{write_quoted, write_value};
use es_value::{Id, Name, Value};
use std::io;
use std::io::Write;

/// What may stand in an array.
pub(crate) trait Item {
    /// Its text in JSON.
    ghost json: { Self → List ℕ };

    /// Writes it.
    fn write<W: Write>(&self, writer: &mut W) -> Result<(), io::Error>
        ensures { OnOk result (Appends (W.contents writer.old) (W.contents writer.new) (json self.now)) };
}

impl Item for Value {
    ghost json = { value_json };

    fn write<W: Write>(&self, writer: &mut W) -> Result<(), io::Error> {
        write_value(self, writer)
    }
}

/// An identity, by its number.
impl Item for Id {
    ghost json = { decimal };

    fn write<W: Write>(&self, writer: &mut W) -> Result<(), io::Error> {
        let number = self.number();
        write!(writer, "{number}")
    }
}

impl Item for Name {
    ghost json = { quoted };

    fn write<W: Write>(&self, writer: &mut W) -> Result<(), io::Error> {
        write_quoted(self.as_str(), writer)
    }
}

/// Writes the items between brackets, with commas and no blanks.
pub(crate) fn write_array<T: Item, W: Write>(items: &[T], writer: &mut W) -> Result<(), io::Error>
    ensures { OnOk result (Appends (W.contents writer.old) (W.contents writer.new) (array_json T.json items.now)) }
{
    match items {
        [] => writer.write_all(b"[]"),
        [first, rest @ ..] => write_some(first, rest, writer),
    }
}

fn write_some<T: Item, W: Write>(first: &T, rest: &[T], writer: &mut W) -> Result<(), io::Error>
    ensures { OnOk result (Appends (W.contents writer.old) (W.contents writer.new) (codes "[" ++ (T.json first.now ++ (flat_map (further T.json) rest.now ++ codes "]")))) }
{
    writer.write_all(b"[")?;
    first.write(writer)?;
    write_rest(rest, writer)?;
    writer.write_all(b"]")
}

fn write_rest<T: Item, W: Write>(items: &[T], writer: &mut W) -> Result<(), io::Error>
    ensures { OnOk result (Appends (W.contents writer.old) (W.contents writer.new) (flat_map (further T.json) items.now)) }
{
    for item in items {
        write_further(item, writer)?;
    }
    Ok(())
}

fn write_further<T: Item, W: Write>(item: &T, writer: &mut W) -> Result<(), io::Error>
    ensures { OnOk result (Appends (W.contents writer.old) (W.contents writer.new) (further T.json item.now)) }
{
    writer.write_all(b",")?;
    item.write(writer)
}
