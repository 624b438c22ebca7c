//! Members of a line that more than one kind of line has.

ghost use Rattle.std.specs.Prelude.{◌≡◌, ◌++◌, codes, OnOk};
ghost use Rattle.std.specs.Io.KnownBytes.{Appends};
ghost use Rattle.es_value.specs.Printed.{quoted};
ghost use Rattle.es_trace.specs.Commands.{name_at as name_said};

use es_trace::name_at;
use es_value::Name;
use std::io;
use std::io::Write;

/// Writes the beginning of a line of the agent of this name.
pub(crate) fn begin_line<W: Write>(name: &Name, writer: &mut W) -> Result<(), io::Error>
    ensures { OnOk result (Appends (W.contents writer.old) (W.contents writer.new) (codes "{\"agent\":" ++ (quoted name.now ++ codes ","))) }
{
    let name = name.as_str();
    write!(writer, "{{\"agent\":\"{name}\",")
}

/// Writes a member whose value is the name of an agent, with the comma before it.
pub(crate) fn write_agent<W: Write>(
    key: &str,
    names: &[Name],
    agent: usize,
    writer: &mut W,
) -> Result<(), io::Error>
    ensures { OnOk result (Appends (W.contents writer.old) (W.contents writer.new) (codes ",\"" ++ (key.now ++ (codes "\":" ++ quoted (name_said names.now agent))))) }
{
    let name = name_at(names, agent);
    write!(writer, ",\"{key}\":\"{name}\"")
}
