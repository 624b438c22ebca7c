//! What variables hold, and what KeptAlive has.

ghost use Rattle.std.specs.Prelude.{◌≡◌, codes, reverse, OnOk};
ghost use Rattle.std.specs.Io.KnownBytes.{Appends};
ghost use Rattle.std.specs.List.{flat_map};
ghost use Rattle.es_event.specs.WeakRefs.{kept as kept_said};
ghost use Rattle.es_why.specs.Lines.{kept_line, kept_lines, variable_lines};
ghost use Rattle.es_why.specs.Picture.{variable_at};

use es_record::AgentRecord;
use es_value::{Id, Name};
use std::io;
use std::io::Write;

/// Writes what the variables of these names hold.
pub(crate) fn write_variables<W: Write>(
    agent: &AgentRecord,
    names: &[Name],
    writer: &mut W,
) -> Result<(), io::Error>
    ensures { OnOk result (Appends (W.contents writer.old) (W.contents writer.new) (flat_map (variable_at agent.now) names.now)) }
{
    for name in names {
        write_variable_at(agent, name, writer)?;
    }
    Ok(())
}

fn write_variable_at<W: Write>(
    agent: &AgentRecord,
    name: &Name,
    writer: &mut W,
) -> Result<(), io::Error>
    ensures { OnOk result (Appends (W.contents writer.old) (W.contents writer.new) (variable_at agent.now name.now)) }
{
    match agent.value(name).identity() {
        Some(id) => write_variable(name, id, writer),
        None => Ok(()),
    }
}

fn write_variable<W: Write>(name: &Name, id: Id, writer: &mut W) -> Result<(), io::Error>
    ensures { OnOk result (Appends (W.contents writer.old) (W.contents writer.new) (variable_lines name.now id)) }
{
    let name = name.as_str();
    let number = id.number();
    write!(
        writer,
        "  \"var {name}\" [label=\"{name}\",shape=plaintext]\n  \"var {name}\" -> n{number}\n"
    )
}

/// Writes what KeptAlive has, in order of keeping.
pub(crate) fn write_kept<W: Write>(agent: &AgentRecord, writer: &mut W) -> Result<(), io::Error>
    ensures { OnOk result (Appends (W.contents writer.old) (W.contents writer.new) (kept_lines (reverse (kept_said agent.now.history)))) }
{
    write_kept_lines(agent.kept(), writer)
}

fn write_kept_lines<W: Write>(ids: &[Id], writer: &mut W) -> Result<(), io::Error>
    ensures { OnOk result (Appends (W.contents writer.old) (W.contents writer.new) (kept_lines ids.now)) }
{
    if ids.is_empty() {
        return Ok(());
    }
    writer.write_all(b"  KeptAlive [shape=plaintext]\n")?;
    write_kept_ids(ids, writer)
}

fn write_kept_ids<W: Write>(ids: &[Id], writer: &mut W) -> Result<(), io::Error>
    ensures { OnOk result (Appends (W.contents writer.old) (W.contents writer.new) (flat_map kept_line ids.now)) }
{
    for id in ids {
        write_kept_id(*id, writer)?;
    }
    Ok(())
}

fn write_kept_id<W: Write>(id: Id, writer: &mut W) -> Result<(), io::Error>
    ensures { OnOk result (Appends (W.contents writer.old) (W.contents writer.new) (kept_line id)) }
{
    let number = id.number();
    write!(writer, "  KeptAlive -> n{number}\n")
}
