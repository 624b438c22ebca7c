//! A command in JSON: the array that the plan has of it.

ghost use Rattle.std.specs.Prelude.{◌≡◌, OnOk};
ghost use Rattle.std.specs.Option.{option_copied};
ghost use Rattle.std.specs.Io.KnownBytes.{Appends};
ghost use Rattle.es_trace.specs.Commands.{command_json};
ghost use Rattle.es_trace_json.specs.Events.{command_if};

use es_event::{AgentPlan, Command};
use es_trace::{Style, write_command};
use es_value::Name;
use std::io;
use std::io::Write;

/// Writes a command of an agent with this plan.
pub(crate) fn write_array_of<W: Write>(
    command: &Command,
    names: &[Name],
    plan: &AgentPlan,
    writer: &mut W,
) -> Result<(), io::Error>
    ensures { OnOk result (Appends (W.contents writer.old) (W.contents writer.new) (command_json names.now plan.now command.now)) }
{
    write_command(Style::Json, command, names, plan, writer)?;
    writer.write_all(b"]")
}

/// Writes a command, or `null` where there is none.
pub(crate) fn write_if_any<W: Write>(
    command: Option<&Command>,
    names: &[Name],
    plan: &AgentPlan,
    writer: &mut W,
) -> Result<(), io::Error>
    ensures { OnOk result (Appends (W.contents writer.old) (W.contents writer.new) (command_if names.now plan.now (option_copied command.entry))) }
{
    match command {
        Some(command) => write_array_of(command, names, plan, writer),
        None => writer.write_all(b"null"),
    }
}
