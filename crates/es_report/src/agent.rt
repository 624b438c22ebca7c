//! The lines of one agent.

ghost use Rattle.std.specs.Prelude.{◌≡◌, ◌++◌, codes, decimal, reverse, OnOk};
ghost use Rattle.std.specs.List.{flat_map};
ghost use Rattle.std.specs.Io.KnownBytes.{Appends};
ghost use Rattle.es_event.specs.Report.{agent_text, line};
ghost use Rattle.es_report.specs.Tallies.{end_tally};

use crate::line::{has_line, write_line};
use es_event::{Event, Sequence};
use es_registry::Tally;
use es_value::Name;
use std::io;
use std::io::Write;

/// Writes an agent's lines: its name, its events, the oldest first, and what became of its
/// registrations.
pub(crate) fn write_agent<W: Write>(
    name: &Name,
    history: &Sequence<Event>,
    tally: &Tally,
    writer: &mut W,
) -> Result<(), io::Error>
    requires { tally.now ≡ end_tally (reverse history.now) }
    ensures { OnOk result (Appends (W.contents writer.old) (W.contents writer.new) (agent_text name.now history.now)) }
{
    write_events(name, history, writer)?;
    write_end(tally, writer)
}

fn write_events<W: Write>(
    name: &Name,
    history: &Sequence<Event>,
    writer: &mut W,
) -> Result<(), io::Error>
    ensures { OnOk result (Appends (W.contents writer.old) (W.contents writer.new) (codes "agent " ++ name.now ++ codes "\n" ++ flat_map line history.now)) }
{
    let name = name.as_str();
    writeln!(writer, "agent {name}")?;
    write_lines(history.as_slice(), writer)
}

/// Writes the lines of events, those that a report has of them.
pub fn write_lines<W: Write>(events: &[Event], writer: &mut W) -> Result<(), io::Error>
    ensures { OnOk result (Appends (W.contents writer.old) (W.contents writer.new) (flat_map line events.now)) }
{
    for event in events {
        // most have none, and a result is long
        if has_line(event) {
            write_line(event, writer)?;
        }
    }
    Ok(())
}

fn write_end<W: Write>(tally: &Tally, writer: &mut W) -> Result<(), io::Error>
    ensures { OnOk result (Appends (W.contents writer.old) (W.contents writer.new) (codes "end live " ++ decimal tally.now.live ++ codes " awaiting " ++ decimal tally.now.awaiting ++ codes " unregistered " ++ decimal tally.now.unregistered ++ codes " taken " ++ decimal tally.now.taken ++ codes "\n")) }
{
    let Tally {
        live,
        awaiting,
        unregistered,
        taken,
    } = *tally;
    writeln!(
        writer,
        "end live {live} awaiting {awaiting} unregistered {unregistered} taken {taken}"
    )
}
