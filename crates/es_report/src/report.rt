//! Whole reports.

ghost use Rattle.std.specs.Prelude.{OnOk};
ghost use Rattle.std.specs.Io.KnownBytes.{Appends};
ghost use Rattle.es_event.specs.Report.{agents_text, report};
ghost use Rattle.es_report.specs.Counts.{IsCountsOf};
ghost use Rattle.es_report.specs.Tallies.{AreTallies};

use crate::agent::write_agent;
use crate::cluster::{write_cluster, write_counts};
use crate::counts::Counts;
use crate::looking::tally_back;
use es_event::{Event, Outcome, Sequence};
use es_registry::Tally;
use es_value::Name;
use std::io;
use std::io::Write;

/// Writes the report of a run: the lines of each agent in the plan's order, and then the cluster's.
/// A name without a history, or a history without a name, has no lines.
///
/// It takes no memory and hands the writer one piece of a line after another. Where the writer
/// fails, it answers that error and writes nothing more.
///
/// The totals are counted by looking back: for each registration at all events of its agent, and for each
/// block, each ticket and each message with a ticket at all events of the ledger. So its time grows with
/// the square of a history, and with the cube of the ledger's. `write_report_counted` writes the same in a
/// time that grows with the histories, from the counts that a run ends with.
pub fn write_report<W: Write>(outcome: &Outcome, writer: &mut W) -> Result<(), io::Error>
    ensures { OnOk result (Appends (W.contents writer.old) (W.contents writer.new) (report outcome.now)) }
{
    write_all_agents(
        outcome.names.as_slice(),
        outcome.histories.as_slice(),
        writer,
    )?;
    write_cluster(&outcome.ledger, writer)
}

fn write_all_agents<W: Write>(
    names: &[Name],
    histories: &[Sequence<Event>],
    writer: &mut W,
) -> Result<(), io::Error>
    ensures { OnOk result (Appends (W.contents writer.old) (W.contents writer.new) (agents_text names.now histories.now)) }
{
    for (name, history) in names.iter().zip(histories) {
        let tally = tally_back(history.as_slice());
        write_agent(name, history, &tally, writer)?;
    }
    Ok(())
}

/// Writes the report of a run whose totals were counted before: the lines of each agent in the plan's order,
/// and then the cluster's. A name without a history, or a history without a name, has no lines.
///
/// It takes no memory and hands the writer one piece of a line after another. Where the writer
/// fails, it answers that error and writes nothing more.
pub fn write_report_counted<W: Write>(
    outcome: &Outcome,
    counts: &Counts,
    writer: &mut W,
) -> Result<(), io::Error>
    requires { IsCountsOf outcome.now counts.now }
    ensures { OnOk result (Appends (W.contents writer.old) (W.contents writer.new) (report outcome.now)) }
{
    write_agents(
        outcome.names.as_slice(),
        outcome.histories.as_slice(),
        counts.tallies(),
        writer,
    )?;
    write_counts(counts, writer)
}

fn write_agents<W: Write>(
    names: &[Name],
    histories: &[Sequence<Event>],
    tallies: &[Tally],
    writer: &mut W,
) -> Result<(), io::Error>
    requires { AreTallies histories.now tallies.now }
    ensures { OnOk result (Appends (W.contents writer.old) (W.contents writer.new) (agents_text names.now histories.now)) }
{
    for ((name, history), tally) in names.iter().zip(histories).zip(tallies) {
        write_agent(name, history, tally, writer)?;
    }
    Ok(())
}
