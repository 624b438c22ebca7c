//! The lines of the cluster.

ghost use Rattle.std.specs.Prelude.{reverse, OnOk};
ghost use Rattle.std.specs.Io.KnownBytes.{Appends};
ghost use Rattle.es_event.specs.Report.{cluster_text};
ghost use Rattle.es_report.specs.Totals.{counts_text, totals_text};

use crate::counts::{Counts, totals_of};
use crate::holding::released_back;
use crate::totals::Totals;
use es_event::{LedgerEvent, Sequence};
use std::io;
use std::io::Write;

/// Writes the cluster's lines from the ledger's events, the oldest first.
pub(crate) fn write_cluster<W: Write>(
    ledger: &Sequence<LedgerEvent>,
    writer: &mut W,
) -> Result<(), io::Error>
    ensures { OnOk result (Appends (W.contents writer.old) (W.contents writer.new) (cluster_text (reverse ledger.now))) }
{
    let events = ledger.as_slice();
    let totals = totals_of(events);
    let released = released_back(events, totals.opened);
    write_totals(&totals, released, writer)
}

/// Writes the cluster's lines from its totals, and from how many blocks were released.
fn write_totals<W: Write>(totals: &Totals, released: usize, writer: &mut W) -> Result<(), io::Error>
    ensures { OnOk result (Appends (W.contents writer.old) (W.contents writer.new) (totals_text totals.now released)) }
{
    let Totals {
        opened,
        posted,
        taken,
        drained,
    } = *totals;
    writeln!(
        writer,
        "cluster\n\
         blocks {opened} released {released}\n\
         messages posted {posted} taken {taken} drained {drained}"
    )
}

/// Writes the cluster's lines from counts.
pub(crate) fn write_counts<W: Write>(counts: &Counts, writer: &mut W) -> Result<(), io::Error>
    ensures { OnOk result (Appends (W.contents writer.old) (W.contents writer.new) (counts_text counts.now)) }
{
    let totals = Totals {
        opened: counts.opened(),
        posted: counts.posted(),
        taken: counts.taken(),
        drained: counts.drained(),
    };
    write_totals(&totals, counts.released(), writer)
}
