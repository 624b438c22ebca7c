//! The totals that a report has.

ghost use Rattle.std.specs.Prelude.{◌≡◌, ℕ, map, reverse, IfOk};
ghost use Rattle.es_event.specs.Ledger.{count};
ghost use Rattle.es_report.specs.Counts.{IsCountsOf};
ghost use Rattle.es_report.specs.Tallies.{AreTallies};
ghost use Rattle.es_report.specs.LedgerTotals.{told};

use crate::holding::released_back;
use crate::looking::tally_back;
use crate::totals::Totals;
use es_event::{Event, LedgerEvent, Outcome, Sequence};
use es_registry::Tally;
use es_value::NoMemory;
use std::alloc::Global;
use std::marker::Model;

/// The totals of one outcome's report: how many registrations of each agent have each fate, and how many
/// blocks and messages there were.
#[derive(Drop)]
pub struct Counts {
    tallies: Vec<Tally>,
    released: usize,
    totals: Totals,
}

impl Model for Counts {
    ghost use Rattle.es_report.specs.Counts.{CountsView};

    ghost Value = { CountsView };

    ghost view = { λ c. record {
      tallies = c.tallies.items;
      opened = c.totals.opened;
      released = c.released;
      posted = c.totals.posted;
      taken = c.totals.taken;
      drained = c.totals.drained;
    } };
}

impl Counts {
    /// Counts what the histories of an outcome say, by looking back as `write_report` does: its time grows with
    /// the square of an agent's history, and with the cube of the ledger's. A run that ends has its totals
    /// without that.
    pub fn of(alloc: Global, outcome: &Outcome) -> Result<Counts, NoMemory>
        ensures { IfOk result (λ c. IsCountsOf outcome.now c) }
    {
        let tallies = tallies_of(alloc, outcome.histories.as_slice())?;
        let events = outcome.ledger.as_slice();
        let totals = totals_of(events);
        let released = released_back(events, totals.opened);
        Ok(Counts {
            tallies,
            released,
            totals,
        })
    }

    /// The totals of an outcome of which the totals of registrations are known, and of which no ticket is
    /// left, so that each block was released. It takes no memory.
    pub fn of_ended(outcome: &Outcome, tallies: Vec<Tally>) -> Counts
        requires tallies { AreTallies outcome.now.histories tallies.items }
        requires none_left { (b : ℕ) → count (reverse outcome.now.ledger) b ≡ 0 }
        ensures { IsCountsOf outcome.now result }
    {
        let totals = totals_of(outcome.ledger.as_slice());
        Counts {
            tallies,
            released: totals.opened,
            totals,
        }
    }

    /// The totals of each agent's registrations, in the agents' order.
    pub fn tallies(&self) -> &[Tally]
        ensures { result.now ≡ self.now.tallies }
    {
        self.tallies.as_slice()
    }

    /// How many blocks were made.
    pub fn opened(&self) -> usize
        ensures { result ≡ self.now.opened }
    {
        self.totals.opened
    }

    /// How many of them were released.
    pub fn released(&self) -> usize
        ensures { result ≡ self.now.released }
    {
        self.released
    }

    /// How many messages were posted.
    pub fn posted(&self) -> usize
        ensures { result ≡ self.now.posted }
    {
        self.totals.posted
    }

    /// How many messages were taken.
    pub fn taken(&self) -> usize
        ensures { result ≡ self.now.taken }
    {
        self.totals.taken
    }

    /// How many messages were drained.
    pub fn drained(&self) -> usize
        ensures { result ≡ self.now.drained }
    {
        self.totals.drained
    }
}

fn tallies_of(alloc: Global, histories: &[Sequence<Event>]) -> Result<Vec<Tally>, NoMemory>
    ensures { IfOk result (λ ts. AreTallies histories.now ts.items) }
{
    let mut tallies = Vec::new(alloc);
    for history in histories {
        tallies.push(tally_back(history.as_slice()))?;
    }
    Ok(tallies)
}

/// The totals of a ledger's events, but for how many blocks were released.
pub(crate) fn totals_of(events: &[LedgerEvent]) -> Totals
    ensures { result ≡ told (reverse events.now) }
{
    let mut totals = Totals::zero();
    for event in events {
        totals = totals.with(event);
    }
    totals
}
