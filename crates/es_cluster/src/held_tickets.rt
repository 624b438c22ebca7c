//! An agent's tickets, counted for an audit.

ghost use Rattle.std.specs.Prelude.{◌≡◌, ◌+◌, ◌<◌};
ghost use Rattle.es_event.specs.Ledger.{table};
ghost use Rattle.es_event.specs.Rows.{held};
ghost use Rattle.es_ledger.specs.Audits.{held_below};
ghost use Rattle.es_cluster.specs.Members.{rows_of, SameRows};

use crate::member::Member;
use crate::planned::Planned;
use es_ledger::LedgerCore;

impl<L: Planned> Member<L> {
    /// How many tickets the agents up to this one have, where those before it have so many. Its own
    /// are those that the ledger has for it. Nothing changes.
    pub fn count_with(&mut self, ledger: &mut LedgerCore<L>, before: u64) -> u64
        requires known { self.old.core.number < ledger.old.agents }
        requires before { before ≡ held_below self.old.core.number ledger.old.history }
        ensures same { (self.new ≡ self.old) × (ledger.new ≡ ledger.old) }
        ensures rows { SameRows (rows_of self.old.core) (held self.old.core.number (table ledger.old.history)) }
        ensures count { result ≡ held_below (self.old.core.number + 1) ledger.old.history }
    {
        ledger.look(&mut self.stake);
        before + self.core.ticket_count() as u64
    }
}
