//! Audits of a cluster.

ghost use Rattle.std.specs.Prelude.{◌≡◌, ℕ, Some, length, slice_get, IfOk};
ghost use Rattle.es_event.specs.Ledger.{table};
ghost use Rattle.es_event.specs.Rows.{held};
ghost use Rattle.es_ledger.specs.Audits.{held_below};
ghost use Rattle.es_record.specs.AgentView.{AgentView};
ghost use Rattle.es_cluster.specs.Audits.{Audits};
ghost use Rattle.es_cluster.specs.Members.{rows_of, SameRows};
ghost use Rattle.es_cluster.specs.State.{cores, ArePlaced};

use crate::cluster::ClusterCore;
use crate::member::Member;
use crate::planned::Planned;
use es_ledger::{Audit, LedgerCore};
use es_value::NoMemory;

/// How many tickets all agents have. Those of each are the ones that the ledger has for it. Nothing
/// changes.
fn count_all<L: Planned>(members: &mut Vec<Member<L>>, ledger: &mut LedgerCore<L>) -> u64
    requires placed { ArePlaced (cores members.old.items) ledger.old }
    ensures same { (members.new.items ≡ members.old.items) × (ledger.new ≡ ledger.old) }
    ensures rows { (n : ℕ) (b : AgentView) → slice_get (cores members.old.items) n ≡ Some b → SameRows (rows_of b) (held n (table ledger.old.history)) }
    ensures count { result ≡ held_below (length members.old.items) ledger.old.history }
{
    let mut count = 0;
    for agent in 0..members.len() {
        count = members[agent].count_with(ledger, count);
    }
    count
}

impl<L: Planned> ClusterCore<L> {
    /// All tickets, counted now. It changes nothing, whether a step failed or not.
    pub fn audit(&mut self) -> Result<Audit, NoMemory>
        ensures audit { IfOk result (λ a. Audits self.old.agents self.old.ledger a) }
        ensures same { self.new ≡ self.old }
    {
        // It tells that the ledger's history is legal.
        let _ = self.ledger.history();
        let in_agents = count_all(&mut self.members, &mut self.ledger);
        self.ledger.audit(in_agents)
    }
}
