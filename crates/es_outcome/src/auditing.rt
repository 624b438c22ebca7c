//! Audits of agents and their ledger.

ghost use Rattle.std.specs.Prelude.{◌≡◌, ℕ, Some, map, length, slice_get, IfOk};
ghost use Rattle.es_event.specs.Ledger.{table};
ghost use Rattle.es_event.specs.Rows.{held};
ghost use Rattle.es_ledger.specs.Audits.{held_below};
ghost use Rattle.es_record.specs.AgentView.{AgentView};
ghost use Rattle.es_cluster.specs.State.{cores};
ghost use Rattle.es_cluster.specs.Audits.{Audits};
ghost use Rattle.es_cluster.specs.Members.{rows_of, SameRows};
ghost use Rattle.es_outcome.specs.Places.{AreAtPlaces};

use es_cluster::{Audit, Member, Planned};
use es_ledger::LedgerCore;
use es_value::NoMemory;

/// All tickets of these agents, which are all of the ledger's, by rising number, none in mid-command. It
/// changes nothing.
pub fn audit_of<L: Planned>(
    members: &mut [&mut Member<L>],
    ledger: &mut LedgerCore<L>,
) -> Result<Audit, NoMemory>
    requires all { length members.old ≡ ledger.old.agents }
    requires placed { AreAtPlaces (cores (map (λ m. m.now) members.old)) }
    ensures audit { IfOk result (λ a. Audits (cores (map (λ m. m.now) members.old)) ledger.old a) }
    ensures members { map (λ m. m.now) members.new ≡ map (λ m. m.now) members.old }
    ensures ledger { ledger.new ≡ ledger.old }
{
    let in_agents = count_all(members, ledger);
    // It tells that the ledger's history is legal.
    let _ = ledger.history();
    ledger.audit(in_agents)
}

/// How many tickets all agents have. Those of each are the ones that the ledger has for it. Nothing
/// changes.
fn count_all<L: Planned>(members: &mut [&mut Member<L>], ledger: &mut LedgerCore<L>) -> u64
    requires all { length members.old ≡ ledger.old.agents }
    requires placed { AreAtPlaces (cores (map (λ m. m.now) members.old)) }
    ensures members { map (λ m. m.now) members.new ≡ map (λ m. m.now) members.old }
    ensures ledger { ledger.new ≡ ledger.old }
    ensures rows { (n : ℕ) (b : AgentView) → slice_get (cores (map (λ m. m.now) members.old)) n ≡ Some b → SameRows (rows_of b) (held n (table ledger.old.history)) }
    ensures count { result ≡ held_below (length members.old) ledger.old.history }
{
    let mut count = 0;
    for member in members.iter_mut() {
        let member: &mut Member<L> = member;
        count = member.count_with(ledger, count);
    }
    count
}
