//! The tickets of a rack are spent.

ghost use Rattle.std.specs.Prelude.{◌≡◌, ◌+◌, Bool, count_by, map};
ghost use Rattle.es_event.specs.declared.ledger_event.LedgerEvent.TheVariants.{Spent};
ghost use Rattle.es_event.specs.declared.row.Row.{Row};
ghost use Rattle.es_ticket.specs.Owned.{Owns};
ghost use Rattle.es_cluster.specs.Tied.{AreDeedsOf};
ghost use Rattle.es_cluster.specs.Turned.{spent};

use es_ledger::LedgerCore;
use es_ticket::{LedgerName, Rack, Stake};
use std::sync::{Mutex, Wait};

/// Spends all tickets of a rack, the newest buffer object's first. It takes no memory.
pub(crate) fn spend_all<L: LedgerName>(
    ledger: &mut LedgerCore<L>,
    stake: &mut Stake<L>,
    mut rack: Rack<L>,
)
    requires { Owns stake.old.rows rack.tickets }
    ensures ledger { (ledger.new.agents ≡ ledger.old.agents) × (ledger.new.history ≡ spent rack.tickets ledger.old.history) }
    ensures agent { stake.new.agent ≡ stake.old.agent }
    ensures deeds { AreDeedsOf stake.old.agent (map (λ t. Spent t.1.serial) rack.tickets) ledger.old.history }
    ensures counts { (p : Row → Bool) → count_by p stake.old.rows ≡ count_by p stake.new.rows + count_by (λ t. p t.1) rack.tickets }
{
    for _place in 0..rack.len() {
        let Some(ticket) = rack.pop() else {
            unreachable!()
        };
        let _ = ledger.spend(stake, ticket);
    }
    rack.end();
}

/// Spends all tickets of a rack, as above, in a ledger that several agents share. Its lock is taken where there is a
/// ticket.
pub(crate) fn spend_shared<L: LedgerName, R: Wait>(
    rt: &R,
    ledger: &Mutex<LedgerCore<L>>,
    stake: &mut Stake<L>,
    rack: Rack<L>,
)
    requires { Owns stake.old.rows rack.tickets }
    ensures agent { stake.new.agent ≡ stake.old.agent }
    ensures counts { (p : Row → Bool) → count_by p stake.old.rows ≡ count_by p stake.new.rows + count_by (λ t. p t.1) rack.tickets }
{
    if rack.len() == 0 {
        rack.end();
        return;
    }
    let mut guard = ledger.lock(rt);
    let ledger: &mut LedgerCore<L> = &mut guard;
    spend_all(ledger, stake, rack);
}
