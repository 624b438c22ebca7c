//! The end of members and their ledger.

ghost use Rattle.std.specs.Prelude.{◌≡◌, ◌≤◌, ◌<◌, ℕ, [], true, length, vec_capacity};
ghost use Rattle.es_event.specs.Ledger.{ended};
ghost use Rattle.es_event.specs.LegalLedger.{all_ended};
ghost use Rattle.es_cluster.specs.Ends.{AreEnded, AreHistories, HaveNoTicket, with_end, with_ends};
ghost use Rattle.es_cluster.specs.State.{cores};

use crate::member::Member;
use crate::planned::Planned;
use es_event::{Event, Sequence};
use es_ledger::LedgerCore;

/// Gives members and the ledger of so many agents up: every ticket is spent, each agent counts as
/// ended, and the messages that are left are taken out. It takes no memory.
pub fn give_up<L: Planned>(mut members: Vec<Member<L>>, mut ledger: LedgerCore<L>, agents: usize)
    requires { ledger.agents ≡ agents }
{
    for _ in 0..members.len() {
        let Some(member) = members.pop() else {
            unreachable!()
        };
        member.abandon(&mut ledger);
    }
    members.destroy_empty();
    end_all(&mut ledger, agents);
    ledger.drain();
    let _ = ledger.into_history();
}

/// Each agent that has not ended ends. It takes no memory.
pub fn end_all<L: Planned>(ledger: &mut LedgerCore<L>, agents: usize)
    requires { ledger.old.agents ≡ agents }
    ensures over { (ledger.new.agents ≡ agents) × (all_ended ledger.new.history agents ≡ true) }
    ensures history { ledger.new.history ≡ with_ends agents ledger.old.history }
{
    for agent in 0..agents {
        end_agent(ledger, agent);
    }
}

fn end_agent<L: Planned>(ledger: &mut LedgerCore<L>, agent: usize)
    requires { agent < ledger.old.agents }
    ensures agents { ledger.new.agents ≡ ledger.old.agents }
    ensures history { ledger.new.history ≡ with_end agent ledger.old.history }
    ensures over { ended ledger.new.history agent ≡ true }
    ensures others { (n : ℕ) → all_ended ledger.old.history n ≡ true → all_ended ledger.new.history n ≡ true }
{
    if !ledger.has_ended(agent) {
        ledger.ended(agent);
    }
}

/// Whether all agents have ended.
pub(crate) fn all_have_ended<L: Planned>(ledger: &LedgerCore<L>, agents: usize) -> bool
    requires { ledger.now.agents ≡ agents }
    ensures { result ≡ all_ended ledger.now.history ledger.now.agents }
{
    for agent in 0..agents {
        if !ledger.has_ended(agent) {
            return false;
        }
    }
    true
}

/// Gives up agents that have closed for their histories, by rising number, for which there is place.
/// The ledger has no ticket of them. It takes no memory.
pub fn into_histories<L: Planned>(
    mut members: Vec<Member<L>>,
    ledger: &mut LedgerCore<L>,
    mut histories: Vec<Sequence<Event>>,
) -> Vec<Sequence<Event>>
    requires ended { AreEnded (cores members.items) }
    requires empty { histories.items ≡ [] }
    requires place { length members.items ≤ vec_capacity histories }
    ensures same { ledger.new ≡ ledger.old }
    ensures histories { AreHistories (cores members.items) result.items }
    ensures none { HaveNoTicket (cores members.items) ledger.old.history }
{
    members.reverse();
    for _ in 0..members.len() {
        let Some(member) = members.pop() else {
            unreachable!()
        };
        histories.push_reserved(member.into_history(ledger));
    }
    members.destroy_empty();
    histories
}
