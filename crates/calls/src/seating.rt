//! The agents get their stakes, and are given up.

ghost use Rattle.std.specs.Prelude.{◌≡◌, []};

use crate::player::Player;
use es_agent::AgentCore;
use es_event::AgentPlan;
use es_ledger::LedgerCore;
use es_ticket::{LedgerName, Stake};
use std::alloc::Global;

/// The agents with these plans, by rising number, each with the stake of its number; where there is no
/// memory, those that there are.
pub(crate) fn seat_all<L: LedgerName>(
    alloc: Global,
    plans: Vec<AgentPlan>,
    mut stakes: Vec<Stake<L>>,
    ledger: &mut LedgerCore<L>,
) -> Result<Vec<Player<L>>, Vec<Player<L>>>
    requires { ledger.old.history ≡ [] }
    ensures { ledger.new.agents ≡ ledger.old.agents }
{
    let count = plans.len();
    let mut players = Vec::new(alloc);
    stakes.reverse();
    for plan in plans {
        let Some(mut stake) = stakes.pop() else {
            return Err(players);
        };
        ledger.look(&mut stake);
        let Ok(core) = AgentCore::new(alloc, plan, players.len(), count) else {
            return Err(players);
        };
        let Some(player) = Player::new(core, stake) else {
            return Err(players);
        };
        if let Err(failed) = players.push(player) {
            let player = failed.value;
            player.abandon(ledger);
            return Err(players);
        }
    }
    Ok(players)
}

/// Gives agents up: all their tickets are spent. It takes no memory.
pub(crate) fn give_up<L: LedgerName>(mut players: Vec<Player<L>>, ledger: &mut LedgerCore<L>)
    ensures { ledger.new.agents ≡ ledger.old.agents }
{
    for _ in 0..players.len() {
        let Some(player) = players.pop() else {
            unreachable!()
        };
        player.abandon(ledger);
    }
    players.destroy_empty();
}
