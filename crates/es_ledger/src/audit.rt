//! Audits: all tickets counted, by block and by holder.

ghost use Rattle.std.specs.Prelude.{◌≡◌, IfOk};
ghost use Rattle.es_ledger.specs.Audits.{IsAudit, held_below};

use crate::ledger::LedgerCore;
use es_event::Sequence;
use es_ticket::LedgerName;
use es_value::NoMemory;

/// All tickets of a cluster, counted at one moment.
#[derive(Drop)]
pub struct Audit {
    /// How many Shared Data Blocks were made.
    pub blocks: u64,
    /// How many of them are released.
    pub released: u64,
    /// How many tickets of each block there are, by number of block: that of block 1 first.
    pub counts: Sequence<u64>,
    /// How many tickets agents hold.
    pub in_agents: u64,
    /// How many tickets lie in messages that were not taken.
    pub in_ports: u64,
}

impl<L: LedgerName> LedgerCore<L> {
    /// The audit, where all agents together hold so many tickets. It changes nothing.
    pub fn audit(&self, in_agents: u64) -> Result<Audit, NoMemory>
        requires { in_agents ≡ held_below self.now.agents self.now.history }
        ensures { IfOk result (λ a. IsAudit self.now.agents self.now.history a) }
    {
        let blocks = self.blocks.made();
        let mut counts = Vec::with_capacity(self.alloc, blocks)?;
        let mut tickets = 0;
        let mut released = 0;
        // It tells that there are few, so that their sum fits.
        let _ = self.rows.made();
        for place in 0..blocks {
            let count = self.blocks.tickets(place as u64 + 1);
            counts.push_reserved(count);
            tickets += count;
            if count == 0 {
                released += 1;
            }
        }
        Ok(Audit {
            blocks: blocks as u64,
            released,
            counts: Sequence::from_vec(counts),
            in_agents,
            in_ports: tickets - in_agents,
        })
    }
}
