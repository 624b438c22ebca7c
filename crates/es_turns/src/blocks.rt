//! Which blocks the ledger's events release.

ghost use Rattle.std.specs.Prelude.{◌≡◌, ◌+◌, ◌<◌, ◌≤◌, ◌^◌, [], ◌∷◌, ◌++◌, length, reverse, IfOk, OnOk, if◌then◌else◌};
ghost use Rattle.std.specs.List.{filter};
ghost use Rattle.std.specs.Option.{option_map_or};
ghost use Rattle.es_event.specs.Ledger.{Ledger, is_released as is_released_said, opens};
ghost use Rattle.es_trace.specs.Released.{released_by};
ghost use Rattle.es_turns.specs.Known.{Says};

use es_cluster::{ClusterCore, Planned};
use es_event::LedgerEvent;
use es_trace::TicketBlocks;
use es_value::NoMemory;
use std::alloc::Global;

/// What the ledger's events so far say of its blocks: which block each ticket is of, and how many were opened.
#[derive(Drop)]
pub(crate) struct Blocks {
    tickets: TicketBlocks,
    opened: u64,
}

impl Blocks {
    /// Before the first event; it takes no memory.
    pub(crate) fn new(alloc: Global) -> Blocks
        ensures { Says [] result }
    {
        Blocks {
            tickets: TicketBlocks::new(alloc),
            opened: 0,
        }
    }

    /// Notes the ledger's next events, the oldest first.
    pub(crate) fn note(&mut self, events: &[LedgerEvent]) -> Result<(), NoMemory>
        requires { self.old.opened + length events.now < 2 ^ 64 }
        ensures { OnOk result ((l : Ledger) → Says l self.old → Says (reverse events.now ++ l) self.new) }
    {
        for event in events {
            self.note_one(event)?;
        }
        Ok(())
    }

    /// Notes the ledger's next event.
    fn note_one(&mut self, event: &LedgerEvent) -> Result<(), NoMemory>
        requires { self.old.opened + 1 < 2 ^ 64 }
        ensures says { OnOk result ((l : Ledger) → Says l self.old → Says (event.now ∷ l) self.new) }
        ensures few { OnOk result (self.new.opened ≤ self.old.opened + 1) }
    {
        self.tickets.note(event)?;
        self.opened += blocks_opened(event);
        Ok(())
    }

    /// The blocks of which these events spent the last tickets. They are the newest of the cluster's ledger, and were
    /// noted.
    pub(crate) fn released<L: Planned>(
        &self,
        alloc: Global,
        events: &[LedgerEvent],
        cluster: &ClusterCore<L>,
    ) -> Result<Vec<u64>, NoMemory>
        requires { Says cluster.now.ledger.history self.now }
        ensures { IfOk result (λ blocks. blocks.items ≡ released_by cluster.now.ledger.history events.now) }
    {
        let spent = self.tickets.spent_blocks(alloc, events)?;
        self.released_of(alloc, spent.as_slice(), cluster)
    }

    /// Those of these blocks of which nobody holds a ticket any more.
    fn released_of<L: Planned>(
        &self,
        alloc: Global,
        blocks: &[u64],
        cluster: &ClusterCore<L>,
    ) -> Result<Vec<u64>, NoMemory>
        requires { Says cluster.now.ledger.history self.now }
        ensures { IfOk result (λ released. released.items ≡ filter (is_released_said cluster.now.ledger.history) blocks.now) }
    {
        let mut released = Vec::new(alloc);
        for block in blocks {
            let is = self.is_released(*block, cluster);
            push_if(&mut released, *block, is)?;
        }
        Ok(released)
    }

    /// Whether this block was opened, and nobody holds a ticket of it.
    fn is_released<L: Planned>(&self, block: u64, cluster: &ClusterCore<L>) -> bool
        requires { Says cluster.now.ledger.history self.now }
        ensures { result ≡ is_released_said cluster.now.ledger.history block }
    {
        (0 < block && block <= self.opened) && cluster.count(block) == 0
    }
}

/// How many blocks the event opens.
fn blocks_opened(event: &LedgerEvent) -> u64
    ensures number { result ≡ option_map_or (λ p. 1) (opens event.now) 0 }
    ensures few { result ≤ 1 }
{
    match event {
        LedgerEvent::Opened { .. } => 1,
        LedgerEvent::Posted { .. }
        | LedgerEvent::Taken { .. }
        | LedgerEvent::Spent { .. }
        | LedgerEvent::Accessed { .. }
        | LedgerEvent::Acted { .. }
        | LedgerEvent::Drained { .. } => 0,
    }
}

fn push_if(blocks: &mut Vec<u64>, block: u64, is: bool) -> Result<(), NoMemory>
    ensures { OnOk result (blocks.new.items ≡ blocks.old.items ++ (if is then block ∷ [] else [])) }
{
    if is {
        blocks.push(block)?;
    }
    Ok(())
}
