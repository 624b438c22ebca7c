//! Which blocks the ledger's events release.

ghost use Rattle.std.specs.Prelude.{◌≡◌, ◌∷◌, [], ℕ, IfOk, OnOk, nat_eq, if◌then◌else◌};
ghost use Rattle.std.specs.HashMap.{get};
ghost use Rattle.std.specs.Option.{option_and_then};
ghost use Rattle.es_event.specs.Ledger.{Ledger};
ghost use Rattle.es_trace.specs.Released.{KnowsBlocks, block_of, spends, spent_blocks as spent_said, ticket_in as ticket_in_said, ticket_made as ticket_said, with_block};

use es_event::{Body, LedgerEvent};
use es_value::NoMemory;
use std::alloc::Global;
use std::collections::{HashMap, VecDeque};

/// Of which block each ticket is, by the ledger's events so far.
#[derive(Drop)]
pub struct TicketBlocks {
    /// For the serial of each ticket the number of its block.
    pub(crate) blocks: HashMap<u64, u64>,
}

impl TicketBlocks {
    /// Before the first event; it takes no memory.
    pub fn new(alloc: Global) -> TicketBlocks
        ensures { KnowsBlocks [] result }
    {
        TicketBlocks {
            blocks: HashMap::new(alloc),
        }
    }

    /// Notes the ledger's next event. It takes memory where the event makes a ticket, and fails where there is none.
    pub fn note(&mut self, event: &LedgerEvent) -> Result<(), NoMemory>
        ensures { OnOk result ((l : Ledger) → KnowsBlocks l self.old → KnowsBlocks (event.now ∷ l) self.new) }
    {
        match ticket_made(event) {
            Some((serial, block)) => set(&mut self.blocks, serial, block),
            None => Ok(()),
        }
    }

    /// The blocks of the tickets that these events spend, the oldest event first: each block once, where its last
    /// ticket of these is spent. The events were noted.
    ///
    /// It takes memory for the list, and fails where there is none.
    pub fn spent_blocks(&self, alloc: Global, events: &[LedgerEvent]) -> Result<Vec<u64>, NoMemory>
        ensures { IfOk result (λ bs. (l : Ledger) → KnowsBlocks l self.now → bs.items ≡ spent_said l events.now) }
    {
        let mut blocks = VecDeque::new(alloc);
        for place in (0..events.len()).rev() {
            let block = self.spent_block(&events[place]);
            add(&mut blocks, block)?;
        }
        Ok(blocks.into_vec())
    }

    /// The block of the ticket that the event spends.
    fn spent_block(&self, event: &LedgerEvent) -> Option<u64>
        ensures { (l : Ledger) → KnowsBlocks l self.now → result ≡ option_and_then (block_of l) (spends event.now) }
    {
        match event {
            LedgerEvent::Spent { serial } => self.blocks.get(serial).copied(),
            LedgerEvent::Opened { .. }
            | LedgerEvent::Posted { .. }
            | LedgerEvent::Taken { .. }
            | LedgerEvent::Accessed { .. }
            | LedgerEvent::Acted { .. }
            | LedgerEvent::Drained { .. } => None,
        }
    }
}

/// Sets what is known of a ticket.
fn set(blocks: &mut HashMap<u64, u64>, serial: u64, block: u64) -> Result<(), NoMemory>
    ensures { OnOk result ((s : ℕ) → get nat_eq blocks.new s ≡ (if nat_eq serial s then Some block else get nat_eq blocks.old s)) }
{
    blocks.insert(serial, block)?;
    Ok(())
}

/// Adds the block in front, if there is one and it is not among them.
fn add(blocks: &mut VecDeque<u64>, block: Option<u64>) -> Result<(), NoMemory>
    ensures { OnOk result (blocks.new.items ≡ with_block block blocks.old.items) }
{
    match block {
        Some(block) => add_first(blocks, block),
        None => Ok(()),
    }
}

fn add_first(blocks: &mut VecDeque<u64>, block: u64) -> Result<(), NoMemory>
    ensures { OnOk result (blocks.new.items ≡ with_block (Some block) blocks.old.items) }
{
    if !blocks.contains(&block) {
        blocks.push_front(block)?;
    }
    Ok(())
}

/// The serial of the ticket that the event makes, with its block.
fn ticket_made(event: &LedgerEvent) -> Option<(u64, u64)>
    ensures { result ≡ ticket_said event.now }
{
    match event {
        LedgerEvent::Opened { block, serial, .. } => Some((*serial, *block)),
        LedgerEvent::Posted { body, .. } => ticket_in(body),
        LedgerEvent::Taken { .. }
        | LedgerEvent::Spent { .. }
        | LedgerEvent::Accessed { .. }
        | LedgerEvent::Acted { .. }
        | LedgerEvent::Drained { .. } => None,
    }
}

/// The ticket of a message, with its block.
fn ticket_in(body: &Body) -> Option<(u64, u64)>
    ensures { result ≡ ticket_in_said body.now }
{
    match body {
        Body::Plain(_) => None,
        Body::Block { block, serial } => Some((*serial, *block)),
    }
}
