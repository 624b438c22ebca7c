//! The ledger of an agent cluster.

ghost use Rattle.std.specs.Prelude.{◌≡◌, ◌<◌, ◌≤◌, ◌+◌, ◌^◌, ◌∷◌, [], ◌++◌, ◌↔◌, ℕ, Bool, List, IsTrue, IfOk, OnOk, OnErr, false, length, Some, slice_get, reverse, count_by, if◌then◌else◌};
ghost use Rattle.std.specs.List.{Contains};
ghost use Rattle.es_ticket.specs.Stakes.{StakeView, erase};
ghost use Rattle.es_event.specs.declared.row.Row.{Row};
ghost use Rattle.es_event.specs.Access.{change_by};
ghost use Rattle.es_event.specs.Rows.{row, held};
ghost use Rattle.es_event.specs.Ledger.{opened, serials, table, count, word as word_at, ended, holder_of};
ghost use Rattle.es_event.specs.LegalLedger.{LegalLedger};
ghost use Rattle.es_ledger.specs.Audits.{held_below};
ghost use Rattle.es_event.specs.declared.ledger_event.LedgerEvent.TheVariants.{Opened as OpenedEvent, Spent as SpentEvent, Accessed, Acted};
ghost use Rattle.es_event.specs.declared.ledger_event.Act.TheVariants.{Ended as EndedEvent};

use crate::blocks::Blocks;
use crate::ports::Ports;
use crate::waiters::leave;
use es_block::Block;
use es_event::{Act, Change, Edit, LedgerEvent, Log, Waiter};
use es_ticket::{LedgerName, Opened, Rows, Stake, Ticket};
use es_value::NoMemory;
use std::alloc::Global;
use std::marker::Model;

/// What the spending of a ticket did.
#[derive(Clone, Copy, Debug, PartialEq, Eq)]
pub struct Spent {
    /// It was the last ticket of its block: nobody holds one any more, and the block is released.
    pub released: bool,
}

/// The ledger of the run L: which blocks there are, who holds a ticket of which, which messages lie in
/// the ports, and its history. Its messages may hold tickets, so it can't be forgotten: it ends by
/// `drain` and `into_history`.
pub struct LedgerCore<L: LedgerName> {
    pub(crate) rows: Rows<L>,
    pub(crate) blocks: Blocks,
    // whether each agent ended
    pub(crate) ended: Vec<bool>,
    // for whose message each agent waits
    pub(crate) waits: Vec<Option<usize>>,
    // the WaiterLists: who sleeps and was not taken, in the order in which they began to
    pub(crate) waiters: Vec<Waiter>,
    // whether each agent sleeps
    pub(crate) asleep: Vec<bool>,
    pub(crate) ports: Ports<L>,
    pub(crate) history: Log<LedgerEvent>,
    pub(crate) alloc: Global,
}

impl<L: LedgerName> Model for LedgerCore<L> {
    ghost use Rattle.es_ledger.specs.LedgerView.{LedgerView};
    ghost use Rattle.es_ledger.specs.Ties.{LedgerTies};

    ghost Value = { LedgerView };

    ghost view = { λ c. record { agents = c.rows.agents; history = c.history.events } };

    ghost invariant = { λ c. LedgerTies c.rows.agents c.history.events (record { lines = c.rows.rows; blocks = c.blocks.all; ends = c.ended.items; waits = c.waits.items; listed = c.waiters.items; sleeping = c.asleep.items; queues = c.ports.queues; messages = c.ports.messages; places = c.history.room }) };
}

impl<L: LedgerName> LedgerCore<L> {
    /// The ledger of so many agents, and a stake for each, by rising number.
    pub fn new(
        alloc: Global,
        opened: Opened,
        agents: usize,
    ) -> Result<(LedgerCore<L>, Vec<Stake<L>>), NoMemory>
        requires name { opened ≡ L.table }
        requires few { agents < 9 }
        ensures ledger { IfOk result (λ r. (r.0.agents ≡ agents) × (r.0.history ≡ [])) }
        ensures stakes { IfOk result (λ r. length r.1.items ≡ agents) }
        ensures empty { IfOk result (λ r. (i : ℕ) (s : StakeView) → slice_get r.1.items i ≡ Some s → (s.agent ≡ i) × (s.rows ≡ [])) }
    {
        let mut stakes = Vec::with_capacity(alloc, agents)?;
        let mut ended = Vec::with_capacity(alloc, agents)?;
        let mut waits = Vec::with_capacity(alloc, agents)?;
        let mut asleep = Vec::with_capacity(alloc, agents)?;
        let waiters = Vec::with_capacity(alloc, agents)?;
        let mut history = Log::new(alloc);
        history.reserve(agents)?;
        let mut rows = opened.named::<L>(alloc);
        for _ in 0..agents {
            stakes.push_reserved(rows.deal());
            ended.push_reserved(false);
            waits.push_reserved(None);
            asleep.push_reserved(false);
        }
        let ports = Ports::new(alloc, agents)?;
        let ledger = LedgerCore {
            rows,
            blocks: Blocks::new(alloc),
            ended,
            waits,
            waiters,
            asleep,
            ports,
            history,
            alloc,
        };
        Ok((ledger, stakes))
    }

    /// Makes a block of so many words, each 0, and its first ticket, which the stake's agent holds.
    /// Where there is no memory nothing has changed.
    pub fn open_block(&mut self, stake: &mut Stake<L>, words: u32) -> Result<Ticket<L>, NoMemory>
        requires { stake.old.agent < self.old.agents }
        ensures ticket { IfOk result (λ t. t ≡ row (serials self.old.history + 1) (opened self.old.history + 1) words) }
        ensures history { IfOk result (λ t. self.new.history ≡ OpenedEvent t.block words t.serial stake.old.agent ∷ self.old.history) }
        ensures agents { self.new.agents ≡ self.old.agents }
        ensures stake { IfOk result (λ t. (stake.new.agent ≡ stake.old.agent) × (stake.new.rows ≡ stake.old.rows ++ t ∷ [])) }
        ensures err { OnErr result ((self.new ≡ self.old) × (stake.new ≡ stake.old)) }
    {
        let block = Block::new(self.alloc, words as usize)?;
        self.blocks.reserve()?;
        let agents = self.ended.as_slice().len();
        make_room(&mut self.history, &self.rows, &self.ports, agents, 2)?;
        let number = self.blocks.made() as u64 + 1;
        let ticket = self.rows.open(stake, number, words)?;
        self.blocks.push(block);
        self.history.append(LedgerEvent::Opened {
            block: number,
            words,
            serial: ticket.serial(),
            agent: stake.number(),
        });
        Ok(ticket)
    }

    /// Spends a ticket of the stake's agent. It takes no memory, and always succeeds.
    pub fn spend(&mut self, stake: &mut Stake<L>, ticket: Ticket<L>) -> Spent
        requires { Contains stake.old.rows ticket }
        ensures holder { holder_of self.old.history ticket.serial ≡ Some (stake.old.agent, ticket) }
        ensures history { (self.new.agents ≡ self.old.agents) × (self.new.history ≡ SpentEvent ticket.serial ∷ self.old.history) }
        ensures released { IsTrue result.released ↔ (count self.new.history ticket.block ≡ 0) }
        ensures stake { (stake.new.agent ≡ stake.old.agent) × (stake.new.rows ≡ erase ticket.serial stake.old.rows) }
        ensures place { (xs ys : List Row) → stake.old.rows ≡ xs ++ ticket ∷ ys → stake.new.rows ≡ xs ++ ys }
        ensures counts { (p : Row → Bool) → count_by p stake.old.rows ≡ count_by p stake.new.rows + (if p ticket then 1 else 0) }
    {
        let serial = ticket.serial();
        let block = ticket.block();
        self.rows.look(stake);
        self.rows.spend(stake, ticket);
        let released = self.blocks.lose(block);
        self.history.append(LedgerEvent::Spent { serial });
        Spent { released }
    }

    /// Changes nothing, and tells that the history is legal, that the stake's tickets are those that it
    /// says its agent holds, and that all agents' tickets can be counted.
    pub fn look(&mut self, stake: &mut Stake<L>)
        ensures same { (self.new ≡ self.old) × (stake.new ≡ stake.old) }
        ensures told { stake.old.rows ≡ held stake.old.agent (table self.old.history) }
        ensures holder { (r : Row) → Contains stake.old.rows r → holder_of self.old.history r.serial ≡ Some (stake.old.agent, r) }
        ensures legal { LegalLedger self.old.agents self.old.history }
        ensures few { held_below self.old.agents self.old.history < 2 ^ 63 }
    {
        // It tells that there are few.
        let _ = self.rows.made();
        self.rows.look(stake);
    }

    /// Does this to the word at an index through a ticket, and gives the word that was there (ECMA-262, The
    /// Atomics Object). Where there is no memory nothing has changed. The block is never found gone.
    pub fn edit(
        &mut self,
        stake: &mut Stake<L>,
        ticket: &Ticket<L>,
        index: usize,
        edit: Edit,
    ) -> Result<u32, NoMemory>
        requires here { Contains stake.old.rows ticket.now }
        requires inside { index < ticket.now.words }
        ensures word { IfOk result (λ w. w ≡ word_at self.old.history ticket.now.block index) }
        ensures history { IfOk result (λ w. (self.new.agents ≡ self.old.agents) × (self.new.history ≡ Accessed ticket.now.serial index (change_by edit w) w ∷ self.old.history)) }
        ensures there { 0 < count self.old.history ticket.now.block }
        ensures stake { stake.new ≡ stake.old }
        ensures err { OnErr result (self.new ≡ self.old) }
    {
        self.rows.look(stake);
        let agents = self.ended.as_slice().len();
        make_room(&mut self.history, &self.rows, &self.ports, agents, 1)?;
        let (old, change) = self.blocks.edit(ticket.block(), index, edit);
        self.history.append(LedgerEvent::Accessed {
            serial: ticket.serial(),
            index,
            change,
            old,
        });
        Ok(old)
    }

    /// Reads a word through a ticket (ECMA-262, Atomics.load), as `edit` does.
    pub fn load(
        &mut self,
        stake: &mut Stake<L>,
        ticket: &Ticket<L>,
        index: usize,
    ) -> Result<u32, NoMemory>
        requires here { Contains stake.old.rows ticket.now }
        requires inside { index < ticket.now.words }
        ensures word { IfOk result (λ w. w ≡ word_at self.old.history ticket.now.block index) }
        ensures history { IfOk result (λ w. (self.new.agents ≡ self.old.agents) × (self.new.history ≡ Accessed ticket.now.serial index Change.Keep w ∷ self.old.history)) }
        ensures there { 0 < count self.old.history ticket.now.block }
        ensures stake { stake.new ≡ stake.old }
        ensures err { OnErr result (self.new ≡ self.old) }
    {
        self.edit(stake, ticket, index, Edit::Plain(Change::Keep))
    }

    /// Writes a word through a ticket (ECMA-262, Atomics.store), as `edit` does.
    pub fn store(
        &mut self,
        stake: &mut Stake<L>,
        ticket: &Ticket<L>,
        index: usize,
        word: u32,
    ) -> Result<(), NoMemory>
        requires here { Contains stake.old.rows ticket.now }
        requires inside { index < ticket.now.words }
        ensures history { OnOk result ((self.new.agents ≡ self.old.agents) × (self.new.history ≡ Accessed ticket.now.serial index (Change.Write word) (word_at self.old.history ticket.now.block index) ∷ self.old.history)) }
        ensures there { 0 < count self.old.history ticket.now.block }
        ensures stake { stake.new ≡ stake.old }
        ensures err { OnErr result (self.new ≡ self.old) }
    {
        self.edit(stake, ticket, index, Edit::Plain(Change::Write(word)))?;
        Ok(())
    }

    /// Adds to a word through a ticket, modulo 2^32, and gives the word that was there (ECMA-262,
    /// Atomics.add), as `edit` does.
    pub fn add(
        &mut self,
        stake: &mut Stake<L>,
        ticket: &Ticket<L>,
        index: usize,
        addend: u32,
    ) -> Result<u32, NoMemory>
        requires here { Contains stake.old.rows ticket.now }
        requires inside { index < ticket.now.words }
        ensures word { IfOk result (λ w. w ≡ word_at self.old.history ticket.now.block index) }
        ensures history { IfOk result (λ w. (self.new.agents ≡ self.old.agents) × (self.new.history ≡ Accessed ticket.now.serial index (Change.Add addend) w ∷ self.old.history)) }
        ensures there { 0 < count self.old.history ticket.now.block }
        ensures stake { stake.new ≡ stake.old }
        ensures err { OnErr result (self.new ≡ self.old) }
    {
        self.edit(stake, ticket, index, Edit::Plain(Change::Add(addend)))
    }

    /// An agent that has not ended ends. It takes no memory.
    pub fn ended(&mut self, agent: usize)
        requires known { agent < self.old.agents }
        requires before { ended self.old.history agent ≡ false }
        ensures { (self.new.agents ≡ self.old.agents) × (self.new.history ≡ Acted agent EndedEvent ∷ self.old.history) }
    {
        leave(&mut self.waiters, agent);
        self.asleep[agent] = false;
        self.ended[agent] = true;
        self.history.append(LedgerEvent::Acted {
            agent,
            act: Act::Ended,
        });
    }

    /// How many agents there are.
    pub fn agents(&self) -> usize
        ensures { result ≡ self.now.agents }
    {
        self.ended.len()
    }

    /// Whether an agent ended.
    pub fn has_ended(&self, agent: usize) -> bool
        requires { agent < self.now.agents }
        ensures { result ≡ ended self.now.history agent }
    {
        self.ended[agent]
    }

    /// How many tickets of a block there are, 0 where it was not made.
    pub fn count(&self, block: u64) -> u64
        ensures { result ≡ count self.now.history block }
    {
        self.blocks.tickets(block)
    }

    /// What happened, the oldest first.
    pub fn history(&self) -> &[LedgerEvent]
        ensures value { reverse result.now ≡ self.now.history }
        ensures legal { LegalLedger self.now.agents self.now.history }
    {
        self.history.as_slice()
    }
}

// Makes room for so many more events, beside those that are to come at all events: the spending of
// each ticket, the end of each agent, of each wait and of each sleep, and the leaving of each message.
pub(crate) fn make_room<L: LedgerName>(
    history: &mut Log<LedgerEvent>,
    rows: &Rows<L>,
    ports: &Ports<L>,
    agents: usize,
    more: usize,
) -> Result<(), NoMemory>
    requires few { (agents < 9) × (more < 9) }
    ensures same { history.new.events ≡ history.old.events }
    ensures kept { history.old.room ≤ history.new.room }
    ensures lines { length rows.now.rows < 2 ^ 63 }
    ensures room { OnOk result (length rows.now.rows + agents + agents + agents + ports.now.messages + more ≤ history.new.room) }
{
    history.reserve(rows.made() + agents + agents + agents + ports.messages() + more)
}
