//! Sleeping at a word, and taking those out who sleep (ECMA-262, Atomics.wait and Atomics.notify).

ghost use Rattle.std.specs.Prelude.{◌≡◌, ◌<◌, ◌∷◌, ◌==◌, false, true, None, IfOk, OnErr, if◌then◌else◌};
ghost use Rattle.std.specs.List.{Contains};
ghost use Rattle.es_event.specs.Ledger.{ended, waits, word as word_at};
ghost use Rattle.es_event.specs.Waiters.{asleep, is_listed, taken_there};
ghost use Rattle.es_event.specs.LegalLedger.{is_chosen};
ghost use Rattle.es_event.specs.declared.ledger_event.LedgerEvent.TheVariants.{Acted};
ghost use Rattle.es_event.specs.declared.ledger_event.Act.TheVariants.{Notified, Slept, TimedOut, Woke};
ghost use Rattle.es_ledger.specs.Sleeps.{laid_down, rested, roused};

use crate::ledger::{LedgerCore, make_room};
use crate::turn::Turn;
use crate::waiters::{has, leave, take_first};
use es_event::{Act, LedgerEvent, Waiter};
use es_ticket::{LedgerName, Stake, Ticket};
use es_value::NoMemory;

impl<L: LedgerName> LedgerCore<L> {
    /// Reads the word at an index through a ticket. Where it is this one, the stake's agent goes last into the WaiterList
    /// there, and sleeps: the answer is true. Else the answer is false. Where there is no memory nothing has changed.
    pub fn sleep(
        &mut self,
        stake: &mut Stake<L>,
        ticket: &Ticket<L>,
        index: usize,
        word: u32,
    ) -> Result<bool, NoMemory>
        requires here { Contains stake.old.rows ticket.now }
        requires inside { index < ticket.now.words }
        requires known { stake.old.agent < self.old.agents }
        requires going { (ended self.old.history stake.old.agent ≡ false) × (asleep self.old.history stake.old.agent ≡ false) × (waits self.old.history stake.old.agent ≡ None) }
        ensures told { IfOk result (λ b. (b, self.new.history) ≡ laid_down self.old.history stake.old.agent ticket.now index word) }
        ensures agents { IfOk result (λ b. self.new.agents ≡ self.old.agents) }
        ensures stake { stake.new ≡ stake.old }
        ensures err { OnErr result (self.new ≡ self.old) }
    {
        self.rows.look(stake);
        if self.blocks.word(ticket.block(), index) != word {
            self.load(stake, ticket, index)?;
            return Ok(false);
        }
        let agents = self.ended.as_slice().len();
        self.waiters.reserve(1)?;
        make_room(&mut self.history, &self.rows, &self.ports, agents, 2)?;
        let agent = stake.number();
        self.waiters.push_reserved(Waiter {
            agent,
            block: ticket.block(),
            index,
        });
        self.asleep[agent] = true;
        self.history.append(LedgerEvent::Acted {
            agent,
            act: Act::Slept {
                serial: ticket.serial(),
                index,
                word,
            },
        });
        Ok(true)
    }

    /// Asks to sleep at the word at an index through a ticket. Where the word is another one the answer is `None`. Else the
    /// stake's agent sleeps, and the answer says where its sleep stands (`await_word`); an agent that sleeps already
    /// begins no other sleep, and one that waits for a message is told to wait on. Where there is no memory nothing has
    /// changed.
    pub fn wait_at(
        &mut self,
        stake: &mut Stake<L>,
        ticket: &Ticket<L>,
        index: usize,
        word: u32,
    ) -> Result<Option<Turn>, NoMemory>
        requires here { Contains stake.old.rows ticket.now }
        requires inside { index < ticket.now.words }
        requires known { stake.old.agent < self.old.agents }
        requires going { ended self.old.history stake.old.agent ≡ false }
        ensures told { IfOk result (λ t. (t, self.new.history) ≡ rested self.old.history self.old.agents stake.old.agent ticket.now index word) }
        ensures agents { self.new.agents ≡ self.old.agents }
        ensures stake { stake.new ≡ stake.old }
        ensures err { OnErr result (self.new ≡ self.old) }
    {
        let agent = stake.number();
        if self.is_asleep(agent) {
            return Ok(Some(self.await_word(agent)));
        }
        if self.waits_for_message(agent) {
            return Ok(Some(Turn::Stay));
        }
        if !self.sleep(stake, ticket, index, word)? {
            return Ok(None);
        }
        Ok(Some(self.await_word(agent)))
    }

    /// Takes the first agents, so many at most, out of the WaiterList at an index through a ticket of the stake's agent,
    /// and answers how many they were. Where there is no memory nothing has changed.
    pub fn notify(
        &mut self,
        stake: &mut Stake<L>,
        ticket: &Ticket<L>,
        index: usize,
        count: u32,
    ) -> Result<u32, NoMemory>
        requires here { Contains stake.old.rows ticket.now }
        requires inside { index < ticket.now.words }
        ensures taken { IfOk result (λ k. k ≡ taken_there self.old.history ticket.now.block index count) }
        ensures history { IfOk result (λ k. (self.new.agents ≡ self.old.agents) × (self.new.history ≡ Acted stake.old.agent (Notified ticket.now.serial index count k) ∷ self.old.history)) }
        ensures stake { stake.new ≡ stake.old }
        ensures err { OnErr result (self.new ≡ self.old) }
    {
        self.rows.look(stake);
        let agents = self.ended.as_slice().len();
        make_room(&mut self.history, &self.rows, &self.ports, agents, 1)?;
        let count = count as usize;
        let taken = take_first(&mut self.waiters, ticket.block(), index, count);
        self.history.append(LedgerEvent::Acted {
            agent: stake.number(),
            act: Act::Notified {
                serial: ticket.serial(),
                index,
                count,
                taken,
            },
        });
        Ok(taken as u32)
    }

    /// Where the sleep of an agent stands that sleeps: it was taken, and goes on; or it sleeps on; or its time-out has
    /// passed, as no agent can go on and it has the lowest number of those that have not ended. It takes no memory.
    pub fn await_word(&mut self, agent: usize) -> Turn
        requires known { agent < self.old.agents }
        requires asleep { asleep self.old.history agent ≡ true }
        ensures told { (result, self.new.history) ≡ roused self.old.history self.old.agents agent }
        ensures agents { self.new.agents ≡ self.old.agents }
    {
        if !self.is_listed(agent) {
            self.wake(agent);
            Turn::Ready
        } else if self.is_chosen(agent) {
            self.time_out(agent);
            Turn::Skip
        } else {
            Turn::Stay
        }
    }

    /// Whether an agent sleeps: it began to, and has not gone on or ended since.
    pub fn is_asleep(&self, agent: usize) -> bool
        requires { agent < self.now.agents }
        ensures { result ≡ asleep self.now.history agent }
    {
        self.asleep[agent]
    }

    /// Whether an agent is in a WaiterList.
    pub(crate) fn is_listed(&self, agent: usize) -> bool
        ensures { result ≡ is_listed self.now.history agent }
    {
        has(self.waiters.as_slice(), agent)
    }

    // An agent that was taken sleeps no more.
    fn wake(&mut self, agent: usize)
        requires known { agent < self.old.agents }
        requires asleep { asleep self.old.history agent ≡ true }
        requires taken { is_listed self.old.history agent ≡ false }
        ensures { (self.new.agents ≡ self.old.agents) × (self.new.history ≡ Acted agent Woke ∷ self.old.history) }
    {
        self.asleep[agent] = false;
        self.history.append(LedgerEvent::Acted {
            agent,
            act: Act::Woke,
        });
    }

    // An agent whose time-out has passed leaves its WaiterList, and sleeps no more.
    fn time_out(&mut self, agent: usize)
        requires known { agent < self.old.agents }
        requires asleep { asleep self.old.history agent ≡ true }
        requires listed { is_listed self.old.history agent ≡ true }
        requires chosen { is_chosen self.old.history self.old.agents agent ≡ true }
        ensures { (self.new.agents ≡ self.old.agents) × (self.new.history ≡ Acted agent TimedOut ∷ self.old.history) }
    {
        leave(&mut self.waiters, agent);
        self.asleep[agent] = false;
        self.history.append(LedgerEvent::Acted {
            agent,
            act: Act::TimedOut,
        });
    }
}
