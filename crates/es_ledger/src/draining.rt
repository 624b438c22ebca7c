//! The end of a ledger: the messages that nobody took are taken out, and it is given up for its events.

ghost use Rattle.std.specs.Prelude.{◌≡◌, ◌<◌, ◌∷◌, [], ℕ, true, Some, reverse};
ghost use Rattle.es_event.specs.declared.ledger_event.Body.{Body as BodySort};
ghost use Rattle.es_event.specs.Ledger.{front, port_of};
ghost use Rattle.es_event.specs.LegalLedger.{LegalLedger, has_message, all_ended};
ghost use Rattle.es_ledger.specs.Draining.{drained_one, drained_each, drained_to, after_drain};

use crate::ledger::LedgerCore;
use crate::message::Letter;
use es_event::{LedgerEvent, Sequence};
use es_ticket::LedgerName;

impl<L: LedgerName> LedgerCore<L> {
    /// Takes out the messages that are left in all ports, by rising receiver, then by rising sender,
    /// then in order of posting, and spends their tickets. It takes no memory.
    pub fn drain(&mut self)
        requires { all_ended self.old.history self.old.agents ≡ true }
        ensures history { (self.new.agents ≡ self.old.agents) × (self.new.history ≡ after_drain self.old.history self.old.agents) }
        ensures empty { (s r : ℕ) → port_of self.new.history s r ≡ [] }
    {
        for receiver in 0..self.ended.len() {
            self.drain_to(receiver);
        }
    }

    /// Gives up the ledger, in which no message is left, for its events, the oldest first. It takes no
    /// memory.
    pub fn into_history(self) -> Sequence<LedgerEvent>
        requires { (s r : ℕ) → port_of self.history s r ≡ [] }
        ensures value { reverse result ≡ self.history }
        ensures legal { LegalLedger self.agents self.history }
    {
        let LedgerCore {
            rows: _,
            blocks: _,
            ended: _,
            waits: _,
            waiters: _,
            asleep: _,
            ports,
            history,
            alloc: _,
        } = self;
        ports.end();
        history.into_sequence()
    }

    // The messages to one receiver.
    fn drain_to(&mut self, receiver: usize)
        requires known { receiver < self.old.agents }
        requires over { all_ended self.old.history self.old.agents ≡ true }
        ensures agents { self.new.agents ≡ self.old.agents }
        ensures history { self.new.history ≡ drained_to self.old.history receiver self.old.agents }
        ensures over { all_ended self.new.history self.new.agents ≡ true }
    {
        for sender in 0..self.ended.len() {
            self.drain_port(sender, receiver);
        }
    }

    // The messages of one port.
    fn drain_port(&mut self, sender: usize, receiver: usize)
        requires known { (sender < self.old.agents) × (receiver < self.old.agents) }
        requires over { all_ended self.old.history self.old.agents ≡ true }
        ensures agents { self.new.agents ≡ self.old.agents }
        ensures history { self.new.history ≡ drained_each self.old.history sender receiver (port_of self.old.history sender receiver) }
        ensures over { all_ended self.new.history self.new.agents ≡ true }
    {
        while self.has_message(sender, receiver) {
            self.drain_one(sender, receiver);
        }
    }

    // The oldest message of a port that has one.
    fn drain_one(&mut self, sender: usize, receiver: usize)
        requires known { (sender < self.old.agents) × (receiver < self.old.agents) }
        requires over { all_ended self.old.history self.old.agents ≡ true }
        requires there { has_message self.old.history sender receiver ≡ true }
        ensures agents { self.new.agents ≡ self.old.agents }
        ensures history { (m : BodySort) → front self.old.history sender receiver ≡ Some m → self.new.history ≡ drained_one self.old.history sender receiver m }
    {
        let Some(letter) = self.ports.pop(sender, receiver) else {
            unreachable!()
        };
        self.history
            .append(LedgerEvent::Drained { sender, receiver });
        match letter {
            Letter::Plain(_) => (),
            Letter::Block(ticket) => {
                let (block, serial) = (ticket.block(), ticket.serial());
                self.rows.drain(sender, receiver, ticket);
                let _ = self.blocks.lose(block);
                self.history.append(LedgerEvent::Spent { serial });
            }
        }
    }
}
