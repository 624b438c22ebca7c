//! The ports of a ledger: the messages that were posted and neither taken nor drained.

ghost use Rattle.std.specs.Prelude.{◌≡◌, ◌<◌, ◌≤◌, ◌+◌, ◌*◌, ◌^◌, ◌++◌, ◌∷◌, [], ℕ, length, slice_set, slice_index_or, option_to_list, drop, OnOk, OnErr, IfOk, IfNone, ◌==◌};
ghost use Rattle.es_ledger.specs.Ports.{queue_at, letters_at, no_queue, QueueView};

use crate::message::Letter;
use es_ticket::LedgerName;
use es_value::NoMemory;
use std::alloc::Global;
use std::collections::VecDeque;
use std::marker::Model;

/// The letters of one port, the oldest first. It is no `Drop` type, since a letter may hold a ticket.
pub(crate) struct Queue<L: LedgerName> {
    letters: VecDeque<Letter<L>>,
}

impl<L: LedgerName> Model for Queue<L> {
    ghost use Rattle.std.specs.Prelude.{◌-◌};
    ghost use Rattle.std.specs.VecDeque.{deque_len, deque_capacity};
    ghost use Rattle.es_ledger.specs.Ports.{QueueView};

    ghost Value = { QueueView L };

    ghost view = { λ q. record { letters = q.letters.items; room = deque_capacity q.letters - deque_len q.letters } };
}

impl<L: LedgerName> Queue<L> {
    fn new(alloc: Global) -> Queue<L>
        ensures { result.letters ≡ [] }
    {
        Queue {
            letters: VecDeque::new(alloc),
        }
    }

    fn reserve(&mut self) -> Result<(), NoMemory>
        ensures same { self.new.letters ≡ self.old.letters }
        ensures room { OnOk result (0 < self.new.room) }
    {
        self.letters.reserve(1)?;
        Ok(())
    }

    fn push(&mut self, letter: Letter<L>)
        requires { 0 < self.old.room }
        ensures { self.new.letters ≡ self.old.letters ++ letter ∷ [] }
    {
        self.letters.push_back_reserved(letter);
    }

    fn pop(&mut self) -> Option<Letter<L>>
        ensures some { self.old.letters ≡ option_to_list result ++ self.new.letters }
        ensures none { IfNone result (self.old.letters ≡ []) }
    {
        self.letters.pop_front()
    }

    fn is_empty(&self) -> bool
        ensures { result ≡ (length self.now.letters == 0) }
    {
        self.letters.is_empty()
    }

    fn end(self)
        requires { self.letters ≡ [] }
    {
        let Queue { letters } = self;
        letters.destroy_empty();
    }
}

/// The letters of all ports.
pub(crate) struct Ports<L: LedgerName> {
    // eight to a sender
    queues: Vec<Queue<L>>,
    messages: usize,
}

impl<L: LedgerName> Model for Ports<L> {
    ghost use Rattle.std.specs.Prelude.{◌≡◌, ◌≤◌, ◌^◌};
    ghost use Rattle.es_ledger.specs.Ports.{PortsView, total};

    ghost Value = { PortsView L };

    ghost view = { λ p. record { queues = p.queues.items; messages = p.messages } };

    ghost invariant = { λ p. (total p.queues.items ≡ p.messages) × (p.messages ≤ 2 ^ 62) };
}

impl<L: LedgerName> Ports<L> {
    /// Ports without letters.
    pub fn new(alloc: Global, agents: usize) -> Result<Ports<L>, NoMemory>
        requires { agents < 9 }
        ensures size { IfOk result (λ p. length p.queues ≡ agents * 8) }
        ensures none { IfOk result (λ p. p.messages ≡ 0) }
        ensures empty { IfOk result (λ p. (i : ℕ) → (slice_index_or p.queues i no_queue).letters ≡ []) }
    {
        let mut queues = Vec::with_capacity(alloc, agents * 8)?;
        for _ in 0..agents * 8 {
            queues.push_reserved(Queue::new(alloc));
        }
        Ok(Ports {
            queues,
            messages: 0,
        })
    }

    /// How many letters there are.
    pub fn messages(&self) -> usize
        ensures count { result ≡ self.now.messages }
        ensures small { result ≤ 2 ^ 62 }
    {
        self.messages
    }

    /// Makes room for one more letter of a port.
    pub fn reserve(&mut self, sender: usize, receiver: usize) -> Result<(), NoMemory>
        requires inside { (sender * 8 + receiver < length self.old.queues) × (sender < 8) × (receiver < 8) }
        ensures size { length self.new.queues ≡ length self.old.queues }
        ensures messages { self.new.messages ≡ self.old.messages }
        ensures same { (s r : ℕ) → letters_at self.new.queues s r ≡ letters_at self.old.queues s r }
        ensures room { OnOk result ((0 < (queue_at self.new.queues sender receiver).room) × (self.new.messages < 2 ^ 62)) }
    {
        if self.messages >= 1 << 62 {
            return Err(NoMemory);
        }
        self.queues[sender * 8 + receiver].reserve()
    }

    /// Puts a letter last into a port, for which there is room.
    pub fn push(&mut self, sender: usize, receiver: usize, letter: Letter<L>)
        requires inside { (sender * 8 + receiver < length self.old.queues) × (sender < 8) × (receiver < 8) }
        requires room { (0 < (queue_at self.old.queues sender receiver).room) × (self.old.messages < 2 ^ 62) }
        ensures size { length self.new.queues ≡ length self.old.queues }
        ensures messages { self.new.messages ≡ self.old.messages + 1 }
        ensures here { letters_at self.new.queues sender receiver ≡ letters_at self.old.queues sender receiver ++ letter ∷ [] }
        ensures others { (s r : ℕ) → r < 8 → (s ≡ sender → r ≡ receiver → ⊥) → letters_at self.new.queues s r ≡ letters_at self.old.queues s r }
    {
        self.queues[sender * 8 + receiver].push(letter);
        self.messages += 1;
    }

    /// Takes the oldest letter out of a port.
    pub fn pop(&mut self, sender: usize, receiver: usize) -> Option<Letter<L>>
        requires inside { (sender * 8 + receiver < length self.old.queues) × (sender < 8) × (receiver < 8) }
        ensures size { length self.new.queues ≡ length self.old.queues }
        ensures messages { self.old.messages ≡ length (option_to_list result) + self.new.messages }
        ensures here { letters_at self.old.queues sender receiver ≡ option_to_list result ++ letters_at self.new.queues sender receiver }
        ensures none { IfNone result (letters_at self.old.queues sender receiver ≡ []) }
        ensures others { (s r : ℕ) → r < 8 → (s ≡ sender → r ≡ receiver → ⊥) → letters_at self.new.queues s r ≡ letters_at self.old.queues s r }
    {
        let letter = self.queues[sender * 8 + receiver].pop();
        if letter.is_some() {
            self.messages -= 1;
        }
        letter
    }

    /// Whether a port has no letter.
    pub fn is_empty(&self, sender: usize, receiver: usize) -> bool
        requires inside { (sender * 8 + receiver < length self.now.queues) × (sender < 8) × (receiver < 8) }
        ensures { result ≡ (length (letters_at self.now.queues sender receiver) == 0) }
    {
        self.queues[sender * 8 + receiver].is_empty()
    }

    /// Ends ports without letters.
    pub fn end(self)
        requires { (i : ℕ) → (slice_index_or self.queues i no_queue).letters ≡ [] }
    {
        let Ports {
            mut queues,
            messages: _,
        } = self;
        for _ in 0..queues.len() {
            let Some(queue) = queues.pop() else {
                unreachable!()
            };
            queue.end();
        }
        queues.destroy_empty();
    }
}
