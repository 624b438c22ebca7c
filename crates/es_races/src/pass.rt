//! One pass over a ledger's history.

ghost use Rattle.std.specs.Prelude.{◌≡◌, ℕ, [], IfOk, OnOk};
ghost use Rattle.es_event.specs.Ledger.{serial_in};
ghost use Rattle.es_event.specs.declared.ledger_event.LedgerEvent.TheVariants.{Accessed, Drained, Opened, Posted, Spent, Taken};
ghost use Rattle.es_races.specs.Pass.{Accesses, Finds, Leaves, Says, add_posted as posted_ticket, ticket_in};

use crate::clock::{AGENTS, Clock, clock_of, set_clock};
use crate::maps::put;
use crate::ports::{self, Message, Ports};
use crate::race::{Mark, Race};
use crate::tickets::{self, Ticket, Tickets};
use crate::words::{self, Words};
use es_event::{Body, Change, LedgerEvent};
use es_value::NoMemory;
use std::alloc::Global;
use std::collections::HashMap;

/// What is kept of the events so far.
#[derive(Drop)]
pub(crate) struct Pass {
    alloc: Global,
    tickets: Tickets,
    ports: Ports,
    words: Words,
    /// How many accesses of each other each agent knows, and how many it made.
    known: [Clock; AGENTS],
}

impl Pass {
    /// Before the first event; it takes no memory.
    pub fn new(alloc: Global) -> Pass
        ensures { Says [] result }
    {
        Pass {
            alloc,
            tickets: HashMap::new(alloc),
            ports: HashMap::new(alloc),
            words: HashMap::new(alloc),
            known: [Clock::new(); AGENTS],
        }
    }

    /// Notes the next event, and gives a race of its access with an earlier one, if there is one.
    pub fn note(&mut self, event: &LedgerEvent) -> Result<Option<Race>, NoMemory>
        ensures { IfOk result (Finds event.now self.old self.new) }
    {
        match event {
            LedgerEvent::Opened {
                block,
                serial,
                agent,
                ..
            } => self.note_opened(*block, *serial, *agent)?,
            LedgerEvent::Posted {
                sender,
                receiver,
                body,
            } => self.note_posted(*sender, *receiver, body)?,
            LedgerEvent::Taken { sender, receiver } => self.note_taken(*sender, *receiver),
            LedgerEvent::Spent { serial } => tickets::hand(&mut self.tickets, *serial, None),
            LedgerEvent::Drained { sender, receiver } => {
                let _ = ports::take(&mut self.ports, *sender, *receiver);
            }
            LedgerEvent::Accessed {
                serial,
                index,
                change,
                ..
            } => return self.note_accessed(*serial, *index, change),
            LedgerEvent::Acted { .. } => {}
        }
        Ok(None)
    }

    /// Notes that an agent made a block and its first ticket.
    fn note_opened(&mut self, block: u64, serial: u64, agent: usize) -> Result<(), NoMemory>
        ensures { OnOk result ((w : ℕ) → Leaves (Opened block w serial agent) self.old self.new) }
    {
        let ticket = Ticket {
            block,
            holder: Some(agent),
        };
        tickets::add(&mut self.tickets, serial, ticket)
    }

    /// Notes a message, with what its sender knows.
    fn note_posted(&mut self, sender: usize, receiver: usize, body: &Body) -> Result<(), NoMemory>
        ensures { OnOk result (Leaves (Posted sender receiver body.now) self.old self.new) }
    {
        let clock = clock_of(&self.known, sender);
        let serial = add_posted(&mut self.tickets, body)?;
        let message = Message { clock, serial };
        ports::post(self.alloc, &mut self.ports, sender, receiver, message)
    }

    /// Notes a receipt: the receiver knows what the sender knew.
    fn note_taken(&mut self, sender: usize, receiver: usize)
        ensures { Leaves (Taken sender receiver) self.old self.new }
    {
        let Some(message) = ports::take(&mut self.ports, sender, receiver) else {
            return;
        };
        let mut clock = clock_of(&self.known, receiver);
        clock.join(&message.clock);
        set_clock(&mut self.known, receiver, clock);
        tickets::hand_some(&mut self.tickets, message.serial, Some(receiver));
    }

    /// Notes an access through a ticket.
    fn note_accessed(
        &mut self,
        serial: u64,
        index: usize,
        change: &Change,
    ) -> Result<Option<Race>, NoMemory>
        ensures { IfOk result (λ found. (old : ℕ) → Finds (Accessed serial index change.now old) self.old self.new found) }
    {
        let Some((agent, block)) = tickets::holder(&self.tickets, serial) else {
            return Ok(None);
        };
        self.access(agent, block, index, words::is_write(change))
    }

    /// Notes an access of an agent to a word of a block.
    fn access(
        &mut self,
        agent: usize,
        block: u64,
        index: usize,
        writes: bool,
    ) -> Result<Option<Race>, NoMemory>
        ensures { IfOk result (Accesses agent block index writes self.old self.new) }
    {
        let mut clock = clock_of(&self.known, agent);
        let number = clock.count(agent);
        let mut word = words::word_at(&self.words, block, index);
        if let Some(earlier) = words::unknown(word.newest(writes), &clock, agent) {
            let later = Mark { agent, number };
            return Ok(Some(Race { earlier, later }));
        }
        let count = number.saturating_add(1);
        word.note(agent, count, writes);
        put(&mut self.words, (block, index), word)?;
        clock.raise(agent, count);
        set_clock(&mut self.known, agent, clock);
        Ok(None)
    }
}

/// Notes the ticket of a message, if it has one, and gives its serial.
fn add_posted(tickets: &mut Tickets, body: &Body) -> Result<Option<u64>, NoMemory>
    ensures serial { IfOk result (λ s. s ≡ serial_in body.now) }
    ensures added { OnOk result ((q : ℕ) → ticket_in tickets.new q ≡ posted_ticket body.now q (ticket_in tickets.old q)) }
{
    match body {
        Body::Plain(_) => Ok(None),
        Body::Block { block, serial } => {
            let ticket = Ticket {
                block: *block,
                holder: None,
            };
            tickets::add(tickets, *serial, ticket)?;
            Ok(Some(*serial))
        }
    }
}
