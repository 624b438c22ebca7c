//! Which agent holds a ticket, and of which block it is.

ghost use Rattle.std.specs.Prelude.{◌≡◌, ℕ, OnOk};
ghost use Rattle.std.specs.Option.{option_and_then};
ghost use Rattle.es_races.specs.Pass.{add_ticket, hand_some as handed_some, hand_ticket, held_with, ticket_in};

use crate::maps::put;
use es_value::NoMemory;
use std::collections::HashMap;

/// For each serial its ticket.
pub(crate) type Tickets = HashMap<u64, Ticket>;

/// A ticket of a block, and the agent that holds it, if one does.
#[derive(Clone, Copy)]
pub(crate) struct Ticket {
    pub block: u64,
    pub holder: Option<usize>,
}

/// Adds a ticket; where the serial has one, that one stays.
pub(crate) fn add(tickets: &mut Tickets, serial: u64, ticket: Ticket) -> Result<(), NoMemory>
    ensures { OnOk result ((q : ℕ) → ticket_in tickets.new q ≡ add_ticket serial ticket q (ticket_in tickets.old q)) }
{
    if tickets.contains_key(&serial) {
        return Ok(());
    }
    put(tickets, serial, ticket)
}

/// Hands the ticket of the serial, if there is one, to an agent, or to nobody.
pub(crate) fn hand(tickets: &mut Tickets, serial: u64, holder: Option<usize>)
    ensures { (q : ℕ) → ticket_in tickets.new q ≡ hand_ticket serial holder q (ticket_in tickets.old q) }
{
    if let Some(ticket) = tickets.get_mut(&serial) {
        ticket.holder = holder;
    }
}

/// Hands the ticket of a message, if it has one, to an agent.
pub(crate) fn hand_some(tickets: &mut Tickets, serial: Option<u64>, holder: Option<usize>)
    ensures { (q : ℕ) → ticket_in tickets.new q ≡ handed_some serial holder q (ticket_in tickets.old q) }
{
    if let Some(serial) = serial {
        hand(tickets, serial, holder);
    }
}

/// The agent that holds the ticket of the serial, and its block.
pub(crate) fn holder(tickets: &Tickets, serial: u64) -> Option<(usize, u64)>
    ensures { result ≡ option_and_then held_with (ticket_in tickets.now serial) }
{
    let ticket = tickets.get(&serial)?;
    let agent = ticket.holder?;
    Some((agent, ticket.block))
}
