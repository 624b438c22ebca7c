//! Which blocks a ticket is left of, by looking back at a ledger's events: no memory is taken.

ghost use Rattle.std.specs.Prelude.{◌≡◌, ◌+◌, ◌<◌, ◌^◌, reverse, if◌then◌else◌};
ghost use Rattle.es_event.specs.Ledger.{opened as opened_said, table};
ghost use Rattle.es_event.specs.Totals.{released as released_said};
ghost use Rattle.es_report.specs.Holding.{Traced, left as left_said, makes, makes_it, makes_left, moved_by, moved_to, ticket_of, with_ticket as with_ticket_said};

use crate::looking::either;
use crate::ports::front;
use es_event::{Body, LedgerEvent};

/// What events said so far of the tickets of one serial and one block: whether there are any, and
/// whether somebody holds one.
#[derive(Clone, Copy)]
struct Trace {
    any: bool,
    held: bool,
}

/// How many blocks were released, of so many that were opened, by a ledger's events, the oldest first. It
/// looks at all events for each block, for each ticket, and for each message with a ticket, so its time
/// may grow with the cube of the ledger's history.
pub(crate) fn released_back(events: &[LedgerEvent], opened: usize) -> usize
    requires { opened ≡ opened_said (reverse events.now) }
    ensures { result ≡ released_said (reverse events.now) }
{
    let mut released = 0;
    for place in 0..opened {
        released = more_if(released, !is_left(events, place as u64 + 1));
    }
    released
}

/// One more, if that is wanted.
fn more_if(count: usize, wanted: bool) -> usize
    requires { count + 1 < 2 ^ 64 }
    ensures { result ≡ count + (if wanted then 1 else 0) }
{
    if wanted { count + 1 } else { count }
}

/// Whether a ticket of the block is left.
fn is_left(events: &[LedgerEvent], block: u64) -> bool
    ensures { result ≡ left_said (table (reverse events.now)) block }
{
    let mut left = false;
    for event in events {
        left = either(makes_one_left(events, event, block), left);
    }
    left
}

/// Whether the event makes a ticket of the block, and somebody holds one of its serial in the end.
fn makes_one_left(events: &[LedgerEvent], event: &LedgerEvent, block: u64) -> bool
    ensures { result ≡ makes_left (table (reverse events.now)) block event.now }
{
    match made_by(event) {
        Some((serial, of)) => of == block && trace_of(events, serial, block).held,
        None => false,
    }
}

/// The serial and the block of the ticket that the event makes, if it makes one.
fn made_by(event: &LedgerEvent) -> Option<(u64, u64)>
    ensures { result ≡ makes event.now }
{
    match event {
        LedgerEvent::Opened { block, serial, .. } => Some((*serial, *block)),
        LedgerEvent::Posted { body, .. } => ticket_in(body),
        LedgerEvent::Taken { .. }
        | LedgerEvent::Drained { .. }
        | LedgerEvent::Spent { .. }
        | LedgerEvent::Accessed { .. }
        | LedgerEvent::Acted { .. } => None,
    }
}

fn ticket_in(body: &Body) -> Option<(u64, u64)>
    ensures { result ≡ ticket_of body.now }
{
    match body {
        Body::Plain(_) => None,
        Body::Block { block, serial } => Some((*serial, *block)),
    }
}

/// What all events say of the tickets of the serial and the block.
fn trace_of(events: &[LedgerEvent], serial: u64, block: u64) -> Trace
    ensures { Traced serial block (reverse events.now) result }
{
    let mut traced = Trace {
        any: false,
        held: false,
    };
    for place in 0..events.len() {
        let event = &events[place];
        let made = with_made(traced, event, serial, block);
        traced = with_moved(made, &events[..place], event, serial);
    }
    traced
}

/// With the ticket that the event makes.
fn with_made(traced: Trace, event: &LedgerEvent, serial: u64, block: u64) -> Trace
    ensures { result ≡ with_ticket_said traced (makes_it serial block event.now) }
{
    let here = match made_by(event) {
        Some((made, of)) => made == serial && of == block,
        None => false,
    };
    Trace {
        any: either(traced.any, here),
        held: either(traced.held, here),
    }
}

/// After the event moved a ticket, if it moves one; these events came before it.
fn with_moved(traced: Trace, before: &[LedgerEvent], event: &LedgerEvent, serial: u64) -> Trace
    ensures { result ≡ moved_by (reverse before.now) traced serial event.now }
{
    match event {
        LedgerEvent::Taken { sender, receiver } => match front(before, *sender, *receiver) {
            Some(taken) => moved(traced, taken == serial, true),
            None => traced,
        },
        LedgerEvent::Spent { serial: spent } => moved(traced, *spent == serial, false),
        LedgerEvent::Opened { .. }
        | LedgerEvent::Posted { .. }
        | LedgerEvent::Drained { .. }
        | LedgerEvent::Accessed { .. }
        | LedgerEvent::Acted { .. } => traced,
    }
}

fn moved(traced: Trace, here: bool, somebody: bool) -> Trace
    ensures { result ≡ moved_to traced here somebody }
{
    let held = if here {
        somebody && traced.any
    } else {
        traced.held
    };
    Trace {
        any: traced.any,
        held,
    }
}
