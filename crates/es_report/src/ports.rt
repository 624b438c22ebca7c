//! The oldest message of a port, by looking back at a ledger's events: no memory is taken.

ghost use Rattle.std.specs.Prelude.{◌≡◌, ◌≤◌, ◌<◌, ◌+◌, ◌^◌, ◌∷◌, reverse, slice_get};
ghost use Rattle.std.specs.Option.{option_and_then};
ghost use Rattle.es_event.specs.Ledger.{Ledger, front as front_said, is_at, serial_in as serial_said};
ghost use Rattle.es_report.specs.Ports.{AreCounts, Finds, posts, put_in as put_in_said, seen_in as seen_in_said, taken_out as taken_out_said};

use es_event::{Body, LedgerEvent};

/// How many messages came into a port, and how many of them out.
#[derive(Clone, Copy)]
struct Counts {
    posted: usize,
    gone: usize,
}

/// A search for the message of a port that so many others came in before.
#[derive(Clone, Copy)]
struct Search {
    seen: usize,
    found: Option<u64>,
}

/// The serial in the oldest message of a port, if it has one.
pub(crate) fn front(events: &[LedgerEvent], sender: usize, receiver: usize) -> Option<u64>
    ensures { result ≡ option_and_then serial_said (front_said (reverse events.now) sender receiver) }
{
    let counts = counts_of(events, sender, receiver);
    serial_after(events, sender, receiver, counts.gone)
}

fn counts_of(events: &[LedgerEvent], sender: usize, receiver: usize) -> Counts
    ensures { AreCounts sender receiver (reverse events.now) result }
{
    let mut counts = Counts { posted: 0, gone: 0 };
    for event in events {
        counts = next_counts(counts, event, sender, receiver);
    }
    counts
}

fn next_counts(counts: Counts, event: &LedgerEvent, sender: usize, receiver: usize) -> Counts
    requires few { counts.posted < 2 ^ 63 }
    requires gone { counts.gone ≤ counts.posted }
    ensures counts { (l : Ledger) → AreCounts sender receiver l counts → AreCounts sender receiver (event.now ∷ l) result }
    ensures most { result.posted ≤ counts.posted + 1 }
{
    match event {
        LedgerEvent::Posted {
            sender: from,
            receiver: to,
            ..
        } => put_in(counts, is_port(sender, receiver, *from, *to)),
        LedgerEvent::Taken {
            sender: from,
            receiver: to,
        } => taken_out(counts, is_port(sender, receiver, *from, *to)),
        LedgerEvent::Drained {
            sender: from,
            receiver: to,
        } => taken_out(counts, is_port(sender, receiver, *from, *to)),
        LedgerEvent::Opened { .. }
        | LedgerEvent::Spent { .. }
        | LedgerEvent::Accessed { .. }
        | LedgerEvent::Acted { .. } => counts,
    }
}

fn is_port(sender: usize, receiver: usize, from: usize, to: usize) -> bool
    ensures { result ≡ is_at sender receiver from to }
{
    sender == from && receiver == to
}

fn put_in(counts: Counts, here: bool) -> Counts
    requires { counts.posted < 2 ^ 63 }
    ensures { result ≡ put_in_said counts here }
{
    let posted = if here {
        counts.posted + 1
    } else {
        counts.posted
    };
    Counts {
        posted,
        gone: counts.gone,
    }
}

fn taken_out(counts: Counts, here: bool) -> Counts
    requires { counts.posted < 2 ^ 63 }
    ensures { result ≡ taken_out_said counts here }
{
    let gone = if here && counts.gone < counts.posted {
        counts.gone + 1
    } else {
        counts.gone
    };
    Counts {
        posted: counts.posted,
        gone,
    }
}

fn serial_after(
    events: &[LedgerEvent],
    sender: usize,
    receiver: usize,
    before: usize,
) -> Option<u64>
    ensures { result ≡ option_and_then serial_said (slice_get (posts (reverse events.now) sender receiver) before) }
{
    let mut search = Search {
        seen: 0,
        found: None,
    };
    for event in events {
        search = next_search(search, event, sender, receiver, before);
    }
    search.found
}

fn next_search(
    search: Search,
    event: &LedgerEvent,
    sender: usize,
    receiver: usize,
    before: usize,
) -> Search
    requires { search.seen < 2 ^ 63 }
    ensures finds { (l : Ledger) → Finds sender receiver before l search → Finds sender receiver before (event.now ∷ l) result }
    ensures most { result.seen ≤ search.seen + 1 }
{
    match event {
        LedgerEvent::Posted {
            sender: from,
            receiver: to,
            body,
        } => seen_in(search, is_port(sender, receiver, *from, *to), before, body),
        LedgerEvent::Taken { .. }
        | LedgerEvent::Drained { .. }
        | LedgerEvent::Opened { .. }
        | LedgerEvent::Spent { .. }
        | LedgerEvent::Accessed { .. }
        | LedgerEvent::Acted { .. } => search,
    }
}

fn seen_in(search: Search, here: bool, before: usize, body: &Body) -> Search
    requires { search.seen < 2 ^ 63 }
    ensures { result ≡ seen_in_said search here before body.now }
{
    let seen = if here { search.seen + 1 } else { search.seen };
    let found = if here && search.seen == before {
        serial_in(body)
    } else {
        search.found
    };
    Search { seen, found }
}

fn serial_in(body: &Body) -> Option<u64>
    ensures { result ≡ serial_said body.now }
{
    match body {
        Body::Plain(_) => None,
        Body::Block { serial, .. } => Some(*serial),
    }
}
