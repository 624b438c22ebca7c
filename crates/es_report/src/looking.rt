//! What became of registrations, by looking back at a history: no memory is taken.

ghost use Rattle.std.specs.Prelude.{◌≡◌, ◌+◌, ◌<◌, ◌≤◌, ◌^◌, ◌||◌, reverse};
ghost use Rattle.es_event.specs.Identities.{empties, is_gone, is_in};
ghost use Rattle.es_event.specs.Registrations.{fate as fate_said};
ghost use Rattle.es_event.specs.declared.event.Event.TheVariants.{Did};
ghost use Rattle.es_event.specs.declared.event.Answer.{Answer as Given};
ghost use Rattle.es_report.specs.Registered.{fate_of};
ghost use Rattle.es_report.specs.Tallies.{end_tally};
ghost use Rattle.es_report.specs.Looking.{Looks, Tells, is_under as is_under_said, present as present_said, removed_by, with_made as with_made_said};

use crate::fates::{Fate, with_one};
use crate::registered::{Made, made_by, named_by};
use es_event::{Command, Event};
use es_registry::Tally;
use es_value::{Id, IdSet, Value};

/// What events said of one registration so far.
#[derive(Clone, Copy)]
struct Look {
    /// How many registrations were made.
    made: usize,
    /// What it was made with, once it was.
    cell: Option<Made>,
    /// How it was taken out first.
    removal: Option<Fate>,
}

/// How many registrations have each fate, by an agent's events, the oldest first. For each registration
/// it looks at all events, so its time grows with the square of the history.
pub(crate) fn tally_back(events: &[Event]) -> Tally
    ensures { result ≡ end_tally (reverse events.now) }
{
    let mut tally = Tally {
        live: 0,
        awaiting: 0,
        unregistered: 0,
        taken: 0,
    };
    let made = look_at(events, 0).made;
    for place in 0..made {
        tally = with_one(tally, fate_back(events, place + 1));
    }
    tally
}

/// What became of the registration of this number.
fn fate_back(events: &[Event], number: usize) -> Fate
    ensures { fate_of result ≡ fate_said (reverse events.now) number }
{
    let looked = look_at(events, number);
    match looked.removal {
        Some(fate) => fate,
        None => present(events, looked.cell),
    }
}

/// What became of a registration that nothing took out.
fn present(events: &[Event], cell: Option<Made>) -> Fate
    ensures { fate_of result ≡ present_said (reverse events.now) cell }
{
    match cell {
        Some(made) => {
            if is_emptied(events, made.target) {
                Fate::Awaiting
            } else {
                Fate::Live
            }
        }
        None => Fate::Live,
    }
}

/// What all events say of the registration of this number.
fn look_at(events: &[Event], number: usize) -> Look
    ensures looks { Looks number (reverse events.now) result }
    ensures small { result.made < 2 ^ 63 }
{
    let mut looked = Look {
        made: 0,
        cell: None,
        removal: None,
    };
    for event in events {
        looked = next(looked, event, number);
    }
    looked
}

/// What one more event says.
fn next(looked: Look, event: &Event, number: usize) -> Look
    requires { looked.made < 2 ^ 63 }
    ensures tells { Tells event.now number looked result }
    ensures most { result.made ≤ looked.made + 1 }
{
    match event {
        Event::Did(done) => next_done(looked, done.command(), done.values(), number),
        Event::Taken { registration, .. } => {
            removed_if(looked, *registration == number, Fate::Taken)
        }
        Event::JobBegun { .. }
        | Event::CleanupBegun { .. }
        | Event::Received { .. }
        | Event::Refused { .. }
        | Event::Emptied { .. }
        | Event::JobEnded
        | Event::Skipped { .. }
        | Event::Closed => looked,
    }
}

fn next_done(looked: Look, command: &Command, values: &[Value], number: usize) -> Look
    requires { looked.made < 2 ^ 63 }
    ensures tells { (answer : Given) → Tells (Did (command.now, values.now, answer)) number looked result }
    ensures most { result.made ≤ looked.made + 1 }
{
    if let Some(made) = made_by(command, values) {
        return with_made(looked, made, number);
    }
    match named_by(command, values) {
        Some((registry, token)) => {
            let out = is_under(looked.cell, registry, token);
            removed_if(looked, out, Fate::Unregistered)
        }
        None => looked,
    }
}

/// After one more registration was made.
fn with_made(looked: Look, made: Made, number: usize) -> Look
    requires { looked.made < 2 ^ 63 }
    ensures { result ≡ with_made_said looked made number }
{
    let count = looked.made + 1;
    let cell = if count == number {
        Some(made)
    } else {
        looked.cell
    };
    Look {
        made: count,
        cell,
        removal: looked.removal,
    }
}

/// After an event that takes the registration out, if it does, unless another did before.
fn removed_if(looked: Look, out: bool, fate: Fate) -> Look
    ensures { result ≡ removed_by looked out fate }
{
    let removal = match looked.removal {
        Some(first) => Some(first),
        None => { if out { Some(fate) } else { None } }
    };
    Look {
        made: looked.made,
        cell: looked.cell,
        removal,
    }
}

/// Whether the registration was made in this registry with this token.
fn is_under(cell: Option<Made>, registry: Id, token: Id) -> bool
    ensures { result ≡ is_under_said cell registry token }
{
    match cell {
        Some(made) => made.registry == registry && made.token == Some(token),
        None => false,
    }
}

/// Whether the identity was emptied.
fn is_emptied(events: &[Event], id: Id) -> bool
    ensures { result ≡ is_gone (reverse events.now) id }
{
    let mut emptied = false;
    for event in events {
        emptied = either(empties_it(event, id), emptied);
    }
    emptied
}

/// Whether the event empties the identity.
fn empties_it(event: &Event, id: Id) -> bool
    ensures { result ≡ is_in (empties event.now) id }
{
    match event {
        Event::Emptied { ids } => IdSet::of(ids.as_slice()).has(id),
        Event::Did(_)
        | Event::Taken { .. }
        | Event::JobBegun { .. }
        | Event::CleanupBegun { .. }
        | Event::Received { .. }
        | Event::Refused { .. }
        | Event::JobEnded
        | Event::Skipped { .. }
        | Event::Closed => false,
    }
}

/// Whether one of the two is.
pub(crate) fn either(first: bool, second: bool) -> bool
    ensures { result ≡ (first || second) }
{
    first || second
}
