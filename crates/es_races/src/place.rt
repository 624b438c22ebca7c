//! Where an access to a word stands in its agent's plan, by the agent's history, if no agent of the plan waits at a word
//! or notifies.

ghost use Rattle.std.specs.Prelude.{◌≡◌, ◌≤◌, ◌+◌, ◌<◌, ◌^◌, reverse, IfNone, IfSome};
ghost use Rattle.std.specs.Option.{option_copied};
ghost use Rattle.es_races.specs.Places.{IsPlace, access_in as access_said, access_of, accesses_in};
ghost use Rattle.es_races.specs.Walks.{Tells};

use es_event::{Command, Event};

/// The part of a plan that commands stand in.
#[derive(Clone, Copy, Debug, PartialEq, Eq)]
pub enum Section {
    /// The job of this number, counted from 1.
    Job(usize),
    /// A callback, as it was called for the registration of this number, counted from 1.
    Callback(usize),
}

/// Where a command stands.
#[derive(Clone, Copy)]
pub struct Place<'a> {
    /// What it stands in.
    pub section: Section,
    /// Its number there, counted from 1.
    pub number: usize,
    /// The command.
    pub command: &'a Command,
}

/// How far a look at a history is.
#[derive(Clone, Copy)]
pub(crate) struct Walk {
    /// The section that began last.
    section: Section,
    /// How many of its commands were done.
    commands: usize,
    /// How many accesses to words were made, in all sections.
    accesses: usize,
}

/// Where the access stands before which the agent made so many, by its events, the oldest first; none where it made
/// no more.
pub(crate) fn place_of(events: &[Event], number: usize) -> Option<Place<'_>>
    ensures place { IfSome result (λ p. IsPlace (reverse events.now) number p.section p.number p.command.now) }
    ensures none { IfNone result (accesses_in (reverse events.now) ≤ number) }
{
    let mut walk = Walk {
        section: Section::Job(0),
        commands: 0,
        accesses: 0,
    };
    for event in events {
        match access_in(event) {
            Some(command) if walk.accesses == number => {
                return Some(Place {
                    section: walk.section,
                    number: walk.commands + 1,
                    command,
                });
            }
            _ => walk = after(walk, event),
        }
    }
    None
}

/// The access to a word that the event did.
fn access_in(event: &Event) -> Option<&Command>
    ensures { option_copied result ≡ access_said event.now }
{
    match event {
        Event::Did(done) => access(done.command()),
        Event::JobBegun { .. }
        | Event::CleanupBegun { .. }
        | Event::Received { .. }
        | Event::Refused { .. }
        | Event::Emptied { .. }
        | Event::Taken { .. }
        | Event::JobEnded
        | Event::Skipped { .. }
        | Event::Closed => None,
    }
}

/// The command, where it is an access to a word.
fn access(command: &Command) -> Option<&Command>
    ensures { option_copied result ≡ access_of command.now }
{
    match command {
        Command::Atomic(_) => Some(command),
        _ => None,
    }
}

/// How far the look is after the event.
fn after(walk: Walk, event: &Event) -> Walk
    requires commands { walk.commands < 2 ^ 63 }
    requires accesses { walk.accesses < 2 ^ 63 }
    ensures tells { Tells event.now walk result }
    ensures more_commands { result.commands ≤ walk.commands + 1 }
    ensures more_accesses { result.accesses ≤ walk.accesses + 1 }
{
    match event {
        Event::JobBegun { job } => begun(walk, Section::Job(*job)),
        Event::Taken { registration, .. } => begun(walk, Section::Callback(*registration)),
        Event::Did(_) => done(walk, usize::from(access_in(event).is_some())),
        Event::Emptied { .. } => done(walk, 0),
        Event::CleanupBegun { .. }
        | Event::Received { .. }
        | Event::Refused { .. }
        | Event::JobEnded
        | Event::Skipped { .. }
        | Event::Closed => walk,
    }
}

/// One more command was done, with so many accesses to words.
fn done(walk: Walk, accesses: usize) -> Walk
    requires commands { walk.commands < 2 ^ 63 }
    requires accesses { walk.accesses < 2 ^ 63 }
    requires one { accesses ≤ 1 }
    ensures { result ≡ record { section = walk.section; commands = walk.commands + 1; accesses = walk.accesses + accesses } }
{
    Walk {
        section: walk.section,
        commands: walk.commands + 1,
        accesses: walk.accesses + accesses,
    }
}

/// A section began.
fn begun(walk: Walk, section: Section) -> Walk
    ensures { result ≡ record { section = section; commands = 0; accesses = walk.accesses } }
{
    Walk {
        section,
        commands: 0,
        accesses: walk.accesses,
    }
}
