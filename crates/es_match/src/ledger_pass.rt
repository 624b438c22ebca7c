//! What a pass over a ledger's history keeps.

ghost use Rattle.std.specs.Prelude.{◌≡◌, ℕ, [], ◌∷◌, OnOk, ◌||◌};
ghost use Rattle.es_event.specs.Ledger.{Ledger, awaited, newest_size, opens};
ghost use Rattle.es_event.specs.declared.ledger_event.LedgerEvent.{LedgerEvent as Happening};
ghost use Rattle.es_match.specs.LedgerPass.{Says, body_of, sleep_in, size_in, sleeps_on, taken_by, waits_in, words_by};
ghost use Rattle.es_match.specs.Deeds.{sleeps_after, words_in};
ghost use Rattle.es_event.specs.Totals.{is_drained};

use crate::deed::Sleep;
use crate::lines::{self, Lines, put};
use crate::mail::{self, Mail};
use es_event::{Act, Body, LedgerEvent};
use es_value::NoMemory;
use std::alloc::Global;
use std::collections::HashMap;

/// What a pass over a ledger's history keeps.
#[derive(Drop)]
pub(crate) struct LedgerPass<'a> {
    /// For each serial its line.
    pub lines: Lines,
    /// For each block how many words it has.
    pub sizes: HashMap<u64, u32>,
    /// For each port its messages.
    pub mail: Mail<'a>,
    /// For each agent the sender that it waits for.
    pub waiting: HashMap<usize, Option<usize>>,
    /// For each agent its sleep, if it sleeps.
    pub sleeping: HashMap<usize, Option<Sleep>>,
    /// Whether a message was drained.
    pub drained: bool,
}

impl<'a> LedgerPass<'a> {
    /// Those of the empty history; they take no memory.
    pub fn new(alloc: Global) -> LedgerPass<'a>
        ensures { Says [] result }
    {
        LedgerPass {
            lines: HashMap::new(alloc),
            sizes: HashMap::new(alloc),
            mail: HashMap::new(alloc),
            waiting: HashMap::new(alloc),
            sleeping: HashMap::new(alloc),
            drained: false,
        }
    }

    /// The message that the event takes.
    fn taken(&self, event: &LedgerEvent) -> Option<&'a Body>
        ensures { (l : Ledger) → Says l self.now → body_of result ≡ taken_by l event.now }
    {
        match event {
            LedgerEvent::Taken { sender, receiver } => mail::front(&self.mail, *sender, *receiver),
            _ => None,
        }
    }

    /// The number of words of the block that a message carries.
    pub fn words(&self, body: &Body) -> u32
        ensures { (l : Ledger) → Says l self.now → result ≡ words_in l body.now }
    {
        match body {
            Body::Plain(_) => 0,
            Body::Block { block, .. } => size_of(&self.sizes, *block),
        }
    }

    /// The number of words of the block that the event posts.
    fn posted(&self, event: &LedgerEvent) -> u32
        ensures { (l : Ledger) → Says l self.now → result ≡ words_by l event.now }
    {
        match event {
            LedgerEvent::Posted { body, .. } => self.words(body),
            _ => 0,
        }
    }

    /// Those after one more event.
    pub fn note(&mut self, alloc: Global, event: &'a LedgerEvent) -> Result<(), NoMemory>
        ensures { OnOk result ((l : Ledger) → Says l self.old → Says (event.now ∷ l) self.new) }
    {
        let taken = self.taken(event);
        let posted = self.posted(event);
        lines::note(&mut self.lines, event, taken, posted)?;
        note_size(&mut self.sizes, event)?;
        mail::note(alloc, &mut self.mail, event)?;
        note_wait(&mut self.waiting, event)?;
        note_sleep(&mut self.sleeping, event)?;
        self.drained = drained_after(self.drained, event);
        Ok(())
    }
}

fn size_of(sizes: &HashMap<u64, u32>, block: u64) -> u32
    ensures { result ≡ size_in sizes.now block }
{
    match sizes.get(&block) {
        Some(words) => *words,
        None => 0,
    }
}

fn note_size(sizes: &mut HashMap<u64, u32>, event: &LedgerEvent) -> Result<(), NoMemory>
    ensures { OnOk result ((b : ℕ) → size_in sizes.new b ≡ newest_size (opens event.now) b (size_in sizes.old b)) }
{
    match event {
        LedgerEvent::Opened { block, words, .. } => put(sizes, *block, *words),
        LedgerEvent::Posted { .. }
        | LedgerEvent::Taken { .. }
        | LedgerEvent::Spent { .. }
        | LedgerEvent::Accessed { .. }
        | LedgerEvent::Acted { .. }
        | LedgerEvent::Drained { .. } => Ok(()),
    }
}

fn note_wait(
    waiting: &mut HashMap<usize, Option<usize>>,
    event: &LedgerEvent,
) -> Result<(), NoMemory>
    ensures { OnOk result ((a : ℕ) → waits_in waiting.new a ≡ awaited event.now a (waits_in waiting.old a)) }
{
    match event {
        LedgerEvent::Taken { receiver, .. } => put(waiting, *receiver, None),
        LedgerEvent::Acted { agent, act } => note_act(waiting, *agent, *act),
        LedgerEvent::Opened { .. }
        | LedgerEvent::Posted { .. }
        | LedgerEvent::Spent { .. }
        | LedgerEvent::Accessed { .. }
        | LedgerEvent::Drained { .. } => Ok(()),
    }
}

fn note_act(
    waiting: &mut HashMap<usize, Option<usize>>,
    agent: usize,
    act: Act,
) -> Result<(), NoMemory>
    ensures { OnOk result ((a : ℕ) → waits_in waiting.new a ≡ awaited (Happening.Acted agent act) a (waits_in waiting.old a)) }
{
    match act {
        Act::Waiting { sender } => put(waiting, agent, Some(sender)),
        Act::Passed { .. } => put(waiting, agent, None),
        Act::Ended | Act::Slept { .. } | Act::Notified { .. } | Act::Woke | Act::TimedOut => Ok(()),
    }
}

fn note_sleep(
    sleeping: &mut HashMap<usize, Option<Sleep>>,
    event: &LedgerEvent,
) -> Result<(), NoMemory>
    ensures { OnOk result ((a : ℕ) → sleep_in sleeping.new a ≡ sleeps_on event.now a (sleep_in sleeping.old a)) }
{
    match event {
        LedgerEvent::Acted { agent, act } => note_rest(sleeping, *agent, *act),
        LedgerEvent::Opened { .. }
        | LedgerEvent::Posted { .. }
        | LedgerEvent::Taken { .. }
        | LedgerEvent::Spent { .. }
        | LedgerEvent::Accessed { .. }
        | LedgerEvent::Drained { .. } => Ok(()),
    }
}

fn note_rest(
    sleeping: &mut HashMap<usize, Option<Sleep>>,
    agent: usize,
    act: Act,
) -> Result<(), NoMemory>
    ensures { OnOk result ((a : ℕ) → sleep_in sleeping.new a ≡ sleeps_after agent act a (sleep_in sleeping.old a)) }
{
    match act {
        Act::Slept {
            serial,
            index,
            word,
        } => {
            let sleep = Sleep {
                serial,
                index,
                word,
            };
            put(sleeping, agent, Some(sleep))
        }
        Act::Ended | Act::Woke | Act::TimedOut => put(sleeping, agent, None),
        Act::Waiting { .. } | Act::Passed { .. } | Act::Notified { .. } => Ok(()),
    }
}

fn drained_after(drained: bool, event: &LedgerEvent) -> bool
    ensures { result ≡ (is_drained event.now || drained) }
{
    matches!(event, LedgerEvent::Drained { .. }) || drained
}
