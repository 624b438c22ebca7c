//! The threads of a run: each agent's, and that of the watcher.

ghost use Rattle.std.specs.Prelude.{◌≡◌, ◌<◌, vec_len};
ghost use Rattle.std.specs.Thread.{IsSync};
ghost use Rattle.es_rules.specs.Needs.{need, asks_copy};
ghost use Rattle.es_cluster.specs.Turned.{AsksMarks};

use crate::cluster::Cluster;
use crate::gate::Gate;
use crate::helpers::Helpers;
use crate::marked::Pending;
use es_cluster::{Beforehand, Member, Planned, Progress};
use es_event::{Act, LedgerEvent};
use es_ledger::LedgerCore;
use es_value::NoMemory;
use std::alloc::Global;
use std::sync::Wait;
use std::sync::atomic::{AtomicBool, AtomicU32, Ordering};
use std::thread;
use std::thread::{Scope, Threads};

/// How often who waits lets others run and looks again, before it sleeps: most messages come soon, and to
/// be woken takes longer than a few looks.
const LOOKS: u32 = 50;

/// How many events an agent has at most under its lock, not counting reads and writes of words that follow another,
/// before it looks whether the run is stopped, and lets a watcher in: a lock costs a tenth of a short step.
const EVENTS: u32 = 64;

/// How many reads and writes of words of shared memory follow another command at most under the ledger's lock: who
/// waits for the lock sleeps, and to be woken takes longer than many of them.
const WORDS: u32 = 32;

/// Why an agent pauses.
#[derive(Clone, Copy)]
struct Pause {
    /// What its last event came to.
    progress: Progress,
    /// Whether it may let others go on.
    wakes: bool,
    /// How many events the ledger had then.
    seen: usize,
}

impl Pause {
    /// For no reason of its own.
    const NONE: Pause = Pause {
        progress: Progress::Moved,
        wakes: false,
        seen: 0,
    };

    /// Whether the agent gives its locks up for it.
    fn ends(&self) -> bool {
        self.wakes || self.progress != Progress::Moved
    }
}

impl<L: Planned + Sync> Cluster<L> {
    /// Stops the run: no thread begins another turn.
    fn stop<R: Wait>(&self, rt: &R, stopped: &AtomicBool) {
        // under the ledger's lock, so that who is about to wait sees it
        let ledger = self.ledger.lock(rt);
        stopped.store(true, Ordering::SeqCst);
        drop(ledger);
        self.arrived.notify_all();
    }

    /// An agent's thread: its turns, until it has ended or the run is stopped. A marking that is under way
    /// then is waited for.
    fn serve<'s, E, G: Gate, R: Threads + Wait + Sync>(
        &self,
        rt: &'s R,
        agent: usize,
        scope: &Scope<'s, E>,
        helpers: &Helpers,
        stopped: &AtomicBool,
        gate: &G,
    )
        requires { agent < vec_len self.now.agents }
    {
        let mut open = None;
        self.take_turns(rt, agent, scope, helpers, &mut open, stopped, gate);
        if let Some(pending) = open {
            let _ = pending.join(rt);
        }
    }

    /// The turns of an agent.
    fn take_turns<'s, E, G: Gate, R: Threads + Wait + Sync>(
        &self,
        rt: &'s R,
        agent: usize,
        scope: &Scope<'s, E>,
        helpers: &Helpers,
        open: &mut Option<Pending>,
        stopped: &AtomicBool,
        gate: &G,
    )
        requires { agent < vec_len self.now.agents }
    {
        let mut commands = 0;
        for _ in rt.forever() {
            if stopped.load(Ordering::SeqCst) {
                return;
            }
            match self.turn(
                rt,
                agent,
                scope,
                helpers,
                open,
                &mut commands,
                stopped,
                gate,
            ) {
                Ok(Progress::Moved | Progress::Waiting) => (),
                Ok(Progress::Ended) => return,
                Err(NoMemory) => {
                    self.stop(rt, stopped);
                    return;
                }
            }
        }
    }

    /// One turn of an agent: some events, up to one after which it waits, has ended, or others are woken. Where it
    /// waits on for a message, or sleeps at a word, until it is woken.
    fn turn<'s, E, G: Gate, R: Threads + Wait + Sync>(
        &self,
        rt: &'s R,
        agent: usize,
        scope: &Scope<'s, E>,
        helpers: &Helpers,
        open: &mut Option<Pending>,
        commands: &mut u64,
        stopped: &AtomicBool,
        gate: &G,
    ) -> Result<Progress, NoMemory>
        requires { agent < vec_len self.now.agents }
    {
        let mut guard = self.agents[agent].lock(rt);
        let member: &mut Member<L> = &mut guard;
        let Pause {
            progress,
            wakes,
            seen,
        } = self.take_events(rt, member, agent, scope, helpers, open, commands, gate)?;
        // no lock is held while others are woken, or they would wait for it at once
        drop(guard);
        if wakes {
            self.arrived.notify_all();
        }
        if let Progress::Waiting = progress {
            self.wait(rt, agent, seen, stopped);
        }
        Ok(progress)
    }

    /// Takes an agent's next events, each command of it past the gate.
    fn take_events<'s, E, G: Gate, R: Threads + Wait + Sync>(
        &self,
        rt: &'s R,
        member: &mut Member<L>,
        agent: usize,
        scope: &Scope<'s, E>,
        helpers: &Helpers,
        open: &mut Option<Pending>,
        commands: &mut u64,
        gate: &G,
    ) -> Result<Pause, NoMemory> {
        for _ in 0..EVENTS {
            if gate.holds() && self.begins_command(rt, member, agent) {
                *commands = commands.saturating_add(1);
                gate.at(agent, *commands);
            }
            if !member.perform()? {
                let pause = self.ask(rt, member, scope, helpers, open, gate)?;
                if pause.ends() {
                    return Ok(pause);
                }
            }
        }
        Ok(Pause::NONE)
    }

    /// Whether the agent's next event is a command, and not one at which it sleeps already.
    fn begins_command<R: Wait>(&self, rt: &R, member: &Member<L>, agent: usize) -> bool {
        if !member.core().is_at_command() {
            return false;
        }
        let ledger = self.ledger.lock(rt);
        agent >= ledger.agents() || !ledger.is_asleep(agent)
    }

    /// The next event of an agent that asks somebody, or none where it waits or has ended. Reads and writes of words of
    /// shared memory that follow are done under the same lock.
    fn ask<'s, E, G: Gate, R: Threads + Wait + Sync>(
        &self,
        rt: &'s R,
        member: &mut Member<L>,
        scope: &Scope<'s, E>,
        helpers: &Helpers,
        open: &mut Option<Pending>,
        gate: &G,
    ) -> Result<Pause, NoMemory> {
        match member.beforehand() {
            Beforehand::Nothing => self.ask_ledger(rt, member, gate),
            Beforehand::Copy => {
                *open = Some(open_later(rt, member, scope, helpers)?);
                Ok(Pause::NONE)
            }
            Beforehand::Marks => {
                self.empty(rt, member, helpers, open)?;
                Ok(Pause::NONE)
            }
        }
    }

    /// The next event of an agent that empties. It stands alone, so that who asks the ledger makes no room for it.
    #[inline(never)]
    fn empty<R: Threads + Wait + Sync>(
        &self,
        rt: &R,
        member: &mut Member<L>,
        helpers: &Helpers,
        open: &mut Option<Pending>,
    ) -> Result<(), NoMemory>
        requires { AsksMarks (need member.old.core) }
    {
        let marks = helpers.marks(rt, member, open)?;
        member.empty(rt, &marks, &self.ledger)
    }

    /// The same, of an agent that asks the ledger.
    fn ask_ledger<G: Gate, R: Wait>(
        &self,
        rt: &R,
        member: &mut Member<L>,
        gate: &G,
    ) -> Result<Pause, NoMemory> {
        let mut ledger = self.ledger.lock(rt);
        let core: &mut LedgerCore<L> = &mut ledger;
        let mut pause = turn_with(member, core)?;
        for _ in 0..WORDS {
            if pause.ends() || gate.holds() {
                break;
            }
            // it lets nobody go on who waits
            match member.turn_at_word(core)? {
                Some(progress) => pause.progress = progress,
                None => break,
            }
        }
        Ok(pause)
    }

    /// Waits until something happened in the ledger that may let the agent go on, since the ledger had
    /// so many events, or the run is stopped.
    fn wait<R: Wait>(&self, rt: &R, agent: usize, seen: usize, stopped: &AtomicBool) {
        let mut seen = seen;
        let mut looks = 0;
        let mut ledger = self.ledger.lock(rt);
        for _ in rt.forever() {
            if stopped.load(Ordering::SeqCst) || may_go_on(&ledger, agent, seen) {
                return;
            }
            seen = ledger.history().len();
            ledger = if looks < LOOKS {
                looks += 1;
                drop(ledger);
                thread::yield_now();
                self.ledger.lock(rt)
            } else {
                self.arrived.wait(rt, ledger)
            };
        }
    }

    /// The watcher's thread: so many audits, unless the run is stopped. Each that was made is counted.
    fn watch<R: Wait>(
        &self,
        rt: &R,
        alloc: Global,
        audits: u32,
        made: &AtomicU32,
        stopped: &AtomicBool,
    ) {
        for _ in 0..audits {
            if stopped.load(Ordering::SeqCst) {
                return;
            }
            if self.audit(rt, alloc).is_err() {
                self.stop(rt, stopped);
                return;
            }
            made.fetch_add(1, Ordering::SeqCst);
        }
    }
}

// Opens a later collection, whose copy is marked in a thread of its own.
#[inline(never)]
fn open_later<'s, E, L: Planned, R: Threads + Wait + Sync>(
    rt: &'s R,
    member: &mut Member<L>,
    scope: &Scope<'s, E>,
    helpers: &Helpers,
) -> Result<Pending, NoMemory>
    requires { need member.old.core ≡ asks_copy }
{
    let copy = member.begin_later()?;
    helpers.begin(rt, scope, copy)
}

// One event of an agent, which has the ledger.
fn turn_with<L: Planned>(
    member: &mut Member<L>,
    ledger: &mut LedgerCore<L>,
) -> Result<Pause, NoMemory> {
    let before = ledger.history().len();
    let progress = member.turn_beside(ledger)?;
    Ok(Pause {
        progress,
        wakes: wakes(ledger, before),
        seen: ledger.history().len(),
    })
}

// Whether an agent that waits or sleeps may go on, after what happened since the ledger had so many events: one that
// waits by a message for it, or an end; one that sleeps by a notify. After any other act only the lowest of those that
// have not ended may, which then skips its job, or whose time-out has passed.
fn may_go_on<L: Planned>(ledger: &LedgerCore<L>, agent: usize, seen: usize) -> bool {
    let events = ledger.history();
    let new = events.len().saturating_sub(seen);
    let lowest = is_lowest(ledger, agent);
    let sleeps = agent < ledger.agents() && ledger.is_asleep(agent);
    events.iter().rev().take(new).any(|event| match event {
        LedgerEvent::Posted { receiver, .. } => *receiver == agent && !sleeps,
        LedgerEvent::Acted { act, .. } => lowest || lets_go_on(*act, sleeps),
        _ => false,
    })
}

// Whether another's act may let an agent go on that sleeps, or else waits, whichever number it has.
fn lets_go_on(act: Act, sleeps: bool) -> bool {
    match act {
        Act::Ended => !sleeps,
        Act::Notified { taken, .. } => sleeps && taken > 0,
        Act::Waiting { .. } | Act::Passed { .. } | Act::Slept { .. } | Act::Woke | Act::TimedOut =>
            false,
    }
}

// Whether all agents below this one have ended.
fn is_lowest<L: Planned>(ledger: &LedgerCore<L>, agent: usize) -> bool {
    for other in 0..agent {
        if other < ledger.agents() && !ledger.has_ended(other) {
            return false;
        }
    }
    true
}

// Whether the last event of the ledger, if one was added since it had so many, can let an agent go on that waits or
// sleeps. It is the last of its turn that can.
fn wakes<L: Planned>(ledger: &LedgerCore<L>, before: usize) -> bool {
    let events = ledger.history();
    let last = events.last().filter(|_| events.len() > before);
    last.is_some_and(|event| {
        matches!(
            event,
            LedgerEvent::Posted { .. } | LedgerEvent::Acted { .. }
        )
    })
}

// Waits until the agents may begin. None does before each has its thread, whose making takes longer beside work. The wait is
// short, so who waits looks again, and lets others run in between.
fn wait_until<R: Wait>(rt: &R, begun: &AtomicBool) {
    for _ in rt.forever() {
        if begun.load(Ordering::SeqCst) {
            return;
        }
        thread::yield_now();
    }
}

/// Runs each agent in a thread, the first in that of the caller and each other in one of its own, and a watcher that
/// makes so many audits in one more, until all have ended. How many audits were made; none where a thread ran out of
/// memory or could not be made.
pub(crate) fn run_all<L: Planned + Send + Sync, G: Gate + Sync, R: Threads + Wait + Sync>(
    rt: &R,
    alloc: Global,
    cluster: &Cluster<L>,
    helpers: &Helpers,
    audits: u32,
    gate: &G,
) -> Option<u32> {
    let flag = AtomicBool::new(false);
    let count = AtomicU32::new(0);
    let start = AtomicBool::new(false);
    let (stopped, made, begun) = (&flag, &count, &start);
    thread::scope(thread::scope_env(), rt, |scope| {
        for agent in 1..cluster.agents.len() {
            let served = move ||
                requires place { agent < vec_len cluster.now.agents }
                requires shared { IsSync L.row × IsSync R.row }
            {
                wait_until(rt, begun);
                cluster.serve(rt, agent, scope, helpers, stopped, gate);
            };
            if scope.spawn(served).is_err() {
                cluster.stop(rt, stopped);
            }
        }
        if audits > 0 {
            let watcher = move || cluster.watch(rt, alloc, audits, made, stopped);
            if scope.spawn(watcher).is_err() {
                cluster.stop(rt, stopped);
            }
        }
        begun.store(true, Ordering::SeqCst);
        // the caller would only wait: a single agent needs no thread more
        if !cluster.agents.is_empty() {
            cluster.serve(rt, 0, scope, helpers, stopped, gate);
        }
    });
    if flag.load(Ordering::SeqCst) {
        None
    } else {
        Some(count.load(Ordering::SeqCst))
    }
}
