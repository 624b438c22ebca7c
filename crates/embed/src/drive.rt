//! One agent, stepped by hand.

ghost use Rattle.std.specs.Prelude.{◌≡◌, ◌≢◌, ℕ, [], ◌∷◌, ◌++◌, length, reverse, IfErr, IfOk, OnOk, OnErr, IfNone, IfSome};
ghost use Rattle.es_event.specs.Jobs.{receivers};
ghost use Rattle.es_event.specs.Live.{Honest};
ghost use Rattle.es_event.specs.Runs.{IsWholeRun};
ghost use Rattle.es_rules.specs.Needs.{need, asks_message, asks_nothing, TakesTicket};
ghost use Rattle.es_agent.specs.Failing.{FailsToAdmit};
ghost use Rattle.es_agent.specs.Tickets.{Admits};
ghost use Rattle.embed.specs.Outside.{MeetsAll};
ghost use Rattle.embed.specs.Steps.{Goes, RunsSoLong};

use es_agent::{AdmitFault, AgentCore, Need, Request};
use es_event::{AgentPlan, Event, Sequence};
use es_ticket::{LedgerName, Ticket};
use es_value::{NoMemory, Value};
use std::alloc::Global;
use std::marker::Brand;

/// What stands beside the agent: here all that it hears from, and posts to.
#[derive(Drop)]
pub struct Outside {
    /// The numbers that come to it, the next one last.
    pub inbox: Vec<u32>,
    /// The values that it posted, the oldest first.
    pub outbox: Vec<Value>,
}

/// Why an agent was given up before its end.
#[derive(Clone, Copy, Debug, PartialEq, Eq)]
pub enum Stopped {
    /// A growth was refused.
    NoMemory,
    /// It asked for a block of shared memory, and there is no ledger.
    NoLedger,
    /// It has more events than it was allowed.
    TooLong,
}

impl From<NoMemory> for Stopped {
    ghost use Rattle.embed.specs.declared.drive.Stopped.TheVariants.{NoMemory};

    ghost from_gives = { λ _ e. e ≡ NoMemory };

    fn from(_error: NoMemory) -> Stopped {
        Stopped::NoMemory
    }
}

/// The events of an agent of this plan, the oldest first, if it ends within so many.
///
/// They are a whole run of the plan: legal, in the plan's order, and to its end. They are honest: what was
/// emptied was not live then. Each receipt took the next number of the inbox, a job was skipped only where none was
/// left, and the outbox has what was posted, in order.
///
/// `TooLong` is answered only where some run of the plan has so many events.
pub fn run(
    alloc: Global,
    plan: AgentPlan,
    outside: &mut Outside,
    limit: usize,
) -> Result<Sequence<Event>, Stopped>
    ensures whole { IfOk result (λ events. IsWholeRun plan (reverse events)) }
    ensures honest { IfOk result (λ events. Honest (receivers plan.jobs) (reverse events)) }
    ensures outside { IfOk result (λ events. MeetsAll (reverse events) outside.old outside.new) }
    ensures long { IfErr result (λ e. e ≡ Stopped.TooLong → RunsSoLong plan limit) }
{
    // the agent 0 of two: the other one is all that is outside
    let mut agent = AgentCore::<Brand>::new(alloc, plan, 0, 2)?;
    match advance(&mut agent, outside, limit) {
        Ok(()) => Ok(agent.into_history()),
        Err(why) => {
            // it tells that its events so far are a run of its plan
            let _ = agent.history();
            agent.abandon().end();
            Err(why)
        }
    }
}

/// Takes events of the agent until it has ended, at most so many.
fn advance<L: LedgerName>(
    agent: &mut AgentCore<L>,
    outside: &mut Outside,
    limit: usize,
) -> Result<(), Stopped>
    requires bare { agent.old.over ≡ [] }
    requires fresh { agent.old.history ≡ [] }
    ensures plan { agent.new.plan ≡ agent.old.plan }
    ensures bare { agent.new.over ≡ [] }
    ensures ended { OnOk result (need agent.new ≡ asks_nothing) }
    ensures outside { OnOk result (MeetsAll agent.new.history outside.old outside.new) }
    ensures long { IfErr result (λ e. e ≡ Stopped.TooLong → length agent.new.history ≡ limit) }
{
    for taken in 0..limit {
        if !step(agent, outside)? {
            return Ok(());
        }
    }
    Err(Stopped::TooLong)
}

/// Takes the next event of an agent that has no buffer object, and tells whether there was one. If it
/// fails the agent has not changed.
fn step<L: LedgerName>(agent: &mut AgentCore<L>, outside: &mut Outside) -> Result<bool, Stopped>
    requires { agent.old.over ≡ [] }
    ensures ok { IfOk result (λ went. Goes went agent.old outside.old agent.new outside.new) }
    ensures err { OnErr result (agent.new ≡ agent.old) }
    ensures why { IfErr result (λ e. e ≢ Stopped.TooLong) }
{
    match agent.next() {
        Need::Local => {
            agent.perform()?;
            Ok(true)
        }
        Need::Collect => {
            let marks = agent.marks()?;
            let rack = agent.collect(&marks)?;
            rack.end();
            Ok(true)
        }
        Need::Later => {
            // another thread may mark the copy while the agent goes on
            let _copy = agent.begin_later()?;
            Ok(true)
        }
        Need::Finish => {
            let marks = agent.late_marks()?;
            let rack = agent.finish_later(&marks)?;
            rack.end();
            Ok(true)
        }
        Need::Ledger(Request::Post { value, .. }) => {
            keep(&mut outside.outbox, value)?;
            agent.answer_done()?;
            Ok(true)
        }
        // here a ledger would answer: a ticket, a word, or that it was done
        Need::Ledger(_) => Err(Stopped::NoLedger),
        Need::Message(_) => hear(agent, outside),
        Need::Close => {
            let rack = agent.close();
            rack.end();
            Ok(true)
        }
        Need::Ended => Ok(false),
    }
}

/// Hands the agent the message that its next job waits for, or skips that job if none comes any more.
fn hear<L: LedgerName>(agent: &mut AgentCore<L>, outside: &mut Outside) -> Result<bool, Stopped>
    requires { (s : ℕ) × (need agent.old ≡ asks_message s) }
    ensures ok { IfOk result (λ went. Goes went agent.old outside.old agent.new outside.new) }
    ensures err { OnErr result (agent.new ≡ agent.old) }
    ensures why { IfErr result (λ e. e ≢ Stopped.TooLong) }
{
    match outside.inbox.pop() {
        Some(number) => {
            agent.receive(Value::Number(i64::from(number)))?;
            Ok(true)
        }
        None => {
            agent.skip()?;
            Ok(true)
        }
    }
}

/// Keeps a copy of a value that was posted.
fn keep(outbox: &mut Vec<Value>, value: &Value) -> Result<(), NoMemory>
    ensures { OnOk result (outbox.new.items ≡ outbox.old.items ++ value.now ∷ []) }
{
    let copy = value.copy()?;
    Ok(outbox.push(copy)?)
}

/// Hands a ticket to the agent that asked for it. One that comes back is owed to the ledger: the agent refused its
/// message, or there was no memory and the agent has not changed.
pub fn admit<L: LedgerName>(
    agent: &mut AgentCore<L>,
    ticket: Ticket<L>,
) -> Option<(Ticket<L>, AdmitFault)>
    requires { TakesTicket (need agent.old) ticket }
    ensures taken { IfNone result (Admits agent.old ticket agent.new) }
    ensures back { IfSome result (λ r. (r.0 ≡ ticket) × FailsToAdmit agent.old r.1 agent.new) }
{
    match agent.admit(ticket) {
        Ok(_) => None,
        Err(back) => Some(back),
    }
}
