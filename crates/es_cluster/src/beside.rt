//! An agent beside others, each of which has a thread: it has the ledger only where it asks the ledger,
//! and does not know what the ledger says of it.

ghost use Rattle.std.specs.Prelude.{◌≡◌, ◌≢◌, ◌<◌, ◌↔◌, ⊤, false, None, is_some, IsTrue, IfOk, IfSome, IfNone, OnOk, OnErr};
ghost use Rattle.std.specs.Arc.{arc_value};
ghost use Rattle.es_event.specs.Later.{snapshot};
ghost use Rattle.es_event.specs.Order.{due, due_end, run};
ghost use Rattle.es_agent.specs.Later.{IsLaterCopy};
ghost use Rattle.es_agent.specs.Tickets.{Empties};
ghost use Rattle.es_rules.specs.Needs.{need, need_of, asks_nobody, asks_copy, asks_nothing, runs_for_ledger};
ghost use Rattle.es_rules.specs.Shown.{shown};
ghost use Rattle.es_cluster.specs.Turned.{AreAskedFor, AsksMarks, beforehand, WaitsRightly, IsSeated, GrowsByOne, Proceeds, NamesOthers, OthersStay, ProceedsBeside, runs_access};

use crate::member::{Member, Progress};
use crate::planned::Planned;
use crate::spending::spend_shared;
use crate::turns::{ask, ask_at_word};
use es_agent::{AgentCore, Need, Request};
use es_event::{Command, Due};
use es_ledger::LedgerCore;
use es_mark::Marks;
use es_parmark::Snapshot;
use es_record::AgentRecord;
use es_ticket::{LedgerName, Rack};
use es_value::NoMemory;
use std::sync::{Arc, Mutex, Wait};

/// What an agent's next event needs before it has the ledger, so that no other agent waits for it.
#[derive(Clone, Copy, Debug, PartialEq, Eq)]
pub enum Beforehand {
    /// A copy of what the agent reaches: it opens a later collection.
    Copy,
    /// Marks: it empties.
    Marks,
    /// Nothing.
    Nothing,
}

impl<L: Planned> Member<L> {
    /// Whether it has closed, and asks for nothing any more.
    pub fn has_closed(&self) -> bool
        ensures { IsTrue result ↔ (need self.now.core ≡ asks_nothing) }
    {
        matches!(self.core.next(), Need::Ended)
    }

    /// Its next event, where that asks nobody else and is no command that asks the ledger unless a rule refuses it:
    /// whether it happened. Where it did not, or there is no memory, nothing has changed.
    pub fn perform(&mut self) -> Result<bool, NoMemory>
        ensures asks { IfOk result (λ done. IsTrue done ↔ ((need self.old.core ≡ asks_nobody) × (runs_for_ledger (due self.old.core.plan self.old.core.history) ≡ false))) }
        ensures moves { IfOk result (λ done. IsTrue done → GrowsByOne self.old.core self.new.core) }
        ensures left { IfOk result (λ done. done ≡ false → self.new ≡ self.old) }
        ensures err { OnErr result (self.new ≡ self.old) }
        ensures stake { self.new.stake ≡ self.old.stake }
    {
        self.core.perform_alone()
    }

    /// What its next event needs before it has the ledger.
    pub fn beforehand(&self) -> Beforehand
        ensures said { result ≡ beforehand (need self.now.core) }
        ensures copy { result ≡ Beforehand.Copy → need self.now.core ≡ asks_copy }
        ensures marks { result ≡ Beforehand.Marks → AsksMarks (need self.now.core) }
    {
        let record = self.core.record();
        match record.due() {
            Due::Run(_, command) => before_command(record, command),
            Due::EndJob => before_end(record),
            _ => Beforehand::Nothing,
        }
    }

    /// Opens a later collection; the copy may be marked beside the agent. Where there is no memory nothing has
    /// changed.
    pub fn begin_later(&mut self) -> Result<Arc<Snapshot>, NoMemory>
        requires { need self.old.core ≡ asks_copy }
        ensures ok { OnOk result (GrowsByOne self.old.core self.new.core) }
        ensures copy { IfOk result (λ copy. IsLaterCopy self.new.core (arc_value copy)) }
        ensures err { OnErr result (self.new ≡ self.old) }
        ensures stake { self.new.stake ≡ self.old.stake }
    {
        self.core.begin_later()
    }

    /// Its next event, which empties, by the marks that it asks for: those of what it reaches, or, to finish a later
    /// collection, those of its copy and of what derefs gave since. Its tables are emptied while others may have
    /// the ledger, whose lock is taken only to spend the tickets of buffer objects among what was emptied. Where
    /// there is no memory nothing has changed.
    pub fn empty<R: Wait>(
        &mut self,
        rt: &R,
        marks: &Marks,
        ledger: &Mutex<LedgerCore<L>>,
    ) -> Result<(), NoMemory>
        requires { AreAskedFor (need self.old.core) self.old.core marks.now }
        ensures ok { OnOk result (GrowsByOne self.old.core self.new.core) }
        ensures err { OnErr result (self.new ≡ self.old) }
    {
        let rack = take_out(&mut self.core, marks)?;
        spend_shared(rt, ledger, &mut self.stake, rack);
        Ok(())
    }

    /// One turn, beside other agents. Where the agent has its place and names other agents alone, it proceeds
    /// as by `step`, and waits where the rule says so and nowhere else; else it may end, and then nothing has
    /// changed.
    pub fn turn_beside(&mut self, ledger: &mut LedgerCore<L>) -> Result<Progress, NoMemory>
        ensures ok { IfOk result (λ p. ProceedsBeside p self.old self.new) }
        ensures placed { IsSeated self.old.core ledger.old → NamesOthers (need self.old.core) self.old.core.number ledger.old.agents → IfOk result (λ p. Proceeds p self.old self.new) }
        ensures heard { IsSeated self.old.core ledger.old → NamesOthers (need self.old.core) self.old.core.number ledger.old.agents → IfOk result (λ p. WaitsRightly p self.old.core ledger.old ledger.new) }
        ensures err { OnErr result (self.new.core ≡ self.old.core) }
        ensures others { OthersStay self.old.core.number ledger.old ledger.new }
    {
        let number = self.core.number();
        let agents = ledger.agents();
        if number >= agents || ledger.has_ended(number) {
            return Ok(Progress::Ended);
        }
        if !names_others(&self.core, agents) {
            return Ok(Progress::Ended);
        }
        ledger.look(&mut self.stake);
        ask(&mut self.core, &mut self.stake, ledger)
    }

    /// One turn, beside other agents, where the agent has its place and its next command reads or writes a word of shared
    /// memory, which names nobody and lets nobody go on who waits. None where another event comes next, and nothing has
    /// changed.
    pub fn turn_at_word(&mut self, ledger: &mut LedgerCore<L>) -> Result<Option<Progress>, NoMemory>
        ensures ok { IfOk result (λ o. IfSome o (λ p. Proceeds p self.old self.new)) }
        ensures asks { IsSeated self.old.core ledger.old → IfOk result (λ o. is_some o ≡ runs_access (due self.old.core.plan self.old.core.history)) }
        ensures none { IfOk result (λ o. IfNone o ((self.new ≡ self.old) × (ledger.new ≡ ledger.old))) }
        ensures err { OnErr result (self.new.core ≡ self.old.core) }
        ensures others { OthersStay self.old.core.number ledger.old ledger.new }
    {
        let number = self.core.number();
        if number >= ledger.agents() || ledger.has_ended(number) {
            return Ok(None);
        }
        ledger.look(&mut self.stake);
        ask_at_word(&mut self.core, &mut self.stake, ledger)
    }
}

// Empties what the marks that the agent asks for lack, and hands out the tickets of buffer objects among it.
fn take_out<L: LedgerName>(core: &mut AgentCore<L>, marks: &Marks) -> Result<Rack<L>, NoMemory>
    requires { AreAskedFor (need core.old) core.old marks.now }
    ensures ok { IfOk result (λ r. Empties (λ _. ⊤) core.old r.tickets core.new) }
    ensures err { OnErr result (core.new ≡ core.old) }
{
    if core.record().is_open() {
        core.finish_later(marks)
    } else {
        core.collect(marks)
    }
}

// What an agent needs before it has the ledger, where this command is due: one that collects, at once or later, is refused
// while a later collection is open, and no other one needs anything.
fn before_command(agent: &AgentRecord, command: &Command) -> Beforehand
    ensures { result ≡ beforehand (need_of agent.now (run None command.now)) }
{
    let open = agent.is_open();
    match command {
        Command::Collect if !open => Beforehand::Marks,
        Command::CollectLater if !open => Beforehand::Copy,
        _ => Beforehand::Nothing,
    }
}

// The same, where a job is to end: a later collection that is open is finished first.
fn before_end(agent: &AgentRecord) -> Beforehand
    ensures { result ≡ beforehand (need_of agent.now (due_end (snapshot agent.now.history))) }
{
    if agent.is_open() {
        Beforehand::Marks
    } else {
        Beforehand::Nothing
    }
}

// Whether whom an agent asks to post to, or waits for, is one of so many agents, and not itself. What it asks for is
// found only where it would post to no other: such a command may be refused.
fn names_others<L: LedgerName>(core: &AgentCore<L>, agents: usize) -> bool
    ensures only { IsTrue result → NamesOthers (need core.now) core.now.number agents }
    ensures all { NamesOthers (need core.now) core.now.number agents → IsTrue result }
{
    let number = core.number();
    match core.record().due() {
        Due::Receive { sender, .. } => is_other(sender, number, agents),
        Due::Run(_, Command::Post { receiver, .. }) => {
            is_other(*receiver, number, agents) || are_others(&core.next(), number, agents)
        }
        _ => true,
    }
}

// Whether this is one of so many agents, and not the one of this number.
fn is_other(agent: usize, number: usize, agents: usize) -> bool
    ensures { IsTrue result ↔ ((agent < agents) × (number ≢ agent)) }
{
    agent < agents && agent != number
}

// Whether whom an agent that asks this asks to post to, or waits for, is one of so many agents, and not itself.
fn are_others(asked: &Need<'_>, number: usize, agents: usize) -> bool
    ensures only { IsTrue result → NamesOthers (shown asked.now) number agents }
    ensures all { NamesOthers (shown asked.now) number agents → IsTrue result }
{
    match asked {
        Need::Message(sender) => is_other(*sender, number, agents),
        Need::Ledger(request) => match request {
            Request::Post { receiver, .. } | Request::PostBuffer { receiver, .. } => {
                is_other(*receiver, number, agents)
            }
            _ => true,
        },
        _ => true,
    }
}
