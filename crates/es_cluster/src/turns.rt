//! A turn of an agent: what it asks for is done in the ledger, and it takes the answer.

ghost use Rattle.std.specs.Prelude.{◌≡◌, ◌<◌, false, IsTrue, OnErr, IfOk, IfSome, IfNone, is_some};
ghost use Rattle.es_event.specs.Order.{due};
ghost use Rattle.es_record.specs.Graph.{AreMarksOf, AreLateMarks};
ghost use Rattle.es_rules.specs.Needs.{need, asks_nobody, asks_marks, asks_copy, asks_late_marks, asks_closing};
ghost use Rattle.es_cluster.specs.Members.{member_of};
ghost use Rattle.es_cluster.specs.Turned.{WaitsRightly, Keeps, NamesOthers, Proceeds, StaysTied, runs_access};
ghost use Rattle.es_cluster.specs.Midway.{IsHeld};

mod asking;
mod hearing;
mod words;

use crate::member::Progress;
use crate::spending::spend_all;
use asking::{open, post, post_buffer};
use es_agent::{AgentCore, Need, Request};
use es_event::{Command, Due};
use es_ledger::LedgerCore;
use es_mark::Marks;
use es_rules::asks_at;
use es_ticket::{LedgerName, Stake};
use es_value::NoMemory;
use hearing::hear;
use words::do_at_word;

/// One event of the agent, or none where it waits, sleeps or has ended. Most events ask nobody, so one that does not is tried
/// first, but for commands that likely ask the ledger.
pub(crate) fn turn<L: LedgerName>(
    core: &mut AgentCore<L>,
    stake: &mut Stake<L>,
    ledger: &mut LedgerCore<L>,
) -> Result<Progress, NoMemory>
    requires ready { IsHeld core.old stake.old ledger.old }
    requires others { NamesOthers (need core.old) core.old.number ledger.old.agents }
    ensures ok { IfOk result (λ p. Proceeds p (member_of core.old stake.old) (member_of core.new stake.new)) }
    ensures told { IfOk result (λ p. WaitsRightly p core.old ledger.old ledger.new) }
    ensures err { OnErr result (core.new ≡ core.old) }
    ensures tied { IfOk result (λ p. StaysTied p core.old ledger.old core.new ledger.new) }
    ensures keeps { Keeps core.old ledger.old core.new stake.new ledger.new }
{
    if perform_alone(core, stake, ledger)? {
        return Ok(Progress::Moved);
    }
    ask(core, stake, ledger)
}

/// The same, where it is likely that somebody is asked: what the agent asks for is found first.
pub(crate) fn ask<L: LedgerName>(
    core: &mut AgentCore<L>,
    stake: &mut Stake<L>,
    ledger: &mut LedgerCore<L>,
) -> Result<Progress, NoMemory>
    requires ready { IsHeld core.old stake.old ledger.old }
    requires others { NamesOthers (need core.old) core.old.number ledger.old.agents }
    ensures ok { IfOk result (λ p. Proceeds p (member_of core.old stake.old) (member_of core.new stake.new)) }
    ensures told { IfOk result (λ p. WaitsRightly p core.old ledger.old ledger.new) }
    ensures err { OnErr result (core.new ≡ core.old) }
    ensures tied { IfOk result (λ p. StaysTied p core.old ledger.old core.new ledger.new) }
    ensures keeps { Keeps core.old ledger.old core.new stake.new ledger.new }
{
    match core.next() {
        Need::Local => perform(core, stake, ledger),
        Need::Collect => collect(core, stake, ledger),
        Need::Later => begin_later(core, stake, ledger),
        Need::Finish => finish(core, stake, ledger),
        Need::Ledger(request) => match request {
            Request::NewBlock { words } => open(core, stake, ledger, words),
            Request::Post { receiver, value } => {
                let copy = value.copy()?;
                post(core, stake, ledger, receiver, copy)
            }
            Request::PostBuffer { receiver, buffer } => {
                post_buffer(core, stake, ledger, receiver, buffer)
            }
            Request::Word {
                buffer,
                index,
                task,
            } => do_at_word(core, stake, ledger, buffer, index, task),
        },
        Need::Message(sender) => hear(core, stake, ledger, sender),
        Need::Close => close(core, stake, ledger),
        Need::Ended => Ok(Progress::Ended),
    }
}

/// The same, where a command that reads or writes a word of shared memory is due; none, and nothing has changed, where
/// another event comes next.
#[inline(always)]
pub(crate) fn ask_at_word<L: LedgerName>(
    core: &mut AgentCore<L>,
    stake: &mut Stake<L>,
    ledger: &mut LedgerCore<L>,
) -> Result<Option<Progress>, NoMemory>
    requires ready { IsHeld core.old stake.old ledger.old }
    ensures ok { IfOk result (λ o. IfSome o (λ p. Proceeds p (member_of core.old stake.old) (member_of core.new stake.new))) }
    ensures asks { IfOk result (λ o. is_some o ≡ runs_access (due core.old.plan core.old.history)) }
    ensures none { IfOk result (λ o. IfNone o ((core.new ≡ core.old) × (stake.new ≡ stake.old) × (ledger.new ≡ ledger.old))) }
    ensures err { OnErr result (core.new ≡ core.old) }
    ensures keeps { Keeps core.old ledger.old core.new stake.new ledger.new }
{
    let record = core.record();
    let Due::Run(_, command) = record.due() else {
        return Ok(None);
    };
    let Command::Atomic(atomic) = command else {
        return Ok(None);
    };
    if atomic.operation().is_of_sleep() {
        return Ok(None);
    }
    let progress = match asks_at(record, command) {
        Need::Ledger(request) => match request {
            Request::Word {
                buffer,
                index,
                task,
            } => do_at_word(core, stake, ledger, buffer, index, task)?,
            _ => unreachable!(),
        },
        Need::Local => perform(core, stake, ledger)?,
        _ => unreachable!(),
    };
    Ok(Some(progress))
}

// A step that asks nobody else.
fn perform<L: LedgerName>(
    core: &mut AgentCore<L>,
    stake: &Stake<L>,
    ledger: &LedgerCore<L>,
) -> Result<Progress, NoMemory>
    requires due { need core.old ≡ asks_nobody }
    requires ready { IsHeld core.old stake.now ledger.now }
    ensures ok { IfOk result (λ p. Proceeds p (member_of core.old stake.now) (member_of core.new stake.now)) }
    ensures told { IfOk result (λ p. WaitsRightly p core.old ledger.now ledger.now) }
    ensures err { OnErr result (core.new ≡ core.old) }
    ensures tied { IfOk result (λ p. StaysTied p core.old ledger.now core.new ledger.now) }
    ensures keeps { Keeps core.old ledger.now core.new stake.now ledger.now }
{
    let _ = core.history();
    core.perform()?;
    Ok(Progress::Moved)
}

// The same, where one is due that likely asks nobody: whether it was taken.
fn perform_alone<L: LedgerName>(
    core: &mut AgentCore<L>,
    stake: &Stake<L>,
    ledger: &LedgerCore<L>,
) -> Result<bool, NoMemory>
    requires ready { IsHeld core.old stake.now ledger.now }
    ensures ok { IfOk result (λ done. IsTrue done → Proceeds Progress.Moved (member_of core.old stake.now) (member_of core.new stake.now)) }
    ensures told { IfOk result (λ done. IsTrue done → WaitsRightly Progress.Moved core.old ledger.now ledger.now) }
    ensures left { IfOk result (λ done. done ≡ false → core.new ≡ core.old) }
    ensures err { OnErr result (core.new ≡ core.old) }
    ensures tied { IfOk result (λ done. IsTrue done → StaysTied Progress.Moved core.old ledger.now core.new ledger.now) }
    ensures keeps { Keeps core.old ledger.now core.new stake.now ledger.now }
{
    let _ = core.history();
    core.perform_alone()
}

// A collection by the agent's own marks.
fn collect<L: LedgerName>(
    core: &mut AgentCore<L>,
    stake: &mut Stake<L>,
    ledger: &mut LedgerCore<L>,
) -> Result<Progress, NoMemory>
    requires due { need core.old ≡ asks_marks }
    requires ready { IsHeld core.old stake.old ledger.old }
    ensures ok { IfOk result (λ p. Proceeds p (member_of core.old stake.old) (member_of core.new stake.new)) }
    ensures told { IfOk result (λ p. WaitsRightly p core.old ledger.old ledger.new) }
    ensures err { OnErr result (core.new ≡ core.old) }
    ensures tied { IfOk result (λ p. StaysTied p core.old ledger.old core.new ledger.new) }
    ensures keeps { Keeps core.old ledger.old core.new stake.new ledger.new }
{
    let marks = core.marks()?;
    empty(core, stake, ledger, &marks)
}

/// A collection by these marks: the tickets of emptied buffer objects are spent.
fn empty<L: LedgerName>(
    core: &mut AgentCore<L>,
    stake: &mut Stake<L>,
    ledger: &mut LedgerCore<L>,
    marks: &Marks,
) -> Result<Progress, NoMemory>
    requires due { need core.old ≡ asks_marks }
    requires marks { AreMarksOf core.old marks.now }
    requires ready { IsHeld core.old stake.old ledger.old }
    ensures ok { IfOk result (λ p. Proceeds p (member_of core.old stake.old) (member_of core.new stake.new)) }
    ensures told { IfOk result (λ p. WaitsRightly p core.old ledger.old ledger.new) }
    ensures err { OnErr result (core.new ≡ core.old) }
    ensures tied { IfOk result (λ p. StaysTied p core.old ledger.old core.new ledger.new) }
    ensures keeps { Keeps core.old ledger.old core.new stake.new ledger.new }
{
    let rack = core.collect(marks)?;
    spend_all(ledger, stake, rack);
    Ok(Progress::Moved)
}

// A later collection is opened: the agent keeps the copy of its graph.
fn begin_later<L: LedgerName>(
    core: &mut AgentCore<L>,
    stake: &Stake<L>,
    ledger: &LedgerCore<L>,
) -> Result<Progress, NoMemory>
    requires due { need core.old ≡ asks_copy }
    requires ready { IsHeld core.old stake.now ledger.now }
    ensures ok { IfOk result (λ p. Proceeds p (member_of core.old stake.now) (member_of core.new stake.now)) }
    ensures told { IfOk result (λ p. WaitsRightly p core.old ledger.now ledger.now) }
    ensures err { OnErr result (core.new ≡ core.old) }
    ensures tied { IfOk result (λ p. StaysTied p core.old ledger.now core.new ledger.now) }
    ensures keeps { Keeps core.old ledger.now core.new stake.now ledger.now }
{
    let _copy = core.begin_later()?;
    Ok(Progress::Moved)
}

// An open later collection is finished, by the agent's own marks.
fn finish<L: LedgerName>(
    core: &mut AgentCore<L>,
    stake: &mut Stake<L>,
    ledger: &mut LedgerCore<L>,
) -> Result<Progress, NoMemory>
    requires due { need core.old ≡ asks_late_marks }
    requires ready { IsHeld core.old stake.old ledger.old }
    ensures ok { IfOk result (λ p. Proceeds p (member_of core.old stake.old) (member_of core.new stake.new)) }
    ensures told { IfOk result (λ p. WaitsRightly p core.old ledger.old ledger.new) }
    ensures err { OnErr result (core.new ≡ core.old) }
    ensures tied { IfOk result (λ p. StaysTied p core.old ledger.old core.new ledger.new) }
    ensures keeps { Keeps core.old ledger.old core.new stake.new ledger.new }
{
    let marks = core.late_marks()?;
    empty_late(core, stake, ledger, &marks)
}

/// An open later collection is finished by these marks: the tickets of emptied buffer objects are spent.
fn empty_late<L: LedgerName>(
    core: &mut AgentCore<L>,
    stake: &mut Stake<L>,
    ledger: &mut LedgerCore<L>,
    marks: &Marks,
) -> Result<Progress, NoMemory>
    requires due { need core.old ≡ asks_late_marks }
    requires marks { AreLateMarks core.old marks.now }
    requires ready { IsHeld core.old stake.old ledger.old }
    ensures ok { IfOk result (λ p. Proceeds p (member_of core.old stake.old) (member_of core.new stake.new)) }
    ensures told { IfOk result (λ p. WaitsRightly p core.old ledger.old ledger.new) }
    ensures err { OnErr result (core.new ≡ core.old) }
    ensures tied { IfOk result (λ p. StaysTied p core.old ledger.old core.new ledger.new) }
    ensures keeps { Keeps core.old ledger.old core.new stake.new ledger.new }
{
    let rack = core.finish_later(marks)?;
    spend_all(ledger, stake, rack);
    Ok(Progress::Moved)
}

// The agent closes: all its tickets are spent, and it ends in the ledger.
fn close<L: LedgerName>(
    core: &mut AgentCore<L>,
    stake: &mut Stake<L>,
    ledger: &mut LedgerCore<L>,
) -> Result<Progress, NoMemory>
    requires due { need core.old ≡ asks_closing }
    requires ready { IsHeld core.old stake.old ledger.old }
    ensures ok { IfOk result (λ p. Proceeds p (member_of core.old stake.old) (member_of core.new stake.new)) }
    ensures told { IfOk result (λ p. WaitsRightly p core.old ledger.old ledger.new) }
    ensures err { OnErr result (core.new ≡ core.old) }
    ensures tied { IfOk result (λ p. StaysTied p core.old ledger.old core.new ledger.new) }
    ensures keeps { Keeps core.old ledger.old core.new stake.new ledger.new }
{
    let rack = core.close();
    spend_all(ledger, stake, rack);
    ledger.ended(core.number());
    Ok(Progress::Moved)
}
