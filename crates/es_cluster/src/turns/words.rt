//! What an agent does at words of shared memory: it reads and writes them, sleeps there, and wakes those that sleep.

ghost use Rattle.std.specs.Prelude.{ℕ, ◌≡◌, OnOk, OnErr, IfOk};
ghost use Rattle.es_rules.specs.Needs.{need, asks_ledger, for_word};
ghost use Rattle.es_cluster.specs.Members.{member_of};
ghost use Rattle.es_cluster.specs.Turned.{WaitsRightly, Keeps, Proceeds, StaysTied};
ghost use Rattle.es_agent.specs.Tickets.{DoesWith};
ghost use Rattle.es_cluster.specs.Midway.{IsHeld, answer_to, wait_result};

use crate::member::Progress;
use es_agent::AgentCore;
use es_event::{Access, Task, WaitResult};
use es_ledger::{LedgerCore, Turn};
use es_ticket::{LedgerName, Stake};
use es_value::{Id, NoMemory};

/// The agent does this at the word at an index of a buffer object's block.
#[inline(always)]
pub(crate) fn do_at_word<L: LedgerName>(
    core: &mut AgentCore<L>,
    stake: &mut Stake<L>,
    ledger: &mut LedgerCore<L>,
    buffer: Id,
    index: usize,
    task: Task,
) -> Result<Progress, NoMemory>
    requires due { need core.old ≡ asks_ledger (for_word buffer index task) }
    requires ready { IsHeld core.old stake.old ledger.old }
    ensures ok { IfOk result (λ p. Proceeds p (member_of core.old stake.old) (member_of core.new stake.new)) }
    ensures told { IfOk result (λ p. WaitsRightly p core.old ledger.old ledger.new) }
    ensures err { OnErr result (core.new ≡ core.old) }
    ensures tied { IfOk result (λ p. StaysTied p core.old ledger.old core.new ledger.new) }
    ensures keeps { Keeps core.old ledger.old core.new stake.new ledger.new }
{
    match task {
        Task::Access(access) => access_word(core, stake, ledger, buffer, index, access),
        Task::Sleep(word) => sleep(core, stake, ledger, buffer, index, word),
        Task::Notify(count) => notify(core, stake, ledger, buffer, index, count),
    }
}

// It reads or writes the word.
#[inline(always)]
fn access_word<L: LedgerName>(
    core: &mut AgentCore<L>,
    stake: &mut Stake<L>,
    ledger: &mut LedgerCore<L>,
    buffer: Id,
    index: usize,
    access: Access,
) -> Result<Progress, NoMemory>
    requires due { need core.old ≡ asks_ledger (for_word buffer index (Task.Access access)) }
    requires ready { IsHeld core.old stake.old ledger.old }
    ensures ok { IfOk result (λ p. Proceeds p (member_of core.old stake.old) (member_of core.new stake.new)) }
    ensures told { IfOk result (λ p. WaitsRightly p core.old ledger.old ledger.new) }
    ensures err { OnErr result (core.new ≡ core.old) }
    ensures tied { IfOk result (λ p. StaysTied p core.old ledger.old core.new ledger.new) }
    ensures keeps { Keeps core.old ledger.old core.new stake.new ledger.new }
{
    let _ = core.history();
    let old = ledger.edit(stake, core.ticket(buffer), index, access.edit)?;
    answer(core, access, old)?;
    Ok(Progress::Moved)
}

/// The agent takes the word that was there, where its command gives it.
fn answer<L: LedgerName>(core: &mut AgentCore<L>, access: Access, old: u32) -> Result<(), NoMemory>
    requires due { (o i : ℕ) × (need core.old ≡ asks_ledger (for_word o i (Task.Access access))) }
    ensures ok { OnOk result (DoesWith core.old (answer_to access old) core.new) }
    ensures err { OnErr result (core.new ≡ core.old) }
{
    if access.gives_word {
        core.answer_word(old)
    } else {
        core.answer_done()
    }
}

// It wakes those that sleep there first, so many at most (ECMA-262, Atomics.notify).
#[inline(never)]
fn notify<L: LedgerName>(
    core: &mut AgentCore<L>,
    stake: &mut Stake<L>,
    ledger: &mut LedgerCore<L>,
    buffer: Id,
    index: usize,
    count: u32,
) -> Result<Progress, NoMemory>
    requires due { need core.old ≡ asks_ledger (for_word buffer index (Task.Notify count)) }
    requires ready { IsHeld core.old stake.old ledger.old }
    ensures ok { IfOk result (λ p. Proceeds p (member_of core.old stake.old) (member_of core.new stake.new)) }
    ensures told { IfOk result (λ p. WaitsRightly p core.old ledger.old ledger.new) }
    ensures err { OnErr result (core.new ≡ core.old) }
    ensures tied { IfOk result (λ p. StaysTied p core.old ledger.old core.new ledger.new) }
    ensures keeps { Keeps core.old ledger.old core.new stake.new ledger.new }
{
    let _ = core.history();
    let taken = ledger.notify(stake, core.ticket(buffer), index, count)?;
    core.answer_word(taken)?;
    Ok(Progress::Moved)
}

// It sleeps where the word is this one, and goes on once it was taken or its time-out has passed (ECMA-262,
// Atomics.wait).
#[inline(never)]
fn sleep<L: LedgerName>(
    core: &mut AgentCore<L>,
    stake: &mut Stake<L>,
    ledger: &mut LedgerCore<L>,
    buffer: Id,
    index: usize,
    word: u32,
) -> Result<Progress, NoMemory>
    requires due { need core.old ≡ asks_ledger (for_word buffer index (Task.Sleep word)) }
    requires ready { IsHeld core.old stake.old ledger.old }
    ensures ok { IfOk result (λ p. Proceeds p (member_of core.old stake.old) (member_of core.new stake.new)) }
    ensures told { IfOk result (λ p. WaitsRightly p core.old ledger.old ledger.new) }
    ensures err { OnErr result (core.new ≡ core.old) }
    ensures tied { IfOk result (λ p. StaysTied p core.old ledger.old core.new ledger.new) }
    ensures keeps { Keeps core.old ledger.old core.new stake.new ledger.new }
{
    let _ = core.history();
    let told = ledger.wait_at(stake, core.ticket(buffer), index, word)?;
    match wait_result(told) {
        Some(ended) => {
            core.answer_wait(ended)?;
            Ok(Progress::Moved)
        }
        None => Ok(Progress::Waiting),
    }
}

/// How a wait ended of which the ledger says this, where it has ended.
fn wait_result(told: Option<Turn>) -> Option<WaitResult>
    ensures { result ≡ wait_result told }
{
    match told {
        None => Some(WaitResult::NotEqual),
        Some(turn) => match turn {
            Turn::Ready => Some(WaitResult::Woken),
            Turn::Stay => None,
            Turn::Skip => Some(WaitResult::TimedOut),
        },
    }
}
