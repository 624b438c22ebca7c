//! What an agent is handed for its next event. Each of these makes one call of the ledger that may find no
//! memory; then nothing has changed.

ghost use Rattle.std.specs.Prelude.{◌≡◌, ◌<◌, false, IfOk, OnErr};
ghost use Rattle.es_event.specs.Ledger.{ended};
ghost use Rattle.es_rules.specs.Needs.{need, asks_ledger, asks_message, for_block, for_post, for_buffer_post, for_word};
ghost use Rattle.es_cluster.specs.Members.{Holds};
ghost use Rattle.calls.specs.Suiting.{Suits};

use crate::given::Given;
use es_agent::{AgentCore, Need, Request};
use es_event::{Access, Task, WaitResult};
use es_ledger::{LedgerCore, Letter, Message, Turn};
use es_ticket::{LedgerName, Stake};
use es_value::{Id, NoMemory, Value};

/// What the agent is handed for its next event.
pub(crate) fn ask<L: LedgerName>(
    core: &AgentCore<L>,
    stake: &mut Stake<L>,
    ledger: &mut LedgerCore<L>,
) -> Result<Given<L>, NoMemory>
    requires { Holds core.now stake.old }
    ensures ok { IfOk result (λ g. Suits g core.now stake.new) }
    ensures err { OnErr result (Holds core.now stake.new) }
    ensures agents { ledger.new.agents ≡ ledger.old.agents }
{
    let number = core.number();
    if number >= ledger.agents() || ledger.has_ended(number) {
        return Ok(Given::End);
    }
    match core.next() {
        Need::Ledger(request) => match request {
            Request::NewBlock { words } => open(core, stake, ledger, words),
            Request::Post { receiver, value } => {
                let copy = value.copy()?;
                post(core, stake, ledger, receiver, copy)
            }
            Request::PostBuffer { receiver, buffer } => {
                post_buffer(core, stake, ledger, receiver, buffer)
            }
            Request::Word {
                buffer,
                index,
                task,
            } => do_at_word(core, stake, ledger, buffer, index, task),
        },
        Need::Message(sender) => hear(core, stake, ledger, sender),
        Need::Local | Need::Collect | Need::Later | Need::Finish | Need::Close => Ok(Given::Alone),
        Need::Ended => Ok(Given::End),
    }
}

/// The first ticket of a new block.
fn open<L: LedgerName>(
    core: &AgentCore<L>,
    stake: &mut Stake<L>,
    ledger: &mut LedgerCore<L>,
    words: u32,
) -> Result<Given<L>, NoMemory>
    requires due { need core.now ≡ asks_ledger (for_block words) }
    requires held { Holds core.now stake.old }
    requires known { core.now.number < ledger.old.agents }
    ensures ok { IfOk result (λ g. Suits g core.now stake.new) }
    ensures err { OnErr result (Holds core.now stake.new) }
    ensures agents { ledger.new.agents ≡ ledger.old.agents }
{
    let ticket = ledger.open_block(stake, words)?;
    Ok(Given::Block(ticket))
}

/// That a value was posted.
fn post<L: LedgerName>(
    core: &AgentCore<L>,
    stake: &Stake<L>,
    ledger: &mut LedgerCore<L>,
    receiver: usize,
    value: Value,
) -> Result<Given<L>, NoMemory>
    requires due { need core.now ≡ asks_ledger (for_post receiver value) }
    requires held { Holds core.now stake.now }
    requires known { core.now.number < ledger.old.agents }
    ensures ok { IfOk result (λ g. Suits g core.now stake.now) }
    ensures err { OnErr result (Holds core.now stake.now) }
    ensures agents { ledger.new.agents ≡ ledger.old.agents }
{
    let number = core.number();
    if receiver >= ledger.agents() || receiver == number {
        return Ok(Given::End);
    }
    ledger.post(number, receiver, value)?;
    Ok(Given::Done)
}

/// That a buffer object's block was posted.
fn post_buffer<L: LedgerName>(
    core: &AgentCore<L>,
    stake: &mut Stake<L>,
    ledger: &mut LedgerCore<L>,
    receiver: usize,
    buffer: Id,
) -> Result<Given<L>, NoMemory>
    requires due { need core.now ≡ asks_ledger (for_buffer_post receiver buffer) }
    requires held { Holds core.now stake.old }
    requires known { core.now.number < ledger.old.agents }
    ensures ok { IfOk result (λ g. Suits g core.now stake.new) }
    ensures err { OnErr result (Holds core.now stake.new) }
    ensures agents { ledger.new.agents ≡ ledger.old.agents }
{
    let number = core.number();
    if receiver >= ledger.agents() || receiver == number {
        return Ok(Given::End);
    }
    let _ = core.history();
    ledger.post_buffer(stake, receiver, core.ticket(buffer))?;
    Ok(Given::Done)
}

/// What came of this at the word at an index of a buffer object's block.
fn do_at_word<L: LedgerName>(
    core: &AgentCore<L>,
    stake: &mut Stake<L>,
    ledger: &mut LedgerCore<L>,
    buffer: Id,
    index: usize,
    task: Task,
) -> Result<Given<L>, NoMemory>
    requires due { need core.now ≡ asks_ledger (for_word buffer index task) }
    requires held { Holds core.now stake.old }
    requires known { core.now.number < ledger.old.agents }
    requires going { ended ledger.old.history core.now.number ≡ false }
    ensures ok { IfOk result (λ g. Suits g core.now stake.new) }
    ensures err { OnErr result (Holds core.now stake.new) }
    ensures agents { ledger.new.agents ≡ ledger.old.agents }
{
    match task {
        Task::Access(access) => access_word(core, stake, ledger, buffer, index, access),
        Task::Sleep(word) => wait(core, stake, ledger, buffer, index, word),
        Task::Notify(count) => notify(core, stake, ledger, buffer, index, count),
    }
}

/// The word that was there, or that the access was done where it gives none.
fn access_word<L: LedgerName>(
    core: &AgentCore<L>,
    stake: &mut Stake<L>,
    ledger: &mut LedgerCore<L>,
    buffer: Id,
    index: usize,
    access: Access,
) -> Result<Given<L>, NoMemory>
    requires due { need core.now ≡ asks_ledger (for_word buffer index (Task.Access access)) }
    requires held { Holds core.now stake.old }
    ensures ok { IfOk result (λ g. Suits g core.now stake.new) }
    ensures err { OnErr result (Holds core.now stake.new) }
    ensures agents { ledger.new.agents ≡ ledger.old.agents }
{
    let _ = core.history();
    let old = ledger.edit(stake, core.ticket(buffer), index, access.edit)?;
    if access.gives_word {
        Ok(Given::Word(old))
    } else {
        Ok(Given::Done)
    }
}

/// How the wait ended, or nothing where the agent sleeps on.
fn wait<L: LedgerName>(
    core: &AgentCore<L>,
    stake: &mut Stake<L>,
    ledger: &mut LedgerCore<L>,
    buffer: Id,
    index: usize,
    word: u32,
) -> Result<Given<L>, NoMemory>
    requires due { need core.now ≡ asks_ledger (for_word buffer index (Task.Sleep word)) }
    requires held { Holds core.now stake.old }
    requires known { core.now.number < ledger.old.agents }
    requires going { ended ledger.old.history core.now.number ≡ false }
    ensures ok { IfOk result (λ g. Suits g core.now stake.new) }
    ensures err { OnErr result (Holds core.now stake.new) }
    ensures agents { ledger.new.agents ≡ ledger.old.agents }
{
    let _ = core.history();
    match ledger.wait_at(stake, core.ticket(buffer), index, word)? {
        None => Ok(Given::WaitEnded(WaitResult::NotEqual)),
        Some(turn) => match turn {
            Turn::Ready => Ok(Given::WaitEnded(WaitResult::Woken)),
            Turn::Stay => Ok(Given::Wait),
            Turn::Skip => Ok(Given::WaitEnded(WaitResult::TimedOut)),
        },
    }
}

/// How many agents were woken.
fn notify<L: LedgerName>(
    core: &AgentCore<L>,
    stake: &mut Stake<L>,
    ledger: &mut LedgerCore<L>,
    buffer: Id,
    index: usize,
    count: u32,
) -> Result<Given<L>, NoMemory>
    requires due { need core.now ≡ asks_ledger (for_word buffer index (Task.Notify count)) }
    requires held { Holds core.now stake.old }
    ensures ok { IfOk result (λ g. Suits g core.now stake.new) }
    ensures err { OnErr result (Holds core.now stake.new) }
    ensures agents { ledger.new.agents ≡ ledger.old.agents }
{
    let _ = core.history();
    let taken = ledger.notify(stake, core.ticket(buffer), index, count)?;
    Ok(Given::Word(taken))
}

/// What came in a message, that none comes any more, or nothing.
fn hear<L: LedgerName>(
    core: &AgentCore<L>,
    stake: &mut Stake<L>,
    ledger: &mut LedgerCore<L>,
    sender: usize,
) -> Result<Given<L>, NoMemory>
    requires due { need core.now ≡ asks_message sender }
    requires held { Holds core.now stake.old }
    requires known { core.now.number < ledger.old.agents }
    requires going { ended ledger.old.history core.now.number ≡ false }
    ensures ok { IfOk result (λ g. Suits g core.now stake.new) }
    ensures err { OnErr result (Holds core.now stake.new) }
    ensures agents { ledger.new.agents ≡ ledger.old.agents }
{
    let number = core.number();
    if sender >= ledger.agents() || sender == number {
        return Ok(Given::End);
    }
    match ledger.await_message(number, sender)? {
        Turn::Ready => Ok(take(core, stake, ledger, sender)),
        Turn::Stay => Ok(Given::Wait),
        Turn::Skip => Ok(Given::Skip),
    }
}

/// What came in the message of a sender. It takes no memory.
fn take<L: LedgerName>(
    core: &AgentCore<L>,
    stake: &mut Stake<L>,
    ledger: &mut LedgerCore<L>,
    sender: usize,
) -> Given<L>
    requires due { need core.now ≡ asks_message sender }
    requires held { Holds core.now stake.old }
    requires known { (sender < ledger.old.agents) × (core.now.number < ledger.old.agents) }
    ensures given { Suits result core.now stake.new }
    ensures agents { ledger.new.agents ≡ ledger.old.agents }
{
    let Some(Message { sender: _, body }) = ledger.take(stake, sender) else {
        return Given::Wait;
    };
    match body {
        Letter::Plain(value) => Given::Plain(value),
        Letter::Block(ticket) => Given::Block(ticket),
    }
}
