//! What an agent asks its caller for.

ghost use Rattle.std.specs.Prelude.{◌≡◌, ◌↔◌, false, None};
ghost use Rattle.std.specs.Option.{option_map};
ghost use Rattle.es_event.specs.Later.{collects_now, snapshot};
ghost use Rattle.es_event.specs.Order.{run, due_end};
ghost use Rattle.es_rules.specs.Needs.{asks_nobody, is_for_ledger, need, need_of, request};
ghost use Rattle.es_rules.specs.Shown.{requested, shown};

use crate::requests::{block_request, post_request, word_request};
use es_event::{Command, Due, Task};
use es_record::AgentRecord;
use es_value::{Id, Value};

/// What the ledger is asked for. Its answer goes back to the agent that asked.
#[derive(Clone, Copy, Debug)]
pub enum Request<'a> {
    /// A new block of so many words of 32 bits, and its first ticket (SharedArrayBuffer ( length )).
    NewBlock {
        words: u32,
    },
    /// To post a value that has no identity to another agent.
    Post {
        receiver: usize,
        value: &'a Value,
    },
    /// To post the block of a buffer object to another agent, with a ticket of the message's own.
    PostBuffer {
        receiver: usize,
        buffer: Id,
    },
    /// What is done at the word at an index of a buffer object's block.
    Word {
        buffer: Id,
        index: usize,
        task: Task,
    },
}

/// What an agent asks for next.
#[derive(Clone, Copy, Debug)]
pub enum Need<'a> {
    /// A step that asks nobody else: a job's beginning or end, a cell's taking, or a command. One that
    /// will be refused is among them.
    Local,
    /// The marks of what it reaches: its next command empties all else.
    Collect,
    /// A copy of its graph, by which its next command opens a later collection.
    Later,
    /// The marks of that copy, with what derefs gave since as roots besides its own: before the running job
    /// ends, the open later collection is to be finished.
    Finish,
    /// What the ledger answers to its next command, which no rule refuses.
    Ledger(Request<'a>),
    /// The message of this agent that its next job waits for, or to skip that job.
    Message(usize),
    /// Its closing: all jobs of its plan are done.
    Close,
    /// Nothing: it has closed.
    Ended,
}

/// What the agent asks for next.
#[inline(always)]
pub fn asks(agent: &AgentRecord) -> Need<'_>
    ensures { shown result ≡ need agent.now }
{
    match agent.due() {
        Due::Run(_, command) => asks_at(agent, command),
        Due::Receive { sender, .. } => Need::Message(sender),
        Due::Begin(_) | Due::Clean(_) | Due::Take(_) => Need::Local,
        Due::EndJob => for_end(agent),
        Due::Close => Need::Close,
        Due::Nothing => Need::Ended,
    }
}

/// What the agent asks for where this command is due. While a later collection is open, another is refused.
#[inline(always)]
pub fn asks_at<'a>(agent: &'a AgentRecord, command: &Command) -> Need<'a>
    ensures { shown result ≡ need_of agent.now (run None command.now) }
{
    match command {
        Command::Collect => for_collection(agent),
        Command::CollectLater => for_opening(agent),
        _ => match request_of(agent, command) {
            Some(request) => Need::Ledger(request),
            None => Need::Local,
        },
    }
}

/// What the agent asks for where it is to collect.
fn for_collection<'a>(agent: &'a AgentRecord) -> Need<'a>
    ensures { shown result ≡ need_of agent.now (run None Command.Collect) }
{
    if agent.is_open() {
        Need::Local
    } else {
        Need::Collect
    }
}

/// What the agent asks for where it is to open a later collection.
fn for_opening<'a>(agent: &'a AgentRecord) -> Need<'a>
    ensures { shown result ≡ need_of agent.now (run None Command.CollectLater) }
{
    if agent.is_open() {
        Need::Local
    } else {
        Need::Later
    }
}

/// What the agent asks for where its job is to end: an open later collection is finished first.
fn for_end<'a>(agent: &'a AgentRecord) -> Need<'a>
    ensures { shown result ≡ need_of agent.now (due_end (snapshot agent.now.history)) }
{
    if agent.is_open() {
        Need::Finish
    } else {
        Need::Local
    }
}

/// Whether a command that is due asks somebody: for marks or a copy, where no later collection is open, or the
/// ledger.
#[inline(always)]
pub fn asks_somebody(agent: &AgentRecord, command: &Command) -> bool
    ensures asks { (result ≡ false) ↔ (need_of agent.now (run None command.now) ≡ asks_nobody) }
    ensures here { result ≡ false → collects_now agent.now.history command.now ≡ false }
    ensures local { result ≡ false → request agent.now command.now ≡ None }
{
    match command {
        Command::Collect | Command::CollectLater => !agent.is_open(),
        Command::SharedArrayBuffer { .. } | Command::Atomic(_) | Command::Post { .. } => {
            request_of(agent, command).is_some()
        }
        // no other command asks anybody
        _ => false,
    }
}

/// What the command asks the ledger for, unless a rule refuses it.
#[inline(always)]
fn request_of<'a>(agent: &'a AgentRecord, command: &Command) -> Option<Request<'a>>
    ensures { option_map requested result ≡ request agent.now command.now }
{
    match command {
        Command::SharedArrayBuffer { words, .. } => block_request(agent, *words),
        Command::Atomic(atomic) => word_request(agent, atomic),
        Command::Post { receiver, from } => post_request(agent, *receiver, from),
        // no other command asks the ledger
        _ => None,
    }
}

/// Whether the command asks the ledger for something, unless a rule refuses it.
#[inline(always)]
pub fn is_for_ledger(command: &Command) -> bool
    ensures { result ≡ is_for_ledger command.now }
{
    matches!(
        command,
        Command::SharedArrayBuffer { .. } | Command::Atomic(_) | Command::Post { .. }
    )
}
