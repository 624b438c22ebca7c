//! What happens in the ledger of an agent cluster: to blocks, tickets, ports and agents.

use crate::Change;
use es_value::Value;

/// What a message carries.
pub enum Body {
    /// A value without an identity: undefined, a boolean, a number, a text or a registered symbol.
    Plain(Value),
    /// A Shared Data Block, and the serial of the message's own ticket of it.
    Block { block: u64, serial: u64 },
}

impl Drop for Body {
    #[inline]
    fn drop(self) {
        match self {
            Body::Plain(_) => {}
            Body::Block {
                block: _,
                serial: _,
            } => {}
        }
    }
}

/// What an agent does in the ledger that changes no block, ticket, word or port.
#[derive(Clone, Copy, Debug, PartialEq, Eq)]
pub enum Act {
    /// It began to wait for a message of a sender.
    Waiting {
        sender: usize,
    },
    /// It waited, and was told to skip its job.
    Passed {
        sender: usize,
    },
    /// It ended.
    Ended,
    /// It read this word through a ticket of its own at an index, and went last into the WaiterList there (ECMA-262,
    /// Atomics.wait).
    Slept {
        serial: u64,
        index: usize,
        word: u32,
    },
    /// It took the first agents, so many at most, out of the WaiterList at an index of the block of a ticket of its own;
    /// so many were taken (ECMA-262, Atomics.notify).
    Notified {
        serial: u64,
        index: usize,
        count: usize,
        taken: usize,
    },
    /// It slept and was taken out of its WaiterList, and goes on.
    Woke,
    /// It slept longer than its time-out, and left its WaiterList.
    TimedOut,
}

/// What happened in the ledger (ECMA-262, Agent Clusters, Data Blocks; that blocks are counted by
/// tickets is this host's).
pub enum LedgerEvent {
    /// An agent made a block of so many words, and its first ticket.
    Opened {
        block: u64,
        words: u32,
        serial: u64,
        agent: usize,
    },
    /// A message was put last into the port of its sender and its receiver.
    Posted {
        sender: usize,
        receiver: usize,
        body: Body,
    },
    /// The oldest message of a port came to its receiver, and a ticket in it with it.
    Taken {
        sender: usize,
        receiver: usize,
    },
    /// A ticket was spent.
    Spent {
        serial: u64,
    },
    /// This was done through a ticket to the word at an index, and the old word was there (ECMA-262,
    /// Atomics.load, store and add).
    Accessed {
        serial: u64,
        index: usize,
        change: Change,
        old: u32,
    },
    /// An agent did this, which leaves blocks, tickets, words and ports as they are.
    Acted {
        agent: usize,
        act: Act,
    },
    /// After the end of all agents the oldest message of a port was taken out; a ticket in it is spent
    /// next.
    Drained {
        sender: usize,
        receiver: usize,
    },
}

impl Drop for LedgerEvent {
    #[inline]
    fn drop(self) {
        match self {
            LedgerEvent::Opened {
                block: _,
                words: _,
                serial: _,
                agent: _,
            } => {}
            LedgerEvent::Posted {
                sender: _,
                receiver: _,
                body: _,
            } => {}
            LedgerEvent::Taken {
                sender: _,
                receiver: _,
            } => {}
            LedgerEvent::Spent { serial: _ } => {}
            LedgerEvent::Accessed {
                serial: _,
                index: _,
                change: _,
                old: _,
            } => {}
            LedgerEvent::Acted { agent: _, act: _ } => {}
            LedgerEvent::Drained {
                sender: _,
                receiver: _,
            } => {}
        }
    }
}
