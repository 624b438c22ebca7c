//! What an agent does to the ledger.

use es_event::{Body, Change};

/// A sleep: the ticket through which it began, the index, and the word that was there.
#[derive(Clone, Copy)]
pub struct Sleep {
    pub serial: u64,
    pub index: usize,
    pub word: u32,
}

/// What an agent does to the ledger.
#[derive(Clone, Copy)]
pub enum Deed<'a> {
    /// It makes a block of so many words, and its first ticket.
    Open {
        block: u64,
        words: u32,
        serial: u64,
    },
    /// It posts a message.
    Post {
        receiver: usize,
        body: &'a Body,
    },
    /// It takes a message of a sender, none where the port is empty; a block in it has so many words.
    Take {
        sender: usize,
        message: Option<&'a Body>,
        words: u32,
    },
    /// It spends a ticket.
    Spend {
        serial: u64,
    },
    /// It does this to a word, over the old one.
    Access {
        serial: u64,
        index: usize,
        change: Change,
        old: u32,
    },
    /// It begins to wait for a message of a sender.
    Wait {
        sender: usize,
    },
    /// It is told to skip its job.
    Pass {
        sender: usize,
    },
    /// It ends.
    End,
    /// It begins to sleep at a word, which is this one.
    Sleep {
        serial: u64,
        index: usize,
        word: u32,
    },
    /// It takes agents out of the WaiterList at a word; so many were taken.
    Notify {
        serial: u64,
        index: usize,
        count: usize,
        taken: usize,
    },
    /// It was taken, and goes on from this sleep.
    Wake(Option<Sleep>),
    /// Its time-out has passed, and it goes on from this sleep.
    TimeOut(Option<Sleep>),
}
