//! What a ticket of a Shared Data Block names, and who holds it.

/// What a ticket names: its serial, and a Shared Data Block with its number of words of 32 bits
/// (ECMA-262, Data Blocks). Serials and blocks are numbered from 1 in order of making, over the whole
/// run.
#[derive(Clone, Copy, Debug, PartialEq, Eq)]
pub struct Row {
    pub serial: u64,
    pub block: u64,
    pub words: u32,
}

/// Who holds a ticket. Agents are numbered from 0.
#[derive(Clone, Copy, Debug, PartialEq, Eq)]
pub enum Holder {
    Agent(usize),
    /// The port of a sender and a receiver, where the ticket lies in a message.
    Port { sender: usize, receiver: usize },
    /// The ticket was spent.
    Nobody,
}

/// A line of the ledger's table: what the ticket of a serial names, and who holds it.
#[derive(Clone, Copy, Debug, PartialEq, Eq)]
pub struct Entry {
    pub row: Row,
    pub holder: Holder,
}
