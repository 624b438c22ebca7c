//! What an agent is handed for its next event.

use es_event::WaitResult;
use es_ticket::{LedgerName, Ticket};
use es_value::Value;

/// What an agent is handed for its next event, by the ledger where the agent asks that.
pub enum Given<L: LedgerName> {
    /// Nothing: it goes on alone.
    Alone,
    /// A ticket: of a block that it asked for, or of one that came in a message.
    Block(Ticket<L>),
    /// A value that came in a message.
    Plain(Value),
    /// A word of shared memory, or how many agents were woken.
    Word(u32),
    /// How a wait at a word ended.
    WaitEnded(WaitResult),
    /// That what it asked for was done.
    Done,
    /// That no message comes any more.
    Skip,
    /// Nothing: it waits on for a message, or sleeps at a word.
    Wait,
    /// Nothing: it has ended.
    End,
}
