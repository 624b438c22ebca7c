//! Messages, as their receiver gets them.

use es_ticket::{LedgerName, Ticket};
use es_value::Value;

/// What a message carries, as its receiver gets it.
pub enum Letter<L: LedgerName> {
    /// A value without an identity.
    Plain(Value),
    /// A ticket of a Shared Data Block.
    Block(Ticket<L>),
}

/// A message that was taken from its port.
pub struct Message<L: LedgerName> {
    /// The agent that posted it.
    pub sender: usize,
    /// What it carries.
    pub body: Letter<L>,
}
