//! What an agent is told that asks for a message.

/// What an agent is told that asks for a message of a sender.
#[derive(Clone, Copy, Debug, PartialEq, Eq)]
pub enum Turn {
    /// The message is there.
    Ready,
    /// It waits on.
    Stay,
    /// It skips its job: the port is empty, and the sender has ended, or no agent can go on and it has
    /// the lowest number of those that have not ended.
    Skip,
}
