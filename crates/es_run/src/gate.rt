//! What a caller can hold agents up with, before each of their commands.

/// What each agent passes before each of its commands.
pub trait Gate {
    /// Whether it may hold an agent up. One that never does is not told of commands.
    fn holds(&self) -> bool {
        true
    }

    /// An agent, counted from 0, is about to run its nth command of the run, counted from 1; those of
    /// callbacks count too. The agent's lock is held and the ledger's is not.
    fn at(&self, agent: usize, command: u64);
}

/// A gate that does nothing.
#[derive(Clone, Copy, Debug)]
pub struct NoGate;

impl Gate for NoGate {
    #[inline(always)]
    fn holds(&self) -> bool {
        false
    }

    fn at(&self, _agent: usize, _command: u64) {}
}
