//! An agent in a WaiterList.

/// An agent that sleeps in the WaiterList at an index of a block (ECMA-262, WaiterList Objects).
#[derive(Clone, Copy, Debug, PartialEq, Eq)]
pub struct Waiter {
    /// The agent's number.
    pub agent: usize,
    /// The block's number.
    pub block: u64,
    /// The word's place in the block, counted from 0.
    pub index: usize,
}
