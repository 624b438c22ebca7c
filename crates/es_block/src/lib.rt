//! Shared Data Blocks: lists of words that several agents can reference.
#![tactic(auto)]

mod block;

pub use block::Block;
