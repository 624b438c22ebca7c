//! The FinalizationRegistries of an agent: their cells, and the queue of cleanup jobs.
#![tactic(auto)]

mod cells;
mod emptying;
mod places;
mod registries;
mod roots;
mod slot;
mod tokens;
mod unregistering;
mod waiting;

pub use registries::Registries;
pub use slot::{Cell, Registration, Slot, Tally};
