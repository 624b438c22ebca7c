//! The tables of one agent as one value: its variables, its objects, its WeakRefs with KeptAlive, and
//! what each identity is, its tag, with what they say of a history.
#![tactic(auto)]

mod assigned;
mod changes;
mod ephemerons;
mod growths;
mod properties;
mod registries;
mod table_change;
mod tables;
mod tags;

pub use registries::RegistryChange;
pub use table_change::{TableChange, is_plain};
pub use tables::Tables;
pub use tags::{Tag, Tags};
