//! The entries of an agent's WeakMaps and the members of its WeakSets, kept by key.
#![tactic(auto)]

mod keyed;
mod slot;
mod slots;
mod table;
mod weak_tables;

pub use weak_tables::WeakTables;
