//! The WeakRefs of an agent with their targets, and its list of values kept alive.
#![tactic(auto)]

mod weakrefs;

pub use weakrefs::WeakRefs;
