//! How an engine embeds this host layer: one agent, stepped by hand, and a graph of the engine's own,
//! marked.
//!
//! docs/EMBEDDING.md quotes this crate.
#![tactic(auto)]

mod drive;
mod scene;

pub use drive::{Outside, Stopped, admit, run};
pub use scene::{Scene, mark_scene};
