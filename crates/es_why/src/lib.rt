//! Why the values of an agent are reached: for each a shortest list of steps that leads to it, from a variable,
//! KeptAlive, a registry or a cell; which values stay, with what keeps them; and a picture of the heap after a collection,
//! in Graphviz's language.
#![tactic(auto)]

mod agent_heap;
mod around;
mod edge;
mod flags;
mod held_weakly;
mod kept;
mod keys_read;
mod picture;
mod reasons;
mod registration;
mod root;
mod roots;
mod telling;
mod thing;

pub use kept::kept_values;
pub use picture::write_picture;
pub use reasons::{Reasons, find_reasons};
