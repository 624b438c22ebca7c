//! Marking with helpers that run beside each other, and a flat copy of a graph.
//!
//! A list has what is marked, in the order of marking. Where little of it is still to be followed, it is
//! followed as by `es_mark`, one identity after another. Where it is much, it is cut into a piece for each
//! helper; each asks the graph what its piece leads to, and what they found is marked in order of the
//! pieces. Helpers only read: the marks are changed where none runs.
#![tactic(auto)]

mod entering;
mod expanding;
mod marking;
mod more;
mod snapshot;

pub use marking::{mark_parallel, mark_with};
pub use more::mark_more;
pub use snapshot::Snapshot;
