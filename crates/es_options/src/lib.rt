//! What a run or a trace is asked for, however that was said.
#![tactic(auto)]

mod options;
mod view;

pub use options::Options;
pub use view::{Form, View};
