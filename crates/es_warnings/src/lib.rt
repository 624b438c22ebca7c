//! What a plan is warned of: what is no fault, and is most likely not meant.
#![tactic(auto)]

mod mention;
mod text;
mod variables;
mod warning;

pub use mention::{Place, Section};
pub use text::write_warnings;
pub use warning::{Cause, Warning, warnings_of};
