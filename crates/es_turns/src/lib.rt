//! The agents of a plan by turns, in one thread, with no lock: the bytes of a plan in, and the bytes of its report,
//! or of the trace of what happened in the order of the turns, out; and what is left of a cluster that someone else moved.
#![tactic(auto)]

mod answer;
mod blocks;
mod by_turns;
mod chronicle;
mod collection;
mod fault;
mod ledger;
mod newest;
mod stepping;
mod tracing;

pub use answer::{answer_to, plan_of};
pub use by_turns::run_by_turns;
pub use fault::TurnsFault;
pub use stepping::{report_of_rest, write_lines_from};
pub use tracing::{trace_by_turns, trace_of};
