//! The engine: a plan's bytes from a reader, the run of its agents, and the report to a writer; how a
//! program over it ends, and what it says of that.
#![tactic(auto)]

mod checking;
mod cluster;
mod complaint;
mod ending;
mod engine;
mod input;
mod laws;
mod letting_go;
mod run_fault;

pub use checking::{Checked, check, check_plan, end_check};
pub use complaint::{explain, note_audits};
pub use ending::{Ending, status_for};
pub use engine::{run, run_last};
pub use input::read_all;
pub use laws::{a_plan_has_one_answer, without_races_a_plan_has_one_answer};
pub use run_fault::RunFault;
