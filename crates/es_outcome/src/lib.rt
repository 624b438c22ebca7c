//! What agents that worked beside each other come to: their audits, their outcome, and why there is none.
//! Nothing here knows of locks.
#![tactic(auto)]

mod auditing;
mod calm;
mod counting;
mod ending;
mod laws;
mod said;
mod stop;

pub use auditing::audit_of;
pub use counting::tallies_of;
pub use ending::{Counted, abandon, outcome_of};
pub use laws::nothing_that_an_agent_emptied_was_live;
pub use stop::RunStop;
