//! A cluster of agents, run by turns; and one agent and the ledger together: a turn of an agent, with what the
//! ledger answers to it.
#![tactic(auto)]

mod advancing;
mod auditing;
mod beside;
mod cluster;
mod ending;
mod held_tickets;
mod laws;
mod member;
mod moving;
mod planned;
mod seating;
mod spending;
mod turns;
mod watcher;

pub use beside::Beforehand;
pub use cluster::{ClusterCore, Parts};
pub use ending::{end_all, give_up, into_histories};
pub use es_ledger::Audit;
pub use es_match::matches;
pub use laws::what_is_drained_is_nobodys;
pub use member::{Member, Progress};
pub use planned::Planned;
pub use watcher::Watcher;
