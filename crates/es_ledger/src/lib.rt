//! The ledger of an agent cluster: which Shared Data Blocks there are, who holds a ticket of which,
//! which messages lie in the ports, and what happened.
#![tactic(auto)]

mod audit;
mod blocks;
mod draining;
mod laws;
mod ledger;
mod message;
mod ports;
mod posting;
mod sleeping;
mod turn;
mod waiters;
mod waiting;

pub use audit::Audit;
pub use laws::{
    a_notify_of_all_leaves_nobody, a_notify_takes_the_first, counts_are_sums,
    nobody_is_listed_twice, ports_are_first_in_first_out, released_where_nobody_holds,
    tickets_are_numbered, what_one_agent_does_changes_no_other, who_is_listed_sleeps,
    who_is_listed_waits_to_be_taken, who_is_woken_was_taken, who_was_taken_is_woken,
};
pub use ledger::{LedgerCore, Spent};
pub use message::{Letter, Message};
pub use turn::Turn;
