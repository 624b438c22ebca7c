//! Tickets of Shared Data Blocks: who holds one, the ledger's table of all that were made, and
//! each agent's stake in it.
#![tactic(auto)]

mod kept;
mod ledger_name;
mod parting;
mod rack;
mod rows;
mod stake;
mod steps;
mod ticket;
mod view;

pub use ledger_name::LedgerName;
pub use rack::Rack;
pub use rows::{Opened, Rows};
pub use stake::Stake;
pub use ticket::Ticket;
