//! The parts of a plan, read from JSON values whose shape was tested: names, operands, commands, jobs
//! and agents, each or the first fault in it.
#![tactic(auto)]

mod agent;
mod command;
mod fault;
mod job;
mod known_names;
mod named;
mod number_table;
mod operand;
mod operands;
mod part;
mod parts;
mod run;
mod scope;
mod spelled;
mod version;

pub use agent::{agents_of, check_names};
pub use command::is_try;
pub use fault::{FaultCode, Place, ReadFault, ScriptFault, Spot, fault_in};
pub use job::awaited_of;
pub use known_names::KnownNames;
pub use named::{command_named, modification_named};
pub use number_table::{NumberTable, numbers_of};
pub use part::{Part, Seen};
pub use parts::{member_count, taken_items};
pub use scope::Scope;
pub use version::Version;
