//! The trace of a run as lines of JSON, written to any writer: one object for each event of an agent and of the
//! ledger, for each value that stays after a collection, and for each block that was released.
#![tactic(auto)]

mod array;
mod command;
mod event;
mod kept;
mod ledger;
mod member;
mod value;

pub use event::write_event_line;
pub use kept::write_kept_lines;
pub use ledger::write_ledger_lines;
