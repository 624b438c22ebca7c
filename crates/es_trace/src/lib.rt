//! The trace of a run, written as text to any writer: a row for each event of an agent and of the ledger; and a
//! command as its plan has it, in words or as JSON.
#![tactic(auto)]

mod answer;
mod callbacks;
mod caught_refusal;
mod command;
mod event;
mod kept;
mod ledger;
mod names;
mod naming;
mod place;
mod released;
mod row;
mod scribe;
mod style;
mod told;
mod words;

pub use caught_refusal::caught;
pub use command::write_command;
pub use ledger::write_ledger;
pub use naming::name_at;
pub use released::TicketBlocks;
pub use scribe::Scribe;
pub use style::Style;
