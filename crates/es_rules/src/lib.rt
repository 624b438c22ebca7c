//! What the rules answer: from an agent's record, what the agent asks for next, and the event that
//! comes next.
//!
//! Nothing is changed here: each function reads the record, and answers an event or what is to be
//! asked. Whoever has the record records the event.
#![tactic(auto)]

mod answered;
mod buffers;
mod decide;
mod ephemerons;
mod need;
mod operand;
mod registries;
mod requests;
mod stop;

pub use answered::{
    answered_done, answered_wait, answered_word, brought, opened, planned, received,
    refused_message, skipped,
};
pub use decide::{asks_nobody, caught, do_alone, next_event};
pub use need::{Need, Request, asks, asks_at, asks_somebody, is_for_ledger};
pub use stop::Stop;
