//! Whether histories of agents and of a ledger are those of one cluster; and each agent's part in a ledger's
//! history: what an event of the ledger is to the agent that does it.
#![tactic(auto)]

mod beside;
mod calm;
mod came;
mod deed;
mod doing;
mod going;
mod ledger_pass;
mod lines;
mod mail;
mod matching;
mod meets;
mod one_deed;
mod parts;
mod rest;
mod spending;
mod stretch;
mod tickets;
mod waited;
mod want;
mod word_want;
mod words;

pub use came::Came;
pub use deed::{Deed, Sleep};
pub use matching::{came_of, matches};
pub use parts::parts_of;
pub use rest::Rest;
pub use stretch::Stretch;
pub use want::ends_job;
