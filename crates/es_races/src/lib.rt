//! Which accesses to words race in a ledger's history: no message orders them; and what is told of the races of a
//! plan in its run by turns: that no two agents race for a word, or two accesses that do, and where these stand.
//! Of a plan whose agents sleep nothing is told.
#![tactic(auto)]

mod clock;
mod maps;
mod pass;
mod place;
mod ports;
mod race;
mod races;
mod sleepless;
mod text;
mod tickets;
mod words;

pub use race::{Mark, Race, race_in};
pub use races::races_of;
