//! What a plan's text is, in words for people: a plan, or its first fault, where that is and what it is.
#![tactic(auto)]

mod command;
mod explanation;
mod found;
mod kinds;
mod members;
mod names;
mod pointer;
mod sentence;
mod shape;
mod spelling;
mod text;
mod unread;
mod words;
mod wrong;

pub use explanation::{Explanation, explained, write_explanation};
pub use found::Said;
