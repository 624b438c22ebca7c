//! The words of the command line: which request and which file they ask for.
#![tactic(auto)]

mod options;
mod request;

pub use options::{not_text, request_of};
pub use request::Request;
