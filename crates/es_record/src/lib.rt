//! What an agent has (ECMA-262, Agents): its plan, its history, its tables, and where it is in its
//! plan, as one value.
//!
//! It answers what its history says of a variable, an object, a WeakRef, a WeakMap, a registry or a
//! buffer, says what is due, and records an event that comes next: it makes every growth first, so
//! after want of memory nothing has changed. Which event comes next is not decided here, nor are
//! tickets kept here.
#![tactic(auto)]

mod agent_record;
mod buffers;
mod counts;

pub use agent_record::AgentRecord;
