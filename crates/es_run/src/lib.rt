//! Agents in threads: each agent under a lock of its own, and their ledger under one.
//!
//! What an agent does alone it does under its own lock; where it asks the ledger, the ledger's lock is
//! taken inside. An agent that empties takes it only to spend tickets. Locks are taken in one order: agents
//! by rising number, then the ledger. An agent that waits for a message, or sleeps at a word, holds no lock
//! but the ledger's, which the wait gives up. The copy of an open later collection is marked by a thread that
//! takes no lock, while the agent goes on.
#![tactic(auto)]

mod auditing;
mod cluster;
mod gate;
mod helpers;
mod marked;
mod run;
mod serving;

pub use cluster::Cluster;
pub use es_cluster::{Audit, Member, Planned};
pub use es_outcome::{Counted, RunStop, audit_of, tallies_of};
pub use gate::{Gate, NoGate};
pub use run::{run_counted, run_threads, run_watched};
