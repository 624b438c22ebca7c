//! A cluster under locks.

use es_cluster::{Member, Planned};
use es_ledger::LedgerCore;
use std::sync::{Condvar, Mutex};

/// The agents of a cluster, each under a lock of its own, and their ledger under one (ECMA-262, Agent
/// Clusters). Whenever an agent's lock is free, its history is legal, follows the plan of its number so
/// far, and nothing that it keeps or reaches is emptied; whenever the ledger's is free, its history is
/// legal and its tables are what the history says. It is made and taken apart by its fields.
pub struct Cluster<L: Planned> {
    /// The agents, by rising number.
    pub agents: Vec<Mutex<Member<L>>>,
    /// What is theirs together.
    pub ledger: Mutex<LedgerCore<L>>,
    /// Who waits for a message or sleeps at a word waits here, and is woken whenever something is posted, an
    /// agent begins or ceases to wait or to sleep, notifies or ends, or the run is stopped.
    pub arrived: Condvar,
}
