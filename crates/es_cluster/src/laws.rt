//! What holds of every cluster. Each law is the contract of a function that does nothing.

ghost use Rattle.es_cluster.specs.Laws.{WhatIsDrainedIsNobodys};

/// The messages that nobody took are taken out after all that agents do, and are no agent's: histories
/// of one cluster stay so (ECMA-262, Agent Clusters).
pub fn what_is_drained_is_nobodys()
    ensures { WhatIsDrainedIsNobodys }
{}
