//! What is said of outcomes: the contract of a function that does nothing.

ghost use Rattle.es_outcome.specs.Laws.{NothingThatAnAgentEmptiedWasLive};

/// Whatever a plan's agents come to, in threads or by turns: every set that one of them emptied was not live
/// then (ECMA-262, Liveness, Execution).
pub fn nothing_that_an_agent_emptied_was_live()
    ensures { NothingThatAnAgentEmptiedWasLive }
{}
