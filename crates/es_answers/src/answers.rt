//! That each plan has exactly one answer by turns. Each law is the contract of a function that does nothing.

ghost use Rattle.es_answers.specs.Answers.{ByTurnsAPlanHasAnAnswer, ByTurnsAPlanHasOneAnswer, BytesOfAPlanHaveOneAnswer, WhatIsLeftHasOneReport};

/// By turns no plan has two answers, whatever its agents post, wait for and share: where a run by turns ends
/// well, its answer is the one report that its plan has by turns (ECMA-262, Agents, leaves the order of agents
/// open; this one is the host's).
pub fn by_turns_a_plan_has_one_answer()
    ensures { ByTurnsAPlanHasOneAnswer }
{}

/// By turns each plan has an answer, if its agents name others alone and its callbacks collect nothing. The
/// reader asks this of each.
pub fn by_turns_a_plan_has_an_answer()
    ensures { ByTurnsAPlanHasAnAnswer }
{}

/// Bytes that stand for a plan have exactly one answer by turns.
pub fn bytes_of_a_plan_have_one_answer()
    ensures { BytesOfAPlanHaveOneAnswer }
{}

/// What is left of a plan has exactly one report, whichever agents took turns before, in whatever order.
pub fn what_is_left_has_one_report()
    ensures { WhatIsLeftHasOneReport }
{}
