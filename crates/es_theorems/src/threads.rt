//! What holds of runs in threads and of turns, of any plan. Each law is the contract of a function that does nothing.

ghost use Rattle.es_theorems.specs.ThreadsLaws.{ByTurnsIsAnOutcome, EachPlanHasAnOutcome, ThreadsEndAsTurnsDo, ThreadsRefineTurns, ThreadsReportAsTurnsDo, TurnsAreOutcomes};

/// Whatever the agents of a plan come to that run beside each other, some list of turns comes to as well:
/// with the same histories of all agents, the same report, and a ledger that tells the same (ECMA-262,
/// Agents and Agent Clusters).
pub fn threads_refine_turns()
    ensures { ThreadsRefineTurns }
{}

/// And what a list of turns comes to, once the messages that nobody took are taken out, is an outcome of
/// agents that run beside each other.
pub fn turns_are_outcomes()
    ensures { TurnsAreOutcomes }
{}

/// So is what a plan's run by turns comes to, of which its report by turns is.
pub fn by_turns_is_an_outcome()
    ensures { ByTurnsIsAnOutcome }
{}

/// So each plan has an outcome, whose agents name others alone and whose callbacks collect nothing.
pub fn each_plan_has_an_outcome()
    ensures { EachPlanHasAnOutcome }
{}

/// So where all turns of a plan end alike, all its runs in threads do.
pub fn threads_end_as_turns_do()
    ensures { ThreadsEndAsTurnsDo }
{}

/// And where all turns of a plan report alike, all its runs in threads do.
pub fn threads_report_as_turns_do()
    ensures { ThreadsReportAsTurnsDo }
{}
