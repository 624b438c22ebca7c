//! What holds of runs by turns: that two of one plan come to the same, and that agents go on and come to an end. Each law
//! is the contract of a function that does nothing.

ghost use Rattle.es_theorems.specs.TurnsLaws.{EachAgentTakesATurn, EachPlanComesToAnEnd, NoClusterIsStuck, TurnsAreOneRun, TurnsHaveOneEnd, WhatIsLeftComesToAnEnd, WhatIsLeftHasOneEnd};

/// Two runs by turns of one plan end with the same names and the same histories of agents, and with
/// ledgers that tell the same, with messages and shared buffers too (ECMA-262, Agents, leaves the order
/// of agents open; this one is the host's).
pub fn turns_have_one_end()
    ensures { TurnsHaveOneEnd }
{}

/// Two runs by turns of what is left of one plan, once any agents took turns in whatever order, end with
/// the same names and the same histories of agents, and with ledgers that tell the same.
pub fn what_is_left_has_one_end()
    ensures { WhatIsLeftHasOneEnd }
{}

/// The turns in which agents moved are the same in two runs by turns of one plan, one after the other.
pub fn turns_are_one_run()
    ensures { TurnsAreOneRun }
{}

/// Whichever agents took turns, each agent that is asked takes one, as the rules and its plan say: it has one
/// event more, or it waits on for a message or at a word, or it has ended.
pub fn each_agent_takes_a_turn()
    ensures { EachAgentTakesATurn }
{}

/// No cluster is stuck (ECMA-262, Agents and Agent Clusters): whichever agents took turns, if some agent has not
/// ended, some agent moves, once those that wait or sleep are asked.
pub fn no_cluster_is_stuck()
    ensures { NoClusterIsStuck }
{}

/// Each plan in which no callback collects has an end by turns, whether its agents sleep or not.
pub fn each_plan_comes_to_an_end()
    ensures { EachPlanComesToAnEnd }
{}

/// And so has what is left of it, whichever agents took turns before.
pub fn what_is_left_comes_to_an_end()
    ensures { WhatIsLeftComesToAnEnd }
{}
