//! What holds of every history of the ledger. Each law is the contract of a function that does nothing.

ghost use Rattle.es_ledger.specs.Laws.{TicketsAreNumbered, CountsAreSums, ReleasedWhereNobodyHolds, WhatOneAgentDoesChangesNoOther, PortsAreFirstInFirstOut};
ghost use Rattle.es_ledger.specs.Wakings.{ANotifyOfAllLeavesNobody, ANotifyTakesTheFirst, NobodyIsListedTwice, WhoIsListedSleeps, WhoIsListedWaitsToBeTaken, WhoIsWokenWasTaken, WhoWasTakenIsWoken};

/// The ledger's table has one line for each ticket that was made, in order of making.
pub fn tickets_are_numbered()
    ensures { TicketsAreNumbered }
{}

/// How many tickets of a block there are is the sum over all agents and all ports (ECMA-262, Agent
/// Clusters; that blocks are counted by tickets is this host's).
pub fn counts_are_sums()
    ensures { CountsAreSums }
{}

/// A block is released exactly where no agent and no message holds a ticket of it.
pub fn released_where_nobody_holds()
    ensures { ReleasedWhereNobodyHolds }
{}

/// What one agent does changes no other agent's list of tickets.
pub fn what_one_agent_does_changes_no_other()
    ensures { WhatOneAgentDoesChangesNoOther }
{}

/// What a port gave, followed by what it still has, is what was posted there, in order: nothing is lost,
/// doubled or out of turn.
pub fn ports_are_first_in_first_out()
    ensures { PortsAreFirstInFirstOut }
{}

/// A notify takes those that sleep at its word, those first that began first, as many as it asks for at most, and
/// nobody else (ECMA-262, Atomics.notify). With the four laws below on who is taken, no wake-up is lost.
pub fn a_notify_takes_the_first()
    ensures { ANotifyTakesTheFirst }
{}

/// Who is in a WaiterList sleeps (ECMA-262, WaiterList Objects).
pub fn who_is_listed_sleeps()
    ensures { WhoIsListedSleeps }
{}

/// Nobody is in two WaiterLists, or twice in one.
pub fn nobody_is_listed_twice()
    ensures { NobodyIsListedTwice }
{}

/// A notify that asks for as many as there are agents, or more, leaves nobody at its word (ECMA-262,
/// RemoveWaiters).
pub fn a_notify_of_all_leaves_nobody()
    ensures { ANotifyOfAllLeavesNobody }
{}

/// Who is in a WaiterList stays there until a notify takes it, its time-out passes, or it ends: nothing else wakes
/// it (ECMA-262, SuspendThisAgent).
pub fn who_is_listed_waits_to_be_taken()
    ensures { WhoIsListedWaitsToBeTaken }
{}

/// Who was taken stays so until it goes on as woken, or ends: nobody takes it again, and it never times out
/// (ECMA-262, NotifyWaiter).
pub fn who_was_taken_is_woken()
    ensures { WhoWasTakenIsWoken }
{}

/// Nobody goes on as woken whom no notify took.
pub fn who_is_woken_was_taken()
    ensures { WhoIsWokenWasTaken }
{}
