//! What holds of plans whose agents share no words. Each law is the contract of a function that does nothing.

ghost use Rattle.es_theorems.specs.Messages.{MessagesReportAlike, MessagesSayAlike, MessagesSayAlikeInThreads, ThreadsReportAsByTurns};

/// Agents that read and write no word of a shared block, whatever they post, wait for and skip, have the
/// same histories by all lists of turns that end (ECMA-262, Agents and Agent Clusters).
pub fn messages_say_alike()
    ensures { MessagesSayAlike }
{}

/// In threads too each such agent has one history.
pub fn messages_say_alike_in_threads()
    ensures { MessagesSayAlikeInThreads }
{}

/// So a plan whose agents share no word has one report, whichever way they run.
pub fn messages_report_alike()
    ensures { MessagesReportAlike }
{}

/// What is reported of it in threads is what is reported of it by turns.
pub fn threads_report_as_by_turns()
    ensures { ThreadsReportAsByTurns }
{}
