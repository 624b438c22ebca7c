//! What is said of traces. Each law is the contract of a function that does nothing.

ghost use Rattle.es_answers.specs.Traces.{ATraceHasAnOutcome, ATraceIsOfALegalRun, ATraceIsOfAnOutcome, ATraceTellsThePlansOutcome, AnAnswerIsTheReportsLine, TracesHaveOneRun};

/// A trace is of a run that the rules allow: after each of its turns the ledger's history is legal (ECMA-262,
/// Agent Clusters, Data Blocks, The Atomics Object).
pub fn a_trace_is_of_a_legal_run()
    ensures { ATraceIsOfALegalRun }
{}

/// What the turns of a trace led to is an outcome of the plan by turns.
pub fn a_trace_has_an_outcome()
    ensures { ATraceHasAnOutcome }
{}

/// And that is an outcome of agents that run beside each other: what a trace tells may happen in threads too.
pub fn a_trace_is_of_an_outcome()
    ensures { ATraceIsOfAnOutcome }
{}

/// The events that a trace tells of an agent are those of its history in the plan's outcome by turns, in their
/// order.
pub fn a_trace_tells_the_plans_outcome()
    ensures { ATraceTellsThePlansOutcome }
{}

/// The answer in the row of an event that has a line in the report is that line: so the rows of a trace that are
/// lines of a report are the lines of the plan's report.
pub fn an_answer_is_the_reports_line()
    ensures { AnAnswerIsTheReportsLine }
{}

/// Two traces of one plan, whatever each shows, tell the same moves, one after the other.
pub fn traces_have_one_run()
    ensures { TracesHaveOneRun }
{}
