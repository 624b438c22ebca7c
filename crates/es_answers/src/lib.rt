//! What is said of answers and of traces as a whole: each plan has exactly one answer by turns, and a trace is of
//! the run that the answer is of. The program stands on nothing of it.
#![tactic(auto)]

mod answers;
mod traces;

pub use answers::{
    by_turns_a_plan_has_an_answer, by_turns_a_plan_has_one_answer, bytes_of_a_plan_have_one_answer,
    what_is_left_has_one_report,
};
pub use traces::{
    a_trace_has_an_outcome, a_trace_is_of_a_legal_run, a_trace_is_of_an_outcome,
    a_trace_tells_the_plans_outcome, an_answer_is_the_reports_line, traces_have_one_run,
};
