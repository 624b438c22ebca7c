//! What a call asks of a plan.

ghost use Rattle.std.specs.Prelude.{IfOk, IfErr};
ghost use Rattle.es_library.specs.Replies.{IsTextFor};
ghost use Rattle.es_turns.specs.Failing.{IsFaultOf};

use es_options::{Form, View};
use es_turns::{TurnsFault, answer_to, trace_of};
use std::alloc::Global;

/// What a call asks of a plan.
#[derive(Clone, Copy)]
pub enum Asked {
    /// To run it: its report.
    Report,
    /// Only to check it: `ok` and a line end.
    Check,
    /// To run it: its trace, a line of JSON for each event.
    Trace {
        /// Whether the trace tells of each value that stays after a collection what keeps it.
        all: bool,
    },
}

/// What there is to say of the plan, its agents run by turns.
pub(crate) fn text_for(alloc: Global, plan: &[u8], asked: Asked) -> Result<Vec<u8>, TurnsFault>
    ensures text { IfOk result (λ text. IsTextFor asked plan.now text.items) }
    ensures fault { IfErr result (IsFaultOf plan.now) }
{
    match asked {
        Asked::Report => answer_to(alloc, plan, false),
        Asked::Check => answer_to(alloc, plan, true),
        Asked::Trace { all } => trace_of(
            alloc,
            plan,
            View {
                form: Form::Lines,
                all,
            },
        ),
    }
}
