//! The answer to the bytes of a plan.

ghost use Rattle.std.specs.Prelude.{◌≡◌, ◌<◌, true, length, IfOk, IfErr};
ghost use Rattle.es_event.specs.Others.{all_name_others};
ghost use Rattle.es_event.specs.Report.{report};
ghost use Rattle.es_report.specs.Counts.{IsCountsOf};
ghost use Rattle.es_script.specs.Fault.{IsPlanOf};
ghost use Rattle.es_script.specs.Grammar.{no_callback_collects};
ghost use Rattle.es_turns.specs.Answer.{IsAnswerTo};
ghost use Rattle.es_turns.specs.Failing.{IsFaultOf};

use crate::by_turns::run_by_turns;
use crate::fault::TurnsFault;
use es_event::Plan;
use es_outcome::Counted;
use es_report::write_report_counted;
use es_script::read_plan;
use es_value::{LONGEST_PLAN, NoMemory};
use std::alloc::Global;
use std::io::Write;

/// The report of the plan that the bytes stand for, whose agents run by turns in this thread; or `ok` and a
/// line end where the plan is only checked. It takes no lock and starts no thread.
///
/// Fails with the first fault of the bytes, where they stand for no plan; where there are more of them than
/// a plan has at most (`LONGEST_PLAN`), before it looks at any; and where there is no memory.
pub fn answer_to(alloc: Global, bytes: &[u8], check: bool) -> Result<Vec<u8>, TurnsFault>
    ensures answer { IfOk result (λ text. IsAnswerTo check bytes.now text.items) }
    ensures fault { IfErr result (IsFaultOf bytes.now) }
{
    let plan = plan_of(alloc, bytes)?;
    if check {
        let mut text = Vec::new(alloc);
        return match text.write_all(b"ok\n") {
            Ok(()) => Ok(text),
            Err(_) => Err(TurnsFault::NoMemory),
        };
    }
    let counted = run_by_turns(alloc, plan)?;
    Ok(report_of(alloc, &counted)?)
}

/// The plan that the bytes stand for. Fails as `answer_to` does.
pub fn plan_of(alloc: Global, bytes: &[u8]) -> Result<Plan, TurnsFault>
    ensures reads { IfOk result (λ p. IsPlanOf bytes.now p) }
    ensures fault { IfErr result (IsFaultOf bytes.now) }
    ensures few { IfOk result (λ p. length p.agents < 9) }
    ensures others { IfOk result (λ p. all_name_others p ≡ true) }
    ensures quiet { IfOk result (λ p. no_callback_collects p ≡ true) }
{
    if bytes.len() > LONGEST_PLAN {
        return Err(TurnsFault::TooLong);
    }
    Ok(read_plan(alloc, bytes)?)
}

/// The report of what came of a plan.
pub(crate) fn report_of(alloc: Global, counted: &Counted) -> Result<Vec<u8>, NoMemory>
    requires { IsCountsOf counted.now.outcome counted.now.counts }
    ensures { IfOk result (λ text. text.items ≡ report counted.now.outcome) }
{
    let mut text = Vec::new(alloc);
    match write_report_counted(&counted.outcome, &counted.counts, &mut text) {
        Ok(()) => Ok(text),
        Err(_) => Err(NoMemory),
    }
}
