//! The cluster of a plan, run to its end.

ghost use Rattle.std.specs.Prelude.{◌≡◌, ◌<◌, true, not, length, IfOk, IfErr, if◌then◌else◌};
ghost use Rattle.es_engine.specs.Engine.{IsAnswerFault};
ghost use Rattle.es_event.specs.Others.{all_name_others};
ghost use Rattle.es_report.specs.Counts.{IsCountsOf};
ghost use Rattle.es_outcome.specs.Outcomes.{IsClusterOutcome};
ghost use Rattle.es_script.specs.Grammar.{no_callback_collects};
ghost use Rattle.es_turns.specs.Answer.{RanBy};

use crate::run_fault::RunFault;
use es_event::Plan;
use es_options::Options;
use es_run::{Counted, NoGate, run_counted};
use es_turns::run_by_turns;
use std::alloc::Global;
use std::sync::Wait;
use std::thread::Threads;

/// Runs the agents of a plan to their ends, as a cluster: each in a thread of its own, or all by turns.
/// Gives besides how many audits were made beside them.
pub(crate) fn run_plan<H: Threads + Wait + Sync>(
    rt: &H,
    alloc: Global,
    plan: Plan,
    options: Options,
) -> Result<(Counted, u32), RunFault>
    requires few { length plan.agents < 9 }
    requires others { all_name_others plan ≡ true }
    requires quiet { no_callback_collects plan ≡ true }
    ensures outcome { IfOk result (λ r. IsClusterOutcome plan r.0.outcome) }
    ensures way { IfOk result (λ r. RanBy options.turns plan r.0.outcome) }
    ensures counts { IfOk result (λ r. IsCountsOf r.0.outcome r.0.counts) }
    ensures audits { IfOk result (λ r. r.1 ≡ (if options.turns then 0 else options.watch)) }
    ensures fault { IfErr result (IsAnswerFault (not options.turns)) }
{
    if options.turns {
        let ended = run_by_turns(alloc, plan)?;
        return Ok((ended, 0));
    }
    let watch = u32::from(options.watch);
    let (ended, audits) = run_counted(rt, alloc, plan, options.helpers, watch, &NoGate)?;
    Ok((ended, audits))
}
