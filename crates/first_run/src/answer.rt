//! A run by turns: the bytes of a plan in, and its report out.

ghost use Rattle.std.specs.Prelude.{◌≡◌, ◌≢◌, ◌<◌, length, IfOk, IfErr, OnOk, false, true};
ghost use Rattle.es_event.specs.Others.{all_name_others};
ghost use Rattle.es_script.specs.Grammar.{no_callback_collects};
ghost use Rattle.es_engine.specs.Checks.{ChecksTo};
ghost use Rattle.es_engine.specs.Engine.{Answers, IsAnswerFault, ReadsPlan, RunsTo};
ghost use Rattle.first_run.specs.Alone.{by_turns};

use es_engine::{Checked, RunFault, check_plan, read_all};
use es_event::Plan;
use es_report::write_report_counted;
use es_script::read_plan_by_value;
use es_turns::run_by_turns;
use std::alloc::Global;
use std::io::{Read, Write};

/// Reads a plan to the reader's end, runs it by turns and writes its report: what es_engine's `run` does by turns. Gives
/// the number of audits, which is 0.
///
/// On every fault but `Write` nothing is written.
pub(crate) fn answer<R: Read, W: Write>(
    alloc: Global,
    reader: &mut R,
    writer: &mut W,
) -> Result<u32, RunFault>
    ensures runs { RunsTo by_turns (R.remaining reader.old) (R.remaining reader.new) (W.contents writer.old) (W.contents writer.new) result }
    ensures unwritten { IfErr result (λ e. e ≢ RunFault.Write → writer.new ≡ writer.old) }
{
    let plan = plan_from(alloc, reader)?;
    write_answer(alloc, plan, writer)
}

/// Reads a plan to the reader's end, writes `ok`, and finds what the plan is warned of: es_engine's `check`.
///
/// On every fault but `Write` nothing is written.
pub(crate) fn check<R: Read, W: Write>(
    alloc: Global,
    reader: &mut R,
    writer: &mut W,
) -> Result<Checked, RunFault>
    ensures checks { ChecksTo (R.remaining reader.old) (R.remaining reader.new) (W.contents writer.old) (W.contents writer.new) result }
    ensures unwritten { IfErr result (λ e. e ≢ RunFault.Write → writer.new ≡ writer.old) }
{
    let plan = plan_from(alloc, reader)?;
    check_plan(alloc, plan, writer)
}

/// The plan that the reader's bytes stand for.
fn plan_from<R: Read>(alloc: Global, reader: &mut R) -> Result<Plan, RunFault>
    ensures reads { ReadsPlan (R.remaining reader.old) (R.remaining reader.new) result }
    ensures few { IfOk result (λ p. length p.agents < 9) }
    ensures others { IfOk result (λ p. all_name_others p ≡ true) }
    ensures quiet { IfOk result (λ p. no_callback_collects p ≡ true) }
{
    let bytes = read_all(alloc, reader)?;
    let plan = read_plan_by_value(alloc, bytes.as_slice())?;
    Ok(plan)
}

/// Writes the report of a plan.
fn write_answer<W: Write>(alloc: Global, plan: Plan, writer: &mut W) -> Result<u32, RunFault>
    requires few { length plan.agents < 9 }
    requires others { all_name_others plan ≡ true }
    requires collects { no_callback_collects plan ≡ true }
    ensures answers { OnOk result (Answers by_turns plan (W.contents writer.old) (W.contents writer.new)) }
    ensures audits { IfOk result (λ n. n ≡ 0) }
    ensures fault { IfErr result (IsAnswerFault false) }
    ensures unwritten { IfErr result (λ e. e ≢ RunFault.Write → writer.new ≡ writer.old) }
{
    let ended = run_by_turns(alloc, plan)?;
    write_report_counted(&ended.outcome, &ended.counts, writer).map_err(|_| RunFault::Write)?;
    Ok(0)
}
