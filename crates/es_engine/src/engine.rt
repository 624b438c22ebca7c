//! A run: the bytes of a plan in, and its report out.

ghost use Rattle.std.specs.Prelude.{◌≡◌, ◌≢◌, ◌<◌, length, IfOk, IfErr, OnOk, OnErr, true};
ghost use Rattle.std.specs.Io.KnownBytes.{Appends};
ghost use Rattle.es_event.specs.Others.{all_name_others};
ghost use Rattle.es_event.specs.Report.{report};
ghost use Rattle.es_report.specs.Counts.{IsCountsOf};
ghost use Rattle.es_script.specs.Grammar.{no_callback_collects};
ghost use Rattle.es_engine.specs.Engine.{Answers, IsAnswerFault, ReadsPlan, RunsAsByTurns, RunsTo, audits_of, runs_threads};

use crate::cluster::run_plan;
use crate::input::read_all;
use crate::letting_go::{leave, leave_plan};
use crate::run_fault::RunFault;
use es_event::Plan;
use es_options::Options;
use es_report::{write_report_beside, write_report_counted};
use es_run::Counted;
use es_script::read_plan;
use std::alloc::Global;
use std::io::{Read, Write};
use std::sync::Wait;
use std::thread::Threads;

/// Reads a plan to the reader's end, runs it, or only checks it, and writes the answer. Its agents are
/// threads, or run by turns in this one. Gives the number of audits that the watcher counted beside the
/// agents: as many as the options ask for, and none by turns or where the plan is only checked.
///
/// The report is written only after the run has ended well. On every fault but `Write` nothing is
/// written. Where the agents never sleep, and by turns no two accesses to a word race, it is the report by turns,
/// however they ran.
pub fn run<H: AllocGlobal + Threads + Wait + Sync, R: Read, W: Write>(
    rt: &H,
    reader: &mut R,
    writer: &mut W,
    options: Options,
) -> Result<u32, RunFault>
    ensures runs { RunsTo options (R.remaining reader.old) (R.remaining reader.new) (W.contents writer.old) (W.contents writer.new) result }
    ensures turns { IfOk result (λ n. RunsAsByTurns options (R.remaining reader.old) (R.remaining reader.new) (W.contents writer.old) (W.contents writer.new)) }
    ensures unwritten { IfErr result (λ e. e ≢ RunFault.Write → writer.new ≡ writer.old) }
{
    let plan = plan_from(rt.alloc(), reader)?;
    answer(rt, plan, options, false, writer)
}

/// The same, for a program that ends right after: what the run came to is not let go piece by piece, since the
/// system takes back all memory of a program that ends.
pub fn run_last<H: AllocGlobal + Threads + Wait + Sync, R: Read, W: Write>(
    rt: &H,
    reader: &mut R,
    writer: &mut W,
    options: Options,
) -> Result<u32, RunFault>
    ensures runs { RunsTo options (R.remaining reader.old) (R.remaining reader.new) (W.contents writer.old) (W.contents writer.new) result }
    ensures turns { IfOk result (λ n. RunsAsByTurns options (R.remaining reader.old) (R.remaining reader.new) (W.contents writer.old) (W.contents writer.new)) }
    ensures unwritten { IfErr result (λ e. e ≢ RunFault.Write → writer.new ≡ writer.old) }
{
    let plan = plan_from(rt.alloc(), reader)?;
    answer(rt, plan, options, true, writer)
}

/// The plan that the reader's bytes stand for.
pub(crate) fn plan_from<R: Read>(alloc: Global, reader: &mut R) -> Result<Plan, RunFault>
    ensures reads { ReadsPlan (R.remaining reader.old) (R.remaining reader.new) result }
    ensures few { IfOk result (λ p. length p.agents < 9) }
    ensures others { IfOk result (λ p. all_name_others p ≡ true) }
    ensures quiet { IfOk result (λ p. no_callback_collects p ≡ true) }
{
    let bytes = read_all(alloc, reader)?;
    let plan = read_plan(alloc, bytes.as_slice())?;
    Ok(plan)
}

/// Writes what there is to say of a plan, and gives how many audits were counted beside its agents. What the run
/// came to is let go, but where the program ends with it.
fn answer<H: AllocGlobal + Threads + Wait + Sync, W: Write>(
    rt: &H,
    plan: Plan,
    options: Options,
    ends: bool,
    writer: &mut W,
) -> Result<u32, RunFault>
    requires few { length plan.agents < 9 }
    requires others { all_name_others plan ≡ true }
    requires collects { no_callback_collects plan ≡ true }
    ensures answers { OnOk result (Answers options plan (W.contents writer.old) (W.contents writer.new)) }
    ensures audits { IfOk result (λ n. n ≡ audits_of options) }
    ensures fault { IfErr result (IsAnswerFault (runs_threads options)) }
    ensures unwritten { IfErr result (λ e. e ≢ RunFault.Write → writer.new ≡ writer.old) }
{
    if options.check {
        writer.write_all(b"ok\n").map_err(|_| RunFault::Write)?;
        leave_plan(plan, ends);
        return Ok(0);
    }
    let (ended, audits) = run_plan(rt, rt.alloc(), plan, options)?;
    write_ended(rt, &ended, options.turns, writer)?;
    leave(rt, ended, options.turns, ends);
    Ok(audits)
}

/// Writes the report of what a run came to. After a run in threads the lines of its agents are made beside each
/// other, as they ran.
fn write_ended<H: AllocGlobal + Threads + Sync, W: Write>(
    rt: &H,
    ended: &Counted,
    turns: bool,
    writer: &mut W,
) -> Result<(), RunFault>
    requires { IsCountsOf ended.now.outcome ended.now.counts }
    ensures written { OnOk result (Appends (W.contents writer.old) (W.contents writer.new) (report ended.now.outcome)) }
    ensures fault { IfErr result (λ e. e ≡ RunFault.Write) }
{
    let Counted { outcome, counts } = ended;
    let written = if turns {
        write_report_counted(outcome, counts, writer)
    } else {
        write_report_beside(rt, rt.alloc(), outcome, counts, writer)
    };
    written.map_err(|_| RunFault::Write)
}
