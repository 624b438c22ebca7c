//! A check: whether what a reader gives is a plan, and what it is warned of.

ghost use Rattle.std.specs.Prelude.{◌≡◌, ◌≢◌, [], codes, false, IfOk, IfErr, OnOk};
ghost use Rattle.std.specs.Io.KnownBytes.{Appends};
ghost use Rattle.es_warnings.specs.Warnings.{warnings};
ghost use Rattle.es_engine.specs.Checks.{ChecksTo};
ghost use Rattle.es_engine.specs.Engine.{IsAnswerFault};
ghost use Rattle.es_engine.specs.Statuses.{ending_of};

use crate::ending::Ending;
use crate::engine::plan_from;
use crate::run_fault::RunFault;
use es_event::Plan;
use es_warnings::{Warning, warnings_of, write_warnings};
use std::alloc::Global;
use std::io::{Read, Write};

/// A plan without a fault, and what it is warned of.
#[derive(Drop)]
pub struct Checked {
    pub plan: Plan,
    pub warnings: Vec<Warning>,
}

/// Reads a plan to the reader's end, writes `ok`, and finds what the plan is warned of.
///
/// On every fault but `Write` nothing is written.
pub fn check<R: Read, W: Write>(
    alloc: Global,
    reader: &mut R,
    writer: &mut W,
) -> Result<Checked, RunFault>
    ensures checks { ChecksTo (R.remaining reader.old) (R.remaining reader.new) (W.contents writer.old) (W.contents writer.new) result }
    ensures unwritten { IfErr result (λ e. e ≢ RunFault.Write → writer.new ≡ writer.old) }
{
    let plan = plan_from(alloc, reader)?;
    check_plan(alloc, plan, writer)
}

/// The same of a plan that was read.
pub fn check_plan<W: Write>(alloc: Global, plan: Plan, writer: &mut W) -> Result<Checked, RunFault>
    ensures plan { IfOk result (λ c. c.plan ≡ plan) }
    ensures warnings { IfOk result (λ c. c.warnings.items ≡ warnings plan) }
    ensures written { OnOk result (Appends (W.contents writer.old) (W.contents writer.new) (codes "ok\n")) }
    ensures fault { IfErr result (IsAnswerFault false) }
    ensures unwritten { IfErr result (λ e. e ≢ RunFault.Write → writer.new ≡ writer.old) }
{
    let warnings = warnings_of(alloc, &plan)?;
    writer.write_all(b"ok\n").map_err(|_| RunFault::Write)?;
    Ok(Checked { plan, warnings })
}

/// Tells the warnings, a line for each, and how the program ended. Its caller calls it once what was written has reached
/// standard output.
pub fn end_check<E: Write>(checked: &Checked, errors: &mut E) -> Ending
    ensures ending { result ≡ ending_of checked.now.warnings.items }
    ensures quiet { checked.now.warnings.items ≡ [] → errors.new ≡ errors.old }
{
    let warnings = checked.warnings.as_slice();
    if warnings.is_empty() {
        return Ending::Done(0);
    }
    let _ = write_warnings(&checked.plan, warnings, errors);
    Ending::Warned
}
