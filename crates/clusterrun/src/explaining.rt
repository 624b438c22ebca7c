//! The word explain: what the first fault of a plan is, and where.

ghost use Rattle.std.specs.Prelude.{◌≡◌, ◌≢◌, IfErr};
ghost use Rattle.clusterrun.specs.Program.{ExplainsTo, fault_in};

use es_engine::{RunFault, read_all};
use es_explain::{Explanation, explained, write_explanation};
use es_script::ScriptFault;
use std::alloc::Global;
use std::io::{Read, Write};

/// Says of what the reader gives whether it is a plan, or what its first fault is; gives the fault. On every fault
/// but `Write` nothing is written, and none is one of the plan, as that is explained.
pub(crate) fn explain_plan<R: Read, W: Write>(
    alloc: Global,
    reader: &mut R,
    writer: &mut W,
) -> Result<Option<ScriptFault>, RunFault>
    ensures explains { ExplainsTo (R.remaining reader.old) (R.remaining reader.new) (W.contents writer.old) (W.contents writer.new) result }
    ensures unwritten { IfErr result (λ e. e ≢ RunFault.Write → writer.new ≡ writer.old) }
{
    let bytes = read_all(alloc, reader)?;
    let explanation = explained(alloc, bytes.as_slice())?;
    match write_explanation(&explanation, writer) {
        Ok(()) => Ok(fault_in(explanation)),
        Err(_) => Err(RunFault::Write),
    }
}

fn fault_in(explanation: Explanation) -> Option<ScriptFault>
    ensures { result ≡ fault_in explanation }
{
    match explanation {
        Explanation::Plan { .. } => None,
        Explanation::Fault { fault, .. } => Some(fault),
    }
}
