//! The words `trace` and `check --races`: what is told of a run of a plan, by turns.

ghost use Rattle.std.specs.Prelude.{◌≡◌, ◌≢◌, IfOk, IfErr};
ghost use Rattle.es_turns.specs.Failing.{IsFaultOf};
ghost use Rattle.clusterrun.specs.Program.{IsTellingFault, TellsTo, telling_fault, tells};

use es_engine::{RunFault, read_all};
use es_options::View;
use es_races::races_of;
use es_turns::{TurnsFault, trace_of};
use std::alloc::Global;
use std::io::{Read, Write};

/// What is told of a run.
#[derive(Clone, Copy, Debug, PartialEq, Eq)]
pub(crate) enum Telling {
    /// What happened, as this view shows it.
    Trace(View),
    /// Whether two agents raced for a word.
    Races,
}

/// Runs the plan that the reader gives by turns, and writes what is to be told of it. On every fault but `Write`
/// nothing is written.
pub(crate) fn tell_plan<R: Read, W: Write>(
    alloc: Global,
    reader: &mut R,
    writer: &mut W,
    telling: Telling,
) -> Result<(), RunFault>
    ensures tells { TellsTo telling (R.remaining reader.old) (R.remaining reader.new) (W.contents writer.old) (W.contents writer.new) result }
    ensures unwritten { IfErr result (λ e. e ≢ RunFault.Write → writer.new ≡ writer.old) }
{
    let bytes = read_all(alloc, reader)?;
    let text = told(alloc, bytes.as_slice(), telling)?;
    match writer.write_all(text.as_slice()) {
        Ok(()) => Ok(()),
        Err(_) => Err(RunFault::Write),
    }
}

fn told(alloc: Global, bytes: &[u8], telling: Telling) -> Result<Vec<u8>, RunFault>
    ensures tells { IfOk result (λ text. tells telling bytes.now text.items) }
    ensures fault { IfErr result (IsTellingFault bytes.now) }
{
    match text_of(alloc, bytes, telling) {
        Ok(text) => Ok(text),
        Err(fault) => Err(fault_of(fault)),
    }
}

fn text_of(alloc: Global, bytes: &[u8], telling: Telling) -> Result<Vec<u8>, TurnsFault>
    ensures tells { IfOk result (λ text. tells telling bytes.now text.items) }
    ensures fault { IfErr result (IsFaultOf bytes.now) }
{
    match telling {
        Telling::Trace(view) => trace_of(alloc, bytes, view),
        Telling::Races => races_of(alloc, bytes),
    }
}

fn fault_of(fault: TurnsFault) -> RunFault
    ensures { result ≡ telling_fault fault }
{
    match fault {
        TurnsFault::Script(fault) => RunFault::Script(fault),
        TurnsFault::NoMemory => RunFault::NoMemory,
        TurnsFault::TooLong => RunFault::Read,
    }
}
