//! What is said of a run on standard error.

ghost use Rattle.std.specs.Prelude.{OnOk};
ghost use Rattle.std.specs.Io.KnownBytes.{Appends};
ghost use Rattle.es_engine.specs.Texts.{run_fault_text, fault_line, audits_line};

use crate::RunFault;
use es_script::write_fault;
use std::io;
use std::io::Write;

/// Writes one line on the fault. It takes no memory.
pub fn explain<W: Write>(fault: RunFault, writer: &mut W) -> Result<(), io::Error>
    ensures { OnOk result (Appends (W.contents writer.old) (W.contents writer.new) (fault_line fault)) }
{
    write_run_fault(fault, writer)?;
    writer.write_all(b"\n")
}

fn write_run_fault<W: Write>(fault: RunFault, writer: &mut W) -> Result<(), io::Error>
    ensures { OnOk result (Appends (W.contents writer.old) (W.contents writer.new) (run_fault_text fault)) }
{
    match fault {
        RunFault::Script(fault) => write_fault(fault, writer),
        RunFault::NoMemory => writer.write_all(b"out of memory"),
        RunFault::Mismatch => writer.write_all(b"histories do not match"),
        RunFault::Read => writer.write_all(b"cannot read"),
        RunFault::Write => writer.write_all(b"cannot write"),
    }
}

/// Writes one line on how many audits were made. It takes no memory.
pub fn note_audits<W: Write>(audits: u32, writer: &mut W) -> Result<(), io::Error>
    ensures { OnOk result (Appends (W.contents writer.old) (W.contents writer.new) (audits_line audits)) }
{
    writeln!(writer, "audits {audits}")
}
