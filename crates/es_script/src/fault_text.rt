//! The text of a fault: the one place where it is written.

ghost use Rattle.std.specs.Prelude.{OnOk};
ghost use Rattle.std.specs.Io.KnownBytes.{Appends};
ghost use Rattle.es_script.specs.FaultText.{place_text, command_text, fault_text};

use es_reading::{Place, ScriptFault};
use std::io;
use std::io::Write;

/// Writes the text of a fault, with no line end: its number, and then the agent, the callback or job
/// and the command that there are, as in `refused S7 agent 0 job 1 command 1`. It takes no memory.
pub fn write_fault<W: Write>(fault: ScriptFault, writer: &mut W) -> Result<(), io::Error>
    ensures { OnOk result (Appends (W.contents writer.old) (W.contents writer.new) (fault_text fault)) }
{
    let number = fault.code.number();
    write!(writer, "refused S{number}")?;
    write_place(fault.place, writer)?;
    write_command(fault.command, writer)
}

fn write_place<W: Write>(place: Place, writer: &mut W) -> Result<(), io::Error>
    ensures { OnOk result (Appends (W.contents writer.old) (W.contents writer.new) (place_text place)) }
{
    match place {
        Place::Whole => writer.write_all(b""),
        Place::Agent(agent) => write!(writer, " agent {agent}"),
        Place::Callback(agent, callback) => write!(writer, " agent {agent} callback {callback}"),
        Place::Job(agent, job) => write!(writer, " agent {agent} job {job}"),
    }
}

fn write_command<W: Write>(command: usize, writer: &mut W) -> Result<(), io::Error>
    ensures { OnOk result (Appends (W.contents writer.old) (W.contents writer.new) (command_text command)) }
{
    if command == 0 {
        return writer.write_all(b"");
    }
    write!(writer, " command {command}")
}
