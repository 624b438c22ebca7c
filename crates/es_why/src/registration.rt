//! The cells of FinalizationRegistries: their targets, and their held values.

ghost use Rattle.std.specs.Prelude.{◌<◌, Some, OnOk};
ghost use Rattle.std.specs.Io.KnownBytes.{Appends};
ghost use Rattle.std.specs.Option.{option_copied};
ghost use Rattle.es_why.specs.Picture.{registration_at, registrations};
ghost use Rattle.es_why.specs.Written.{registration_line};

use crate::edge::{write_held, write_target};
use es_record::AgentRecord;
use es_registry::Registration;
use std::io;
use std::io::Write;

/// Writes the target and the held value of each registration whose cell is in its registry; the target while
/// it is not emptied.
pub(crate) fn write_registrations<W: Write>(
    agent: &AgentRecord,
    writer: &mut W,
) -> Result<(), io::Error>
    ensures { OnOk result (Appends (W.contents writer.old) (W.contents writer.new) (registrations agent.now.history)) }
{
    for before in 0..agent.registered() {
        write_registration_at(agent, before + 1, writer)?;
    }
    Ok(())
}

fn write_registration_at<W: Write>(
    agent: &AgentRecord,
    registration: usize,
    writer: &mut W,
) -> Result<(), io::Error>
    requires { 0 < registration }
    ensures { OnOk result (Appends (W.contents writer.old) (W.contents writer.new) (registration_at agent.now.history registration)) }
{
    write_registration(registration, agent.registration(registration), writer)
}

/// Writes a registration, if its cell is in its registry.
fn write_registration<W: Write>(
    number: usize,
    registration: Option<&Registration>,
    writer: &mut W,
) -> Result<(), io::Error>
    ensures { OnOk result (Appends (W.contents writer.old) (W.contents writer.new) (registration_line number (option_copied registration.entry))) }
{
    match registration {
        Some(registration) => write_cell(number, registration, writer),
        None => Ok(()),
    }
}

fn write_cell<W: Write>(
    number: usize,
    registration: &Registration,
    writer: &mut W,
) -> Result<(), io::Error>
    ensures { OnOk result (Appends (W.contents writer.old) (W.contents writer.new) (registration_line number (Some registration.now))) }
{
    write_target(registration.registry, number, registration.target, writer)?;
    write_held(
        registration.registry,
        number,
        registration.cell.held.identity(),
        writer,
    )
}
