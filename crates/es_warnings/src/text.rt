//! Warnings as text.

ghost use Rattle.std.specs.Prelude.{◌≡◌, OnOk};
ghost use Rattle.std.specs.Io.KnownBytes.{Appends};
ghost use Rattle.es_warnings.specs.Texts.{callback_name as callback_said, pointer_text, section_text, sentence_text, warning_text, warnings_text};

use crate::mention::{Place, Section};
use crate::warning::{Cause, Warning};
use es_event::Plan;
use es_value::Name;
use std::io;
use std::io::Write;

/// Writes a line for each warning of the plan: where it is, as a JSON Pointer in quotation marks, and why. Fails
/// where the writer does, and part of it may be written then.
pub fn write_warnings<W: Write>(
    plan: &Plan,
    warnings: &[Warning],
    writer: &mut W,
) -> Result<(), io::Error>
    ensures { OnOk result (Appends (W.contents writer.old) (W.contents writer.new) (warnings_text plan.now warnings.now)) }
{
    for warning in warnings {
        write_warning(plan, warning, writer)?;
    }
    Ok(())
}

fn write_warning<W: Write>(plan: &Plan, warning: &Warning, writer: &mut W) -> Result<(), io::Error>
    ensures { OnOk result (Appends (W.contents writer.old) (W.contents writer.new) (warning_text plan.now warning.now)) }
{
    writer.write_all(b"warning \"")?;
    write_pointer(plan, warning.agent, warning.place, writer)?;
    writer.write_all(b"\" ")?;
    write_sentence(warning.cause, &warning.name, writer)?;
    writer.write_all(b"\n")
}

fn write_pointer<W: Write>(
    plan: &Plan,
    agent: usize,
    place: Place,
    writer: &mut W,
) -> Result<(), io::Error>
    ensures { OnOk result (Appends (W.contents writer.old) (W.contents writer.new) (pointer_text plan.now agent place)) }
{
    write!(writer, "/agents/{agent}")?;
    write_section(plan, agent, place.section, writer)?;
    let index = place.index;
    write!(writer, "{index}")
}

fn write_section<W: Write>(
    plan: &Plan,
    agent: usize,
    section: Section,
    writer: &mut W,
) -> Result<(), io::Error>
    ensures { OnOk result (Appends (W.contents writer.old) (W.contents writer.new) (section_text plan.now agent section)) }
{
    match section {
        Section::Job(job) => write!(writer, "/jobs/{job}/run/"),
        Section::Callback(callback) => {
            let name = callback_name(plan, agent, callback);
            write!(writer, "/callbacks/{name}/")
        }
    }
}

/// The name of a callback; nothing where there is no such callback.
fn callback_name(plan: &Plan, agent: usize, callback: usize) -> &str
    ensures { result.now ≡ callback_said plan.now agent callback }
{
    match plan.agents.as_slice().get(agent) {
        Some(agent) => match agent.callbacks.as_slice().get(callback) {
            Some(callback) => callback.name.as_str(),
            None => "",
        },
        None => "",
    }
}

fn write_sentence<W: Write>(cause: Cause, name: &Name, writer: &mut W) -> Result<(), io::Error>
    ensures { OnOk result (Appends (W.contents writer.old) (W.contents writer.new) (sentence_text cause name.now)) }
{
    let name = name.as_str();
    match cause {
        Cause::Unassigned => write!(
            writer,
            "nothing assigns {name}, so it is undefined; let assigns a text"
        ),
        Cause::AssignedLater => write!(
            writer,
            "{name} is read before anything assigns it, so it is undefined"
        ),
        Cause::Unread => write!(writer, "nothing reads {name}"),
        Cause::HeldTarget => write!(
            writer,
            "the held value is the target {name}, so this is refused"
        ),
    }
}
