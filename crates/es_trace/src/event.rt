//! The text of an agent's event.

ghost use Rattle.std.specs.Prelude.{◌≡◌, ◌++◌, codes, decimal, IfOk, OnOk};
ghost use Rattle.std.specs.Option.{option_copied};
ghost use Rattle.std.specs.Io.KnownBytes.{Appends};
ghost use Rattle.es_trace.specs.Commands.{name_at as name_said};
ghost use Rattle.es_trace.specs.Events.{caught as caught_said, did_text, event_text, or_else};

use crate::caught_refusal::caught;
use crate::command::write_command;
use crate::naming::name_at;
use crate::row::empty_text;
use crate::style::Style;
use es_event::{AgentPlan, Command, Event};
use es_value::{Id, Name};
use std::alloc::Global;
use std::io;
use std::io::Write;

/// The text of an event of an agent with this plan, where this command was at hand.
pub(crate) fn text_of(
    alloc: Global,
    names: &[Name],
    plan: &AgentPlan,
    at_hand: Option<&Command>,
    event: &Event,
) -> Result<Vec<u8>, io::Error>
    ensures { IfOk result (λ t. t.items ≡ event_text names.now plan.now (option_copied at_hand.entry) event.now) }
{
    let mut text = empty_text(alloc)?;
    write_event(names, plan, at_hand, event, &mut text)?;
    Ok(text)
}

fn write_event<W: Write>(
    names: &[Name],
    plan: &AgentPlan,
    at_hand: Option<&Command>,
    event: &Event,
    writer: &mut W,
) -> Result<(), io::Error>
    ensures { OnOk result (Appends (W.contents writer.old) (W.contents writer.new) (event_text names.now plan.now (option_copied at_hand.entry) event.now)) }
{
    match event {
        Event::JobBegun { job } => write_job(*job, writer),
        Event::CleanupBegun { registry } => write_cleanup(*registry, writer),
        Event::Received { sender, .. } => write_message(names, *sender, writer),
        Event::Did(done) => write_did(at_hand, done.command(), names, plan, writer),
        Event::Refused { .. } => write_or_else(at_hand, "message", names, plan, writer),
        Event::Emptied { .. } => {
            write_or_else(at_hand, "later collection ends", names, plan, writer)
        }
        Event::Taken { registration, .. } => write_registration(*registration, writer),
        Event::JobEnded => writer.write_all(b"job ends"),
        Event::Skipped { sender, .. } => write_no_message(names, *sender, writer),
        Event::Closed => writer.write_all(b"agent ends"),
    }
}

/// Writes the command that was done, or the one that was refused behind its `try`.
fn write_did<W: Write>(
    at_hand: Option<&Command>,
    done: &Command,
    names: &[Name],
    plan: &AgentPlan,
    writer: &mut W,
) -> Result<(), io::Error>
    ensures { OnOk result (Appends (W.contents writer.old) (W.contents writer.new) (did_text names.now plan.now (caught_said (option_copied at_hand.entry) done.now) done.now)) }
{
    match caught(at_hand, done) {
        Some((to, refused)) => {
            write_try(to, writer)?;
            write_command(Style::Words, refused, names, plan, writer)
        }
        None => write_command(Style::Words, done, names, plan, writer),
    }
}

fn write_try<W: Write>(to: &Name, writer: &mut W) -> Result<(), io::Error>
    ensures { OnOk result (Appends (W.contents writer.old) (W.contents writer.new) (codes "try " ++ to.now ++ codes " ")) }
{
    let to = to.as_str();
    write!(writer, "try {to} ")
}

/// Writes a command, or this text where there is none.
fn write_or_else<W: Write>(
    command: Option<&Command>,
    text: &str,
    names: &[Name],
    plan: &AgentPlan,
    writer: &mut W,
) -> Result<(), io::Error>
    ensures { OnOk result (Appends (W.contents writer.old) (W.contents writer.new) (or_else text.now names.now plan.now (option_copied command.entry))) }
{
    match command {
        Some(command) => write_command(Style::Words, command, names, plan, writer),
        None => writer.write_all(text.as_bytes()),
    }
}

fn write_job<W: Write>(job: usize, writer: &mut W) -> Result<(), io::Error>
    ensures { OnOk result (Appends (W.contents writer.old) (W.contents writer.new) (codes "job " ++ decimal job)) }
{
    write!(writer, "job {job}")
}

fn write_cleanup<W: Write>(registry: Id, writer: &mut W) -> Result<(), io::Error>
    ensures { OnOk result (Appends (W.contents writer.old) (W.contents writer.new) (codes "cleanup job of object " ++ decimal registry)) }
{
    let number = registry.number();
    write!(writer, "cleanup job of object {number}")
}

fn write_registration<W: Write>(registration: usize, writer: &mut W) -> Result<(), io::Error>
    ensures { OnOk result (Appends (W.contents writer.old) (W.contents writer.new) (codes "registration " ++ decimal registration ++ codes " taken")) }
{
    write!(writer, "registration {registration} taken")
}

fn write_message<W: Write>(names: &[Name], sender: usize, writer: &mut W) -> Result<(), io::Error>
    ensures { OnOk result (Appends (W.contents writer.old) (W.contents writer.new) (codes "message of " ++ name_said names.now sender)) }
{
    let name = name_at(names, sender);
    write!(writer, "message of {name}")
}

fn write_no_message<W: Write>(
    names: &[Name],
    sender: usize,
    writer: &mut W,
) -> Result<(), io::Error>
    ensures { OnOk result (Appends (W.contents writer.old) (W.contents writer.new) (codes "no message of " ++ name_said names.now sender)) }
{
    let name = name_at(names, sender);
    write!(writer, "no message of {name}")
}
