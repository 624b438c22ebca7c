//! The line of an event of an agent.

ghost use Rattle.std.specs.Prelude.{◌≡◌, ◌++◌, codes, decimal, OnOk};
ghost use Rattle.std.specs.Option.{option_copied};
ghost use Rattle.std.specs.Io.KnownBytes.{Appends};
ghost use Rattle.es_value.specs.Printed.{quoted};
ghost use Rattle.es_event.specs.Report.{refusal_text as refusal_said};
ghost use Rattle.es_event.specs.Answers.{answer_said};
ghost use Rattle.es_trace.specs.Commands.{command_json, name_at as name_said};
ghost use Rattle.es_trace.specs.Events.{caught as caught_said};
ghost use Rattle.es_trace_json.specs.Events.{answer_json, command_if, did_members, error_json, event_line, members};
ghost use Rattle.es_trace_json.specs.Values.{array_json, value_json};

use crate::array::write_array;
use crate::command::{write_array_of, write_if_any};
use crate::member::{begin_line, write_agent};
use crate::value::{write_quoted, write_value};
use es_event::{AgentPlan, AnswerRef, Command, Event, Refusal};
use es_trace::caught;
use es_value::{Id, Name, Value};
use std::io;
use std::io::Write;

/// Writes the line of an event of an agent with this plan, where this command was at hand: the next one of the
/// running job or callback, if one was left. `names` are those of all agents, in the plan's order.
///
/// It takes no memory. Where the writer fails, it answers that error; then a part of the line may be written.
pub fn write_event_line<W: Write>(
    names: &[Name],
    plan: &AgentPlan,
    at_hand: Option<&Command>,
    event: &Event,
    writer: &mut W,
) -> Result<(), io::Error>
    ensures { OnOk result (Appends (W.contents writer.old) (W.contents writer.new) (event_line names.now plan.now (option_copied at_hand.entry) event.now)) }
{
    begin_line(&plan.name, writer)?;
    write_members(names, plan, at_hand, event, writer)?;
    writer.write_all(b"}\n")
}

/// Writes the members that follow the agent's name.
fn write_members<W: Write>(
    names: &[Name],
    plan: &AgentPlan,
    at_hand: Option<&Command>,
    event: &Event,
    writer: &mut W,
) -> Result<(), io::Error>
    ensures { OnOk result (Appends (W.contents writer.old) (W.contents writer.new) (members names.now plan.now (option_copied at_hand.entry) event.now)) }
{
    match event {
        Event::JobBegun { job } => write_job(*job, writer),
        Event::CleanupBegun { registry } => write_cleanup(*registry, writer),
        Event::Received { sender, value } => write_message(names, *sender, value, writer),
        Event::Did(done) => write_done(
            names,
            plan,
            at_hand,
            done.command(),
            done.values(),
            done.answer(),
            writer,
        ),
        Event::Refused { code } => write_refused(names, plan, at_hand, *code, writer),
        Event::Emptied { ids } => write_emptied(names, plan, at_hand, ids.as_slice(), writer),
        Event::Taken { registration, held } => write_taken(*registration, held, writer),
        Event::JobEnded => writer.write_all(b"\"event\":\"job ends\""),
        Event::Skipped { job, sender } => write_skipped(names, *job, *sender, writer),
        Event::Closed => writer.write_all(b"\"event\":\"agent ends\""),
    }
}

fn write_job<W: Write>(job: usize, writer: &mut W) -> Result<(), io::Error>
    ensures { OnOk result (Appends (W.contents writer.old) (W.contents writer.new) (codes "\"event\":\"job\",\"job\":" ++ decimal job)) }
{
    write!(writer, "\"event\":\"job\",\"job\":{job}")
}

fn write_cleanup<W: Write>(registry: Id, writer: &mut W) -> Result<(), io::Error>
    ensures { OnOk result (Appends (W.contents writer.old) (W.contents writer.new) (codes "\"event\":\"cleanup job\",\"registry\":" ++ decimal registry)) }
{
    let number = registry.number();
    write!(writer, "\"event\":\"cleanup job\",\"registry\":{number}")
}

fn write_message<W: Write>(
    names: &[Name],
    sender: usize,
    value: &Value,
    writer: &mut W,
) -> Result<(), io::Error>
    ensures { OnOk result (Appends (W.contents writer.old) (W.contents writer.new) (codes "\"event\":\"message\",\"sender\":" ++ (quoted (name_said names.now sender) ++ (codes ",\"value\":" ++ value_json value.now)))) }
{
    writer.write_all(b"\"event\":\"message\"")?;
    write_agent("sender", names, sender, writer)?;
    writer.write_all(b",\"value\":")?;
    write_value(value, writer)
}

/// Writes what was done: the command, or that its refusal was caught.
fn write_done<W: Write>(
    names: &[Name],
    plan: &AgentPlan,
    at_hand: Option<&Command>,
    command: &Command,
    values: &[Value],
    answer: AnswerRef<'_>,
    writer: &mut W,
) -> Result<(), io::Error>
    ensures { OnOk result (Appends (W.contents writer.old) (W.contents writer.new) (did_members names.now plan.now (caught_said (option_copied at_hand.entry) command.now) command.now values.now (answer_said answer.entry))) }
{
    match caught(at_hand, command) {
        Some((to, refused)) => write_caught(names, plan, to, refused, answer, writer),
        None => write_did(names, plan, command, values, answer, writer),
    }
}

fn write_caught<W: Write>(
    names: &[Name],
    plan: &AgentPlan,
    to: &Name,
    refused: &Command,
    answer: AnswerRef<'_>,
    writer: &mut W,
) -> Result<(), io::Error>
    ensures { OnOk result (Appends (W.contents writer.old) (W.contents writer.new) (codes "\"event\":\"caught\",\"variable\":" ++ (quoted to.now ++ (codes ",\"command\":" ++ (command_json names.now plan.now refused.now ++ (codes ",\"error\":" ++ error_json (answer_said answer.entry))))))) }
{
    writer.write_all(b"\"event\":\"caught\",\"variable\":")?;
    write_variable(to, writer)?;
    writer.write_all(b",\"command\":")?;
    write_array_of(refused, names, plan, writer)?;
    writer.write_all(b",\"error\":")?;
    write_caught_error(answer, writer)
}

fn write_variable<W: Write>(to: &Name, writer: &mut W) -> Result<(), io::Error>
    ensures { OnOk result (Appends (W.contents writer.old) (W.contents writer.new) (quoted to.now)) }
{
    write_quoted(to.as_str(), writer)
}

/// Writes the text that a refusal gave the variable that catches it.
fn write_caught_error<W: Write>(answer: AnswerRef<'_>, writer: &mut W) -> Result<(), io::Error>
    ensures { OnOk result (Appends (W.contents writer.old) (W.contents writer.new) (error_json (answer_said answer.entry))) }
{
    match answer {
        AnswerRef::Gives(value) => write_value(value, writer),
        AnswerRef::Nothing | AnswerRef::Listed(_) => writer.write_all(b"null"),
    }
}

fn write_did<W: Write>(
    names: &[Name],
    plan: &AgentPlan,
    command: &Command,
    values: &[Value],
    answer: AnswerRef<'_>,
    writer: &mut W,
) -> Result<(), io::Error>
    ensures { OnOk result (Appends (W.contents writer.old) (W.contents writer.new) (codes "\"event\":\"did\",\"command\":" ++ (command_json names.now plan.now command.now ++ (codes ",\"values\":" ++ (array_json value_json values.now ++ (codes ",\"answer\":" ++ answer_json (answer_said answer.entry))))))) }
{
    writer.write_all(b"\"event\":\"did\",\"command\":")?;
    write_array_of(command, names, plan, writer)?;
    writer.write_all(b",\"values\":")?;
    write_array(values, writer)?;
    writer.write_all(b",\"answer\":")?;
    write_answer(answer, writer)
}

/// Writes what a command answered: nothing, a value, or keys.
fn write_answer<W: Write>(answer: AnswerRef<'_>, writer: &mut W) -> Result<(), io::Error>
    ensures { OnOk result (Appends (W.contents writer.old) (W.contents writer.new) (answer_json (answer_said answer.entry))) }
{
    match answer {
        AnswerRef::Nothing => writer.write_all(b"null"),
        AnswerRef::Gives(value) => write_given(value, writer),
        AnswerRef::Listed(keys) => write_keys(keys, writer),
    }
}

fn write_given<W: Write>(value: &Value, writer: &mut W) -> Result<(), io::Error>
    ensures { OnOk result (Appends (W.contents writer.old) (W.contents writer.new) (codes "{\"gives\":" ++ (value_json value.now ++ codes "}"))) }
{
    writer.write_all(b"{\"gives\":")?;
    write_value(value, writer)?;
    writer.write_all(b"}")
}

fn write_keys<W: Write>(keys: &[Name], writer: &mut W) -> Result<(), io::Error>
    ensures { OnOk result (Appends (W.contents writer.old) (W.contents writer.new) (codes "{\"keys\":" ++ (array_json quoted keys.now ++ codes "}"))) }
{
    writer.write_all(b"{\"keys\":")?;
    write_array(keys, writer)?;
    writer.write_all(b"}")
}

fn write_refused<W: Write>(
    names: &[Name],
    plan: &AgentPlan,
    command: Option<&Command>,
    code: Refusal,
    writer: &mut W,
) -> Result<(), io::Error>
    ensures { OnOk result (Appends (W.contents writer.old) (W.contents writer.new) (codes "\"event\":\"refused\",\"command\":" ++ (command_if names.now plan.now (option_copied command.entry) ++ (codes ",\"error\":" ++ quoted (refusal_said code))))) }
{
    writer.write_all(b"\"event\":\"refused\",\"command\":")?;
    write_if_any(command, names, plan, writer)?;
    write_error(code, writer)
}

fn write_error<W: Write>(code: Refusal, writer: &mut W) -> Result<(), io::Error>
    ensures { OnOk result (Appends (W.contents writer.old) (W.contents writer.new) (codes ",\"error\":" ++ quoted (refusal_said code))) }
{
    let text = code.text();
    write!(writer, ",\"error\":\"{text}\"")
}

fn write_emptied<W: Write>(
    names: &[Name],
    plan: &AgentPlan,
    command: Option<&Command>,
    ids: &[Id],
    writer: &mut W,
) -> Result<(), io::Error>
    ensures { OnOk result (Appends (W.contents writer.old) (W.contents writer.new) (codes "\"event\":\"emptied\",\"command\":" ++ (command_if names.now plan.now (option_copied command.entry) ++ (codes ",\"identities\":" ++ array_json decimal ids.now)))) }
{
    writer.write_all(b"\"event\":\"emptied\",\"command\":")?;
    write_if_any(command, names, plan, writer)?;
    writer.write_all(b",\"identities\":")?;
    write_array(ids, writer)
}

fn write_taken<W: Write>(registration: usize, held: &Value, writer: &mut W) -> Result<(), io::Error>
    ensures { OnOk result (Appends (W.contents writer.old) (W.contents writer.new) (codes "\"event\":\"taken\",\"registration\":" ++ (decimal registration ++ (codes ",\"held\":" ++ value_json held.now)))) }
{
    write_registration(registration, writer)?;
    writer.write_all(b",\"held\":")?;
    write_value(held, writer)
}

fn write_registration<W: Write>(registration: usize, writer: &mut W) -> Result<(), io::Error>
    ensures { OnOk result (Appends (W.contents writer.old) (W.contents writer.new) (codes "\"event\":\"taken\",\"registration\":" ++ decimal registration)) }
{
    write!(
        writer,
        "\"event\":\"taken\",\"registration\":{registration}"
    )
}

fn write_skipped<W: Write>(
    names: &[Name],
    job: usize,
    sender: usize,
    writer: &mut W,
) -> Result<(), io::Error>
    ensures { OnOk result (Appends (W.contents writer.old) (W.contents writer.new) (codes "\"event\":\"skipped\",\"job\":" ++ (decimal job ++ (codes ",\"sender\":" ++ quoted (name_said names.now sender))))) }
{
    write!(writer, "\"event\":\"skipped\",\"job\":{job}")?;
    write_agent("sender", names, sender, writer)
}
