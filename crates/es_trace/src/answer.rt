//! What an agent's event answered.

ghost use Rattle.std.specs.Prelude.{◌≡◌, OnOk};
ghost use Rattle.std.specs.Io.KnownBytes.{Appends};
ghost use Rattle.es_event.specs.Report.{line};
ghost use Rattle.es_event.specs.Answers.{answer_said};
ghost use Rattle.es_trace.specs.Events.{answer_of, answer_text, answers as answers_said, given_text, is_answered as answered_said};

use es_event::{AnswerRef, Command, Event};
use es_report::write_lines;
use es_value::{Value, write_value};
use std::io;
use std::io::Write;
use std::slice::from_ref;

/// Whether the event has an answer.
pub(crate) fn answers(event: &Event) -> bool
    ensures { result ≡ answers_said event.now }
{
    match event {
        Event::Did(done) => is_answered(done.command(), done.answer()),
        Event::Received { .. }
        | Event::Refused { .. }
        | Event::Emptied { .. }
        | Event::Taken { .. }
        | Event::Skipped { .. } => true,
        Event::JobBegun { .. } | Event::CleanupBegun { .. } | Event::JobEnded | Event::Closed =>
            false,
    }
}

fn is_answered(command: &Command, answer: AnswerRef<'_>) -> bool
    ensures { result ≡ answered_said command.now (answer_said answer.entry) }
{
    match (command, answer) {
        (Command::Say { .. }, _) => true,
        (Command::Keys { .. }, AnswerRef::Listed(_)) => true,
        (_, AnswerRef::Gives(_)) => true,
        _ => false,
    }
}

/// Writes the answer of an event, with its line end, if it has one.
pub(crate) fn write_answer<W: Write>(event: &Event, writer: &mut W) -> Result<(), io::Error>
    ensures { OnOk result (Appends (W.contents writer.old) (W.contents writer.new) (answer_text event.now)) }
{
    match event {
        Event::Did(done) => write_done(event, done.command(), done.answer(), writer),
        Event::Received { value, .. } => write_given(value, writer),
        Event::Refused { .. }
        | Event::Emptied { .. }
        | Event::Taken { .. }
        | Event::Skipped { .. } => write_reported(event, writer),
        Event::JobBegun { .. } | Event::CleanupBegun { .. } | Event::JobEnded | Event::Closed => Ok(
            (),
        ),
    }
}

fn write_done<W: Write>(
    event: &Event,
    command: &Command,
    answer: AnswerRef<'_>,
    writer: &mut W,
) -> Result<(), io::Error>
    ensures { OnOk result (Appends (W.contents writer.old) (W.contents writer.new) (answer_of event.now command.now (answer_said answer.entry))) }
{
    match (command, answer) {
        (Command::Say { .. }, _) => write_reported(event, writer),
        (Command::Keys { .. }, AnswerRef::Listed(_)) => write_reported(event, writer),
        (_, AnswerRef::Gives(value)) => write_given(value, writer),
        _ => Ok(()),
    }
}

/// Writes the line that the report has of the event.
fn write_reported<W: Write>(event: &Event, writer: &mut W) -> Result<(), io::Error>
    ensures { OnOk result (Appends (W.contents writer.old) (W.contents writer.new) (line event.now)) }
{
    write_lines(from_ref(event), writer)
}

fn write_given<W: Write>(value: &Value, writer: &mut W) -> Result<(), io::Error>
    ensures { OnOk result (Appends (W.contents writer.old) (W.contents writer.new) (given_text value.now)) }
{
    write_value(value, writer)?;
    writer.write_all(b"\n")
}
