//! What an event assigns, read off the event.

ghost use Rattle.std.specs.Prelude.{◌≡◌, codes};
ghost use Rattle.std.specs.Option.{option_copied};
ghost use Rattle.es_event.specs.Commands.{assigns};
ghost use Rattle.es_event.specs.Variables.{gives_to};
ghost use Rattle.es_event.specs.Answers.{answer_said};
ghost use Rattle.es_tables.specs.Effects.{assigned_by};
ghost use Rattle.es_props.specs.Variables.{said};

use es_event::{AnswerRef, Command, Event};
use es_value::{Name, Value};

/// The variable that an event assigns, with its value, where it assigns one. `held` is the name of the
/// variable that a cell's held value is assigned to, `received` that of the one that a message's value is
/// assigned to.
#[inline(always)]
pub(crate) fn assigned_by<'a>(
    event: &'a Event,
    held: &'a Name,
    received: &'a Name,
) -> Option<(&'a Name, &'a Value)>
    requires { held.now ≡ codes "held" }
    ensures { said result ≡ assigned_by received.now event.now }
{
    match event {
        Event::Received { value, .. } => Some((received, value)),
        Event::Did(done) => given_by(done.command(), done.answer()),
        Event::Taken { held: value, .. } => Some((held, value)),
        Event::JobBegun { .. }
        | Event::CleanupBegun { .. }
        | Event::Refused { .. }
        | Event::Emptied { .. }
        | Event::JobEnded
        | Event::Skipped { .. }
        | Event::Closed => None,
    }
}

/// The variable that a command's answer goes to, with the value.
#[inline(always)]
pub(crate) fn given_by<'a>(
    command: &'a Command,
    answer: AnswerRef<'a>,
) -> Option<(&'a Name, &'a Value)>
    ensures { said result ≡ gives_to (assigns command.now) (answer_said answer.entry) }
{
    given_to(command.assigns(), answer)
}

/// The variable that an answer goes to, with the value.
#[inline(always)]
pub(crate) fn given_to<'a>(
    to: Option<&'a Name>,
    answer: AnswerRef<'a>,
) -> Option<(&'a Name, &'a Value)>
    ensures { said result ≡ gives_to (option_copied to.entry) (answer_said answer.entry) }
{
    match answer {
        AnswerRef::Gives(value) => match to {
            Some(name) => Some((name, value)),
            None => None,
        },
        AnswerRef::Nothing | AnswerRef::Listed(_) => None,
    }
}
