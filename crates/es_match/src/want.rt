//! What an event of an agent asks of the ledger.

ghost use Rattle.std.specs.Prelude.{◌≡◌, Bool, List, false, IsTrue};
ghost use Rattle.es_value.specs.declared.value.Value.{Value as ValueSaid};
ghost use Rattle.es_event.specs.Commands.{first, second};
ghost use Rattle.es_match.specs.Asks.{nothing, asks, asks_did, ends_job, given, wants_room};
ghost use Rattle.es_match.specs.Shown.{asking, said};
ghost use Rattle.es_event.specs.declared.event.Answer.{Answer as Answered};
ghost use Rattle.es_event.specs.Answers.{answer_said};

use crate::one_deed::OneDeed;
use es_event::{AnswerRef, Command, Event, Refusal};
use es_value::{Id, Value};

/// What an event asks of the ledger. An answer is the value that the command gave; none stands for
/// undefined.
#[derive(Clone, Copy)]
pub(crate) enum Want<'a> {
    /// Nothing.
    Nothing,
    /// To open a block of so many words.
    Opening {
        words: u32,
        made: Option<&'a Value>,
    },
    /// The number of words of a buffer's block.
    Length {
        buffer: Option<&'a Value>,
        answer: Option<&'a Value>,
    },
    /// Whether two buffers are over one block.
    SameBlock {
        left: Option<&'a Value>,
        right: Option<&'a Value>,
        answer: Option<&'a Value>,
    },
    /// What one deed meets.
    OneDeed(OneDeed<'a>),
    /// To take a message that gives a value.
    Receiving {
        sender: usize,
        value: &'a Value,
    },
    /// To take a message, and to spend its ticket.
    Refusal,
    /// To spend the tickets of these objects.
    Emptying {
        ids: &'a [Id],
    },
    /// To spend every ticket, and to end.
    Closing,
}

/// Whether the event asks the ledger for nothing, as most do, whether a job is under way or not.
#[inline(always)]
pub(crate) fn asks_nothing(event: &Event) -> bool
    ensures { IsTrue result → (between : Bool) → asks between event.now ≡ nothing }
{
    if let Event::Did(done) = event {
        return !may_ask(done.command());
    }
    matches!(
        event,
        Event::JobBegun { .. } | Event::CleanupBegun { .. } | Event::Taken { .. } | Event::JobEnded
    )
}

/// Whether the command is one that asks the ledger for something.
#[inline(always)]
fn may_ask(command: &Command) -> bool
    ensures { result ≡ false → (values : List ValueSaid) (r : Answered) → asks_did command.now values r ≡ nothing }
{
    matches!(
        command,
        Command::SharedArrayBuffer { .. }
            | Command::Length { .. }
            | Command::SameBlock { .. }
            | Command::Atomic(_)
            | Command::Post { .. }
    )
}

/// What an event asks of the ledger, where a job is under way or not.
#[inline(always)]
pub(crate) fn want_at<'a>(between: bool, event: &'a Event) -> Want<'a>
    ensures { asking result ≡ asks between event.now }
{
    match event {
        Event::JobBegun { .. }
        | Event::CleanupBegun { .. }
        | Event::Taken { .. }
        | Event::JobEnded => Want::Nothing,
        Event::Received { sender, value } => Want::Receiving {
            sender: *sender,
            value,
        },
        Event::Did(done) => want_of(done.command(), done.values(), given(done.answer())),
        Event::Refused { code } => {
            if between && wants_room(*code) {
                Want::Refusal
            } else {
                Want::Nothing
            }
        }
        Event::Emptied { ids } => Want::Emptying {
            ids: ids.as_slice(),
        },
        Event::Skipped { sender, .. } => Want::OneDeed(OneDeed::Passing { sender: *sender }),
        Event::Closed => Want::Closing,
    }
}

/// Whether no job is under way after the event.
#[inline(always)]
pub fn ends_job(event: &Event) -> bool
    ensures { result ≡ ends_job event.now }
{
    matches!(event, Event::JobEnded | Event::Skipped { .. })
}

#[inline(always)]
fn wants_room(code: Refusal) -> bool
    ensures { result ≡ wants_room code }
{
    matches!(code, Refusal::TooManyValues)
}

#[inline(always)]
fn given(answer: AnswerRef<'_>) -> Option<&Value>
    ensures { said result ≡ given (answer_said answer.entry) }
{
    match answer {
        AnswerRef::Gives(value) => Some(value),
        AnswerRef::Nothing | AnswerRef::Listed(_) => None,
    }
}

#[inline(always)]
pub(crate) fn first(values: &[Value]) -> Option<&Value>
    ensures { said result ≡ first values.now }
{
    values.first()
}

fn second(values: &[Value]) -> Option<&Value>
    ensures { said result ≡ second values.now }
{
    values.get(1)
}

#[inline(always)]
fn want_of<'a>(command: &'a Command, values: &'a [Value], answer: Option<&'a Value>) -> Want<'a>
    ensures { (r : Answered) → said answer.entry ≡ given r → asking result ≡ asks_did command.now values.now r }
{
    match command {
        Command::SharedArrayBuffer { words, .. } => Want::Opening {
            words: *words,
            made: answer,
        },
        Command::Length { .. } => Want::Length {
            buffer: first(values),
            answer,
        },
        Command::SameBlock { .. } => Want::SameBlock {
            left: first(values),
            right: second(values),
            answer,
        },
        Command::Atomic(atomic) => Want::OneDeed(OneDeed::AtWord {
            atomic,
            values,
            answer,
        }),
        Command::Post { receiver, .. } => Want::OneDeed(OneDeed::Posting {
            receiver: *receiver,
            value: first(values),
        }),
        _ => Want::Nothing,
    }
}
