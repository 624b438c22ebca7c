//! Which deeds meet what an agent asks.

ghost use Rattle.std.specs.Prelude.{◌≡◌, not, ◌&&◌};
ghost use Rattle.es_match.specs.Meets.{answers, carries, compares, has_ticket, is_access, same_index, is_number, is_object, is_pass, is_post, is_refusal, is_ticket};
ghost use Rattle.es_match.specs.DeedsShown.{shown};
ghost use Rattle.es_match.specs.Shown.{said};
ghost use Rattle.es_value.specs.Values.{is_same};
ghost use Rattle.es_value.specs.declared.value.Value.TheVariants.{Boolean};

use crate::deed::Deed;
use crate::tickets::BufferTickets;
use es_event::{Access, Body};
use es_value::{Value, same_value};

#[inline(always)]
pub(crate) fn same_index(index: i64, other: usize) -> bool
    ensures { result ≡ same_index index other }
{
    index >= 0 && index as u64 == other as u64
}

#[inline(always)]
pub(crate) fn is_number(value: Option<&Value>, number: usize) -> bool
    ensures { result ≡ is_number (said value.entry) number }
{
    match value {
        Some(Value::Number(other)) => same_index(*other, number),
        _ => false,
    }
}

fn is_boolean(value: Option<&Value>, truth: bool) -> bool
    ensures { result ≡ is_same (said value.entry) (Boolean truth) }
{
    match value {
        Some(Value::Boolean(other)) => *other == truth,
        _ => false,
    }
}

#[inline(always)]
pub(crate) fn is_ticket(tickets: &BufferTickets, buffer: Option<&Value>, serial: u64) -> bool
    ensures { result ≡ is_ticket tickets.now (said buffer.entry) serial }
{
    match tickets.find(buffer) {
        Some(row) => row.serial == serial,
        None => false,
    }
}

/// Whether the buffer's block has so many words as the answer says.
pub(crate) fn is_length(
    tickets: &BufferTickets,
    buffer: Option<&Value>,
    answer: Option<&Value>,
) -> bool
    ensures { result ≡ has_ticket tickets.now (said buffer.entry) (λ r. is_number (said answer.entry) r.words) }
{
    match tickets.find(buffer) {
        Some(row) => is_number(answer, row.words as usize),
        None => false,
    }
}

/// Whether the answer says if the two buffers are over one block.
pub(crate) fn compares(
    tickets: &BufferTickets,
    left: Option<&Value>,
    right: Option<&Value>,
    answer: Option<&Value>,
) -> bool
    ensures { result ≡ compares tickets.now (said left.entry) (said right.entry) (said answer.entry) }
{
    match (tickets.find(left), tickets.find(right)) {
        (Some(a), Some(b)) => is_boolean(answer, a.block == b.block),
        _ => false,
    }
}

/// Whether the deed does this to a word, over the one that is the answer.
#[inline(always)]
pub(crate) fn is_access(
    tickets: &BufferTickets,
    buffer: Option<&Value>,
    at: i64,
    access: Access,
    answer: Option<&Value>,
    deed: &Deed<'_>,
) -> bool
    ensures { result ≡ is_access tickets.now (said buffer.entry) at access (said answer.entry) (shown deed.now) }
{
    match deed {
        Deed::Access {
            serial,
            index,
            change,
            old,
        } => {
            // told first, where it is known what the command does
            let is_done = access.edit.on(*old).is_same(*change);
            let is_given = answers(access, answer, *old);
            is_ticket(tickets, buffer, *serial) && same_index(at, *index) && is_done && is_given
        }
        _ => false,
    }
}

/// Whether the answer is the word that was there, where the command gives it.
#[inline(always)]
fn answers(access: Access, answer: Option<&Value>, old: u32) -> bool
    ensures { result ≡ answers access (said answer.entry) old }
{
    !access.gives_word || is_number(answer, old as usize)
}

/// Whether the value is no object and the same as another.
pub(crate) fn is_plain(value: Option<&Value>, other: &Value) -> bool
    ensures { result ≡ (not (is_object (said value.entry)) && is_same (said value.entry) other.now) }
{
    match value {
        None => matches!(other, Value::Undefined),
        Some(Value::Object(_)) => false,
        Some(value) => same_value(value, other),
    }
}

fn carries(tickets: &BufferTickets, value: Option<&Value>, body: &Body) -> bool
    ensures { result ≡ carries tickets.now (said value.entry) body.now }
{
    match body {
        Body::Plain(other) => is_plain(value, other),
        Body::Block { block, .. } => match tickets.find(value) {
            Some(row) => row.block == *block,
            None => false,
        },
    }
}

/// Whether the deed posts the value to the agent.
pub(crate) fn is_post(
    tickets: &BufferTickets,
    agent: usize,
    value: Option<&Value>,
    deed: &Deed<'_>,
) -> bool
    ensures { result ≡ is_post tickets.now agent (said value.entry) (shown deed.now) }
{
    match deed {
        Deed::Post { receiver, body } => *receiver == agent && carries(tickets, value, body),
        _ => false,
    }
}

/// Whether a message with a ticket was taken, and its ticket spent.
pub(crate) fn is_refusal(first: &Deed<'_>, second: &Deed<'_>) -> bool
    ensures { result ≡ is_refusal (shown first.now) (shown second.now) }
{
    match first {
        Deed::Take {
            message: Some(Body::Block { serial, .. }),
            ..
        } => match second {
            Deed::Spend { serial: spent } => *spent == *serial,
            _ => false,
        },
        _ => false,
    }
}

/// Whether the deed is a skip of a job that waits for the sender.
pub(crate) fn is_pass(sender: usize, deed: &Deed<'_>) -> bool
    ensures { result ≡ is_pass sender (shown deed.now) }
{
    match deed {
        Deed::Pass { sender: other } => *other == sender,
        _ => false,
    }
}
