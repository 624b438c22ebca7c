//! What a command asks the ledger for, unless a rule refuses it.

ghost use Rattle.std.specs.Prelude.{◌≡◌, ◌∷◌, [], Some};
ghost use Rattle.std.specs.Option.{option_map};
ghost use Rattle.es_event.specs.Jobs.{receivers};
ghost use Rattle.es_event.specs.Numbers.{number_or_0};
ghost use Rattle.es_event.specs.Variables.{var};
ghost use Rattle.es_event.specs.Rules.{first_refusal, room, room_for_block, room_for_post, of_postable};
ghost use Rattle.es_rules.specs.Needs.{at_word, unless_refused, for_block, posts_to};
ghost use Rattle.es_rules.specs.Numbers.{number_at, refusal_at, task_here};
ghost use Rattle.es_rules.specs.Shown.{requested};

use crate::buffers::{may_open, may_post, postable, word_at};
use crate::decide::fresh;
use crate::need::Request;
use es_event::Atomic;
use es_record::AgentRecord;
use es_value::{Name, Value};

pub(crate) fn block_request<'a>(agent: &'a AgentRecord, words: u32) -> Option<Request<'a>>
    ensures { option_map requested result ≡ unless_refused (first_refusal (room agent.now.history ∷ room_for_block agent.now.history ∷ [])) (Some (for_block words)) }
{
    if fresh(agent).is_ok() && may_open(agent).is_ok() {
        Some(Request::NewBlock { words })
    } else {
        None
    }
}

/// What is done at the word at an index of a buffer object's block.
#[inline(always)]
pub(crate) fn word_request<'a>(agent: &'a AgentRecord, atomic: &Atomic) -> Option<Request<'a>>
    ensures { option_map requested result ≡ unless_refused (refusal_at agent.now atomic.now)
        (at_word (var (receivers agent.now.plan.jobs) agent.now.history atomic.now.buffer) (number_or_0 (number_at agent.now atomic.now.index)) (task_here agent.now atomic.now)) }
{
    match word_at(agent, atomic) {
        Ok((buffer, index, task)) => Some(Request::Word {
            buffer,
            index,
            task,
        }),
        Err(_) => None,
    }
}

pub(crate) fn post_request<'a>(
    agent: &'a AgentRecord,
    receiver: usize,
    from: &Name,
) -> Option<Request<'a>>
    ensures { option_map requested result ≡ unless_refused (first_refusal (of_postable agent.now.history (var (receivers agent.now.plan.jobs) agent.now.history from.now) ∷ room_for_post agent.now.history ∷ [])) (Some (posts_to receiver (var (receivers agent.now.plan.jobs) agent.now.history from.now))) }
{
    let value = agent.value(from);
    if postable(agent, value).is_ok() && may_post(agent).is_ok() {
        Some(posting(receiver, value))
    } else {
        None
    }
}

/// A buffer object is posted as its block.
fn posting<'a>(receiver: usize, value: &'a Value) -> Request<'a>
    ensures { requested result ≡ posts_to receiver value.now }
{
    match value {
        Value::Object(buffer) => Request::PostBuffer {
            receiver,
            buffer: *buffer,
        },
        _ => Request::Post { receiver, value },
    }
}
