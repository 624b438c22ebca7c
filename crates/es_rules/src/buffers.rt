//! What the commands on shared buffers and on messages come to.

ghost use Rattle.std.specs.Prelude.{◌≡◌, map, ◌+◌, ◌∷◌, [], false, true, Some, None, pos, IfOk, IfErr, unsigned_abs, nat_lt, ◌==◌, if◌then◌else◌};
ghost use Rattle.std.specs.Option.{option_map_or, option_to_list};
ghost use Rattle.es_value.specs.Limits.{most_blocks, most_posts};
ghost use Rattle.es_event.specs.Jobs.{receivers};
ghost use Rattle.es_event.specs.Access.{variables_of};
ghost use Rattle.es_event.specs.Heard.{silence};
ghost use Rattle.es_event.specs.Legal.{values_of};
ghost use Rattle.es_event.specs.Numbers.{most_taken, number_or_0, word_at as word_of_number};
ghost use Rattle.es_event.specs.Variables.{var};
ghost use Rattle.es_rules.specs.Numbers.{number_at, numbers_at, refusal_at, task_here};
ghost use Rattle.es_event.specs.Identities.{gone, has_identity_in, object_of, made};
ghost use Rattle.es_event.specs.Sharing.{blocks_opened, messages_posted, row_at, words_of, block_of, is_index};
ghost use Rattle.es_event.specs.Rules.{refuse_or, first_refusal, room, room_for_block, room_for_post, of_buffer, of_number, of_postable, is_postable, answer_at};
ghost use Rattle.es_event.specs.declared.command.Command.{Command};
ghost use Rattle.es_rules.specs.Completion.{Completes};
ghost use Rattle.es_rules.specs.Needs.{request};

use crate::decide::fresh;
use crate::stop::Stop;
use es_event::{
    Answer, Atomic, MOST_TAKEN, Operand, Operation, Refusal, Task, count_of, cut, number_of,
    to_uint32,
};
use es_record::AgentRecord;
use es_tables::Tag;
use es_value::{Id, MOST_BLOCKS, MOST_POSTS, Value};

/// The buffer object that the value is (ValidateIntegerTypedArray).
fn buffer_in(agent: &AgentRecord, value: &Value) -> Result<Id, Refusal>
    requires there { has_identity_in (gone agent.now.history) value.now ≡ false }
    ensures ok { IfOk result (λ o. (object_of value.now ≡ Some o) × ((of_buffer agent.now.history value.now).0 ≡ true)) }
    ensures err { IfErr result (λ code. (code ≡ Refusal.NotASharedArrayBuffer) × ((of_buffer agent.now.history value.now).0 ≡ false)) }
{
    agent.tagged(
        value,
        Tag::SharedArrayBuffer,
        Refusal::NotASharedArrayBuffer,
    )
}

/// How many words the block of a buffer object has.
#[inline(always)]
fn words(agent: &AgentRecord, buffer: Id) -> u32
    ensures { result ≡ option_map_or (λ r. r.words) (row_at agent.now.over buffer) 0 }
{
    match agent.row(buffer) {
        Some(row) => row.words,
        None => 0,
    }
}

/// The block of a buffer object, by its number.
fn block(agent: &AgentRecord, buffer: Id) -> u64
    ensures { result ≡ option_map_or (λ r. r.block) (row_at agent.now.over buffer) 0 }
{
    match agent.row(buffer) {
        Some(row) => row.block,
        None => 0,
    }
}

/// The index, where a block of so many words has a word there.
#[inline(always)]
fn index_below(index: i64, words: u32) -> Option<usize>
    ensures { result ≡ (if is_index index words then Some (unsigned_abs index) else None) }
{
    if index < 0 {
        return None;
    }
    let place = index.unsigned_abs();
    if place < u64::from(words) {
        Some(place as usize)
    } else {
        None
    }
}

/// The buffer object and the index of a word, and what is done there (ValidateIntegerTypedArray,
/// ValidateAtomicAccess), or the first refusal that applies.
#[inline(always)]
pub(crate) fn word_at(agent: &AgentRecord, atomic: &Atomic) -> Result<(Id, usize, Task), Refusal>
    ensures ok { IfOk result (λ p. (refusal_at agent.now atomic.now ≡ None) × (object_of (var (receivers agent.now.plan.jobs) agent.now.history atomic.now.buffer) ≡ Some p.0) × (p.1 ≡ unsigned_abs (number_or_0 (number_at agent.now atomic.now.index))) × (p.2 ≡ task_here agent.now atomic.now)) }
    ensures err { IfErr result (λ code. refusal_at agent.now atomic.now ≡ Some code) }
{
    let buffer = buffer_in(agent, agent.value(atomic.buffer()))?;
    let index = number_at(agent, atomic.index())?;
    let Some(index) = index_below(index, words(agent, buffer)) else {
        return Err(Refusal::IndexOutOfRange);
    };
    let task = task_at(agent, atomic)?;
    Ok((buffer, index, task))
}

/// What is done at a word, or the first refusal among the operands.
#[inline(always)]
fn task_at(agent: &AgentRecord, atomic: &Atomic) -> Result<Task, Refusal>
    ensures ok { IfOk result (λ t. (first_refusal (map of_number (numbers_at agent.now atomic.now.operation)) ≡ None) × (t ≡ task_here agent.now atomic.now)) }
    ensures err { IfErr result (λ code. first_refusal (map of_number (numbers_at agent.now atomic.now.operation)) ≡ Some code) }
{
    let (first, second) = words_at(agent, atomic.operation())?;
    Ok(match atomic.operation() {
        Operation::Wait { .. } => Task::Sleep(first),
        Operation::Notify { count, .. } => Task::Notify(count_at(agent, count)),
        _ => Task::Access(atomic.access_by(first, second)),
    })
}

/// How many agents a notify takes at most (Atomics.notify).
fn count_at(agent: &AgentRecord, count: &Option<Operand>) -> u32
    ensures { result ≡ most_taken count.now (values_of (receivers agent.now.plan.jobs) agent.now.history (variables_of (option_to_list count.now))) }
{
    match count {
        Some(Operand::Number(number)) => cut(*number),
        Some(Operand::Variable(name)) => count_of(agent.value(name)),
        None => MOST_TAKEN,
    }
}

/// The words of an operation's operands, or the first refusal among them.
#[inline(always)]
fn words_at(agent: &AgentRecord, operation: &Operation) -> Result<(u32, u32), Refusal>
    ensures ok { IfOk result (λ p. (first_refusal (map of_number (numbers_at agent.now operation.now)) ≡ None) × (p.0 ≡ word_of_number 0 (numbers_at agent.now operation.now)) × (p.1 ≡ word_of_number 1 (numbers_at agent.now operation.now))) }
    ensures err { IfErr result (λ code. first_refusal (map of_number (numbers_at agent.now operation.now)) ≡ Some code) }
{
    match operation {
        Operation::Load { .. } | Operation::Notify { count: None, .. } => Ok((0, 0)),
        Operation::Store { number }
        | Operation::Modify { number, .. }
        | Operation::Wait { number, .. }
        | Operation::Notify {
            count: Some(number),
            ..
        } => Ok((to_uint32(number_at(agent, number)?), 0)),
        Operation::CompareExchange {
            expected,
            replacement,
            ..
        } => {
            let expected = number_at(agent, expected)?;
            let replacement = number_at(agent, replacement)?;
            Ok((to_uint32(expected), to_uint32(replacement)))
        }
    }
}

/// The number of an operand, or why it has none.
#[inline(always)]
fn number_at(agent: &AgentRecord, operand: &Operand) -> Result<i64, Refusal>
    ensures { result ≡ number_at agent.now operand.now }
{
    match operand {
        Operand::Number(number) => Ok(*number),
        Operand::Variable(name) => number_of(agent.value(name)),
    }
}

/// Refuses one block more than an agent opens.
pub(crate) fn may_open(agent: &AgentRecord) -> Result<(), Refusal>
    ensures ok { IfOk result (λ _. nat_lt (blocks_opened agent.now.history) most_blocks ≡ true) }
    ensures err { IfErr result (λ code. (code ≡ Refusal.TooManyBlocks) × (nat_lt (blocks_opened agent.now.history) most_blocks ≡ false)) }
{
    if agent.blocks_opened() < MOST_BLOCKS {
        Ok(())
    } else {
        Err(Refusal::TooManyBlocks)
    }
}

/// Refuses one message more than an agent posts.
pub(crate) fn may_post(agent: &AgentRecord) -> Result<(), Refusal>
    ensures ok { IfOk result (λ _. nat_lt (messages_posted agent.now.history) most_posts ≡ true) }
    ensures err { IfErr result (λ code. (code ≡ Refusal.TooManyPosts) × (nat_lt (messages_posted agent.now.history) most_posts ≡ false)) }
{
    if agent.messages_posted() < MOST_POSTS {
        Ok(())
    } else {
        Err(Refusal::TooManyPosts)
    }
}

/// Refuses what no message carries.
pub(crate) fn postable(agent: &AgentRecord, value: &Value) -> Result<(), Refusal>
    requires there { has_identity_in (gone agent.now.history) value.now ≡ false }
    ensures ok { IfOk result (λ _. is_postable agent.now.history value.now ≡ true) }
    ensures err { IfErr result (λ code. (code ≡ Refusal.NotPostable) × (is_postable agent.now.history value.now ≡ false)) }
{
    if value.identity().is_none() || buffer_in(agent, value).is_ok() {
        Ok(())
    } else {
        Err(Refusal::NotPostable)
    }
}

#[inline(never)]
pub(crate) fn new_buffer(agent: &AgentRecord) -> Result<Answer, Stop>
    ensures { Completes (refuse_or (first_refusal (room agent.now.history ∷ room_for_block agent.now.history ∷ [])) (Answer.Gives (Value.Object (made agent.now.history + 1)))) result }
{
    let object = fresh(agent)?;
    may_open(agent)?;
    Ok(Answer::Gives(Value::Object(object)))
}

#[inline(never)]
pub(crate) fn length(agent: &AgentRecord, buffer: &Value) -> Result<Answer, Stop>
    requires there { has_identity_in (gone agent.now.history) buffer.now ≡ false }
    ensures { Completes (refuse_or (first_refusal (of_buffer agent.now.history buffer.now ∷ [])) (Answer.Gives (Value.Number (pos (words_of agent.now.over buffer.now))))) result }
{
    let words = words(agent, buffer_in(agent, buffer)?);
    Ok(Answer::Gives(Value::Number(i64::from(words))))
}

#[inline(never)]
pub(crate) fn same_block(agent: &AgentRecord, left: &Value, right: &Value) -> Result<Answer, Stop>
    requires left { has_identity_in (gone agent.now.history) left.now ≡ false }
    requires right { has_identity_in (gone agent.now.history) right.now ≡ false }
    ensures { Completes (refuse_or (first_refusal (of_buffer agent.now.history left.now ∷ of_buffer agent.now.history right.now ∷ [])) (Answer.Gives (Value.Boolean (block_of agent.now.over left.now == block_of agent.now.over right.now)))) result }
{
    let left = block(agent, buffer_in(agent, left)?);
    let right = block(agent, buffer_in(agent, right)?);
    Ok(Answer::Gives(Value::Boolean(left == right)))
}

/// The refusal of a command on a word that asks the ledger for nothing.
#[inline(never)]
pub(crate) fn access(agent: &AgentRecord, atomic: &Atomic) -> Result<Answer, Stop>
    requires local { request agent.now (Command.Atomic atomic.now) ≡ None }
    ensures { Completes (refuse_or (refusal_at agent.now atomic.now) (answer_at atomic.now.operation silence)) result }
{
    match word_at(agent, atomic) {
        Ok(_) => unreachable!(),
        Err(code) => Err(Stop::Refused(code)),
    }
}

#[inline(never)]
pub(crate) fn post(agent: &AgentRecord, value: &Value) -> Result<Answer, Stop>
    requires there { has_identity_in (gone agent.now.history) value.now ≡ false }
    ensures { Completes (refuse_or (first_refusal (of_postable agent.now.history value.now ∷ room_for_post agent.now.history ∷ [])) Answer.Nothing) result }
{
    postable(agent, value)?;
    may_post(agent)?;
    Ok(Answer::Nothing)
}
