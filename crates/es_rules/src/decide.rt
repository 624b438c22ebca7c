//! The next event of an agent, decided from its record alone.

ghost use Rattle.std.specs.Prelude.{◌≡◌, ◌+◌, ◌∷◌, ◌↔◌, [], false, true, None, Some, Ok, Err, Option, List, ℕ, nat_lt, IfOk, IfErr, IfSome, IfNone, OnOk, IsTrue, if◌then◌else◌};
ghost use Rattle.es_event.specs.declared.command.Command.{Command as CommandSaid};
ghost use Rattle.es_event.specs.declared.event.Refusal.{Refusal as RefusalSaid};
ghost use Rattle.es_value.specs.Limits.{most_identities};
ghost use Rattle.es_event.specs.Commands.{reads};
ghost use Rattle.es_event.specs.Later.{begins_later, collects_now};
ghost use Rattle.es_event.specs.Identities.{gone, has_identity_in, made};
ghost use Rattle.es_event.specs.Heard.{silence};
ghost use Rattle.es_event.specs.Jobs.{receivers};
ghost use Rattle.es_event.specs.Literals.{literal_value};
ghost use Rattle.es_event.specs.Rules.{completion, refuse_or, first_refusal, none_open, room, of_object, of_weakref, of_held_weakly, or_undefined, prop_of, keys_of, target_of};
ghost use Rattle.es_event.specs.Legal.{values_of};
ghost use Rattle.es_event.specs.Order.{due, run, RunsNow};
ghost use Rattle.es_event.specs.Follows.{refused_now};
ghost use Rattle.es_record.specs.AgentView.{IsNext, AreThere};
ghost use Rattle.es_rules.specs.Completion.{Completes};
ghost use Rattle.es_rules.specs.Needs.{asks_nobody, need, request};

use crate::need::asks_somebody;
use crate::operand::{four, held_weakly, object_in, one, three, two};
use crate::stop::Stop;
use crate::{buffers, ephemerons, registries};
use es_event::{
    Answer, Command, Done, Due, Event, Literal, Refusal, Sequence, SharedList, catch_refusal,
};
use es_record::AgentRecord;
use es_tables::Tag;
use es_value::{Id, MOST_IDENTITIES, Name, NoMemory, Text, Value, same_value};

/// Whether the agent asks nobody for the event that comes next.
#[inline(always)]
pub fn asks_nobody(agent: &AgentRecord) -> bool
    ensures { IsTrue result ↔ (need agent.now ≡ asks_nobody) }
{
    match agent.due() {
        Due::Run(_, command) => !asks_somebody(agent, command),
        Due::Begin(_) | Due::Clean(_) | Due::Take(_) => true,
        Due::EndJob => !agent.is_open(),
        Due::Receive { .. } | Due::Close | Due::Nothing => false,
    }
}

/// The event that comes next, where the agent asks nobody for it and no command is due (ECMA-262, Jobs and Host
/// Operations to Enqueue Jobs). It fails for want of memory alone.
pub fn next_event(agent: &AgentRecord) -> Result<Event, NoMemory>
    requires alone { need agent.now ≡ asks_nobody }
    requires idle { (x : Option (List ℕ)) (c : CommandSaid) → due agent.now.plan agent.now.history ≡ run x c → ⊥ }
    ensures { IfOk result (IsNext agent.now) }
{
    match agent.due() {
        Due::Begin(job) => Ok(Event::JobBegun { job }),
        Due::Clean(_) => registries::cleaning(agent),
        Due::Take(registration) => registries::taking(agent, registration),
        Due::EndJob => Ok(Event::JobEnded),
        Due::Run(..) | Due::Receive { .. } | Due::Close | Due::Nothing => unreachable!(),
    }
}

/// What is done in the place of the due command, which a rule refuses with this code, where it stands behind a `try`: its
/// variable catches that (ECMA-262, TryStatement). None where nothing catches it. It fails for want of memory alone.
pub fn caught(agent: &AgentRecord, code: Refusal) -> Result<Option<Done>, NoMemory>
    requires due { (x : Option (List ℕ)) × (c : CommandSaid) × (due agent.now.plan agent.now.history ≡ run x c) }
    requires refused { (x : Option (List ℕ)) (c : CommandSaid) → due agent.now.plan agent.now.history ≡ run x c → refused_now agent.now.over (receivers agent.now.plan.jobs) agent.now.history c ≡ Some code }
    ensures caught { IfOk result (λ o. IfSome o (λ d. IsNext agent.now (Event.Did d))) }
    ensures opens { IfOk result (λ o. IfSome o (λ d. begins_later (Event.Did d) ≡ false)) }
    ensures refused { IfOk result (λ o. IfNone o (IsNext agent.now (Event.Refused code))) }
{
    match agent.due() {
        Due::Run(Some(to), _) => Ok(Some(catch_refusal(agent.alloc(), to, code)?)),
        Due::Run(None, _) => Ok(None),
        _ => unreachable!(),
    }
}

/// Does the command that is due and asks nobody, which read what `done` has: it gives what the rules answer, and
/// empties nothing. It fails where a rule refuses it, and for want of memory.
#[inline(always)]
pub fn do_alone(agent: &AgentRecord, command: &Command, done: &mut Done) -> Result<(), Stop>
    requires due { RunsNow (due agent.now.plan agent.now.history) command.now }
    requires here { collects_now agent.now.history command.now ≡ false }
    requires local { request agent.now command.now ≡ None }
    requires read { done.old ≡ (command.now, values_of (receivers agent.now.plan.jobs) agent.now.history (reads command.now), Answer.Nothing) }
    requires there { AreThere agent.now done.old.1 }
    ensures next { OnOk result (IsNext agent.now (Event.Did done.new)) }
    ensures refused { IfErr result (λ why. (code : RefusalSaid) → why ≡ Stop.Refused code → refused_now agent.now.over (receivers agent.now.plan.jobs) agent.now.history command.now ≡ Some code) }
{
    let answer = completion(agent, command, done.values())?;
    done.give(agent.alloc(), answer)?;
    Ok(())
}

/// What the rules answer to a command that asks the ledger for nothing. Nothing that a variable holds is emptied, so
/// each object that is read is there.
#[inline(always)]
fn completion(agent: &AgentRecord, command: &Command, values: &[Value]) -> Result<Answer, Stop>
    requires said { values.now ≡ values_of (receivers agent.now.plan.jobs) agent.now.history (reads command.now) }
    requires there { AreThere agent.now values.now }
    requires local { request agent.now command.now ≡ None }
    ensures { Completes (completion agent.now.over agent.now.history command.now values.now silence) result }
{
    match command {
        Command::Let { literal, .. } => written(literal),
        Command::New { .. } => new_object(agent),
        Command::Symbol { .. } => new_symbol(agent),
        Command::SymbolFor { text, .. } => registered(text),
        Command::Copy { .. } => copied(one(values)),
        Command::Same { .. } => {
            let (left, right) = two(values);
            Ok(Answer::Gives(Value::Boolean(same_value(left, right))))
        }
        Command::Say { .. } => Ok(Answer::Nothing),
        Command::Collect | Command::CollectLater => collection(agent),
        Command::Set { .. } => {
            let (object, _) = two(values);
            set(object)
        }
        Command::Get { key, .. } => get(agent, one(values), key),
        Command::Delete { .. } => delete(one(values)),
        Command::Keys { .. } => keys(agent, one(values)),
        Command::WeakRef { .. } => weakref(agent, one(values)),
        Command::Deref { .. } => deref(agent, one(values)),
        Command::WeakMap { .. } | Command::WeakSet { .. } | Command::FinalizationRegistry { .. } =>
            new_object(agent),
        Command::WeakMapSet { .. } => {
            let (map, key, _) = three(values);
            ephemerons::weakmap_set(agent, map, key)
        }
        Command::WeakMapGet { .. } => {
            let (map, key) = two(values);
            ephemerons::weakmap_get(agent, map, key)
        }
        Command::WeakMapHas { .. } | Command::WeakMapDelete { .. } => {
            let (map, key) = two(values);
            ephemerons::weakmap_has(agent, map, key)
        }
        Command::WeakSetAdd { .. } => {
            let (set, member) = two(values);
            ephemerons::weakset_add(agent, set, member)
        }
        Command::WeakSetHas { .. } | Command::WeakSetDelete { .. } => {
            let (set, member) = two(values);
            ephemerons::weakset_has(agent, set, member)
        }
        Command::Register { token, .. } => match token.get() {
            None => {
                let (registry, target, held) = three(values);
                registries::register(agent, registry, target, held, &Value::Undefined)
            }
            Some(_) => {
                let (registry, target, held, token) = four(values);
                registries::register(agent, registry, target, held, token)
            }
        },
        Command::Unregister { .. } => {
            let (registry, token) = two(values);
            registries::unregister(agent, registry, token)
        }
        Command::SharedArrayBuffer { .. } => buffers::new_buffer(agent),
        Command::Length { .. } => buffers::length(agent, one(values)),
        Command::SameBlock { .. } => {
            let (left, right) = two(values);
            buffers::same_block(agent, left, right)
        }
        Command::Atomic(atomic) => buffers::access(agent, atomic),
        Command::Post { .. } => buffers::post(agent, one(values)),
    }
}

/// What a literal gives. This and those below stand alone, so that a command makes place for its own answer alone.
#[inline(never)]
fn written(literal: &Literal) -> Result<Answer, Stop>
    ensures { Completes (Ok (Answer.Gives (literal_value literal.now))) result }
{
    Ok(Answer::Gives(literal.value()?))
}

/// The registered symbol of a text.
#[inline(never)]
fn registered(text: &Text) -> Result<Answer, Stop>
    ensures { Completes (Ok (Answer.Gives (Value.Registered text.now))) result }
{
    Ok(Answer::Gives(Value::Registered(text.copy()?)))
}

/// Another variable's value.
#[inline(never)]
fn copied(value: &Value) -> Result<Answer, Stop>
    ensures { Completes (Ok (Answer.Gives value.now)) result }
{
    Ok(Answer::Gives(value.copy()?))
}

#[inline(never)]
fn set(object: &Value) -> Result<Answer, Stop>
    ensures { Completes (refuse_or (first_refusal (of_object object.now ∷ [])) Answer.Nothing) result }
{
    object_in(object)?;
    Ok(Answer::Nothing)
}

#[inline(never)]
fn delete(object: &Value) -> Result<Answer, Stop>
    ensures { Completes (refuse_or (first_refusal (of_object object.now ∷ [])) (Answer.Gives (Value.Boolean true))) result }
{
    object_in(object)?;
    Ok(Answer::Gives(Value::Boolean(true)))
}

/// While a later collection is open, another is refused.
#[inline(never)]
fn collection(agent: &AgentRecord) -> Result<Answer, Stop>
    ensures { Completes (refuse_or (first_refusal (none_open agent.now.history ∷ [])) Answer.Nothing) result }
{
    if agent.is_open() {
        return Err(Stop::Refused(Refusal::CollectionOpen));
    }
    Ok(Answer::Nothing)
}

/// The next identity, if there is room for one more.
pub(crate) fn fresh(agent: &AgentRecord) -> Result<Id, Refusal>
    ensures { result ≡ (if nat_lt (made agent.now.history) most_identities then Ok (made agent.now.history + 1) else Err Refusal.TooManyValues) }
{
    if agent.identities() < MOST_IDENTITIES {
        Ok(agent.next_identity())
    } else {
        Err(Refusal::TooManyValues)
    }
}

#[inline(never)]
fn new_symbol(agent: &AgentRecord) -> Result<Answer, Stop>
    ensures { Completes (refuse_or (first_refusal (room agent.now.history ∷ [])) (Answer.Gives (Value.Symbol (made agent.now.history + 1)))) result }
{
    Ok(Answer::Gives(Value::Symbol(fresh(agent)?)))
}

#[inline(never)]
fn new_object(agent: &AgentRecord) -> Result<Answer, Stop>
    ensures { Completes (refuse_or (first_refusal (room agent.now.history ∷ [])) (Answer.Gives (Value.Object (made agent.now.history + 1)))) result }
{
    Ok(Answer::Gives(Value::Object(fresh(agent)?)))
}

#[inline(never)]
fn get(agent: &AgentRecord, object: &Value, key: &Name) -> Result<Answer, Stop>
    requires there { has_identity_in (gone agent.now.history) object.now ≡ false }
    ensures { Completes (refuse_or (first_refusal (of_object object.now ∷ [])) (or_undefined (prop_of agent.now.history object.now key.now))) result }
{
    match agent.property(object_in(object)?, key) {
        Some(value) => Ok(Answer::Gives(value.copy()?)),
        None => Ok(Answer::Gives(Value::Undefined)),
    }
}

#[inline(never)]
fn keys(agent: &AgentRecord, object: &Value) -> Result<Answer, Stop>
    requires there { has_identity_in (gone agent.now.history) object.now ≡ false }
    ensures { Completes (refuse_or (first_refusal (of_object object.now ∷ [])) (Answer.Listed (keys_of agent.now.history object.now))) result }
{
    let keys = agent.keys_of_object(object_in(object)?)?;
    Ok(Answer::Listed(SharedList::of(Sequence::from_vec(keys))?))
}

#[inline(never)]
fn weakref(agent: &AgentRecord, target: &Value) -> Result<Answer, Stop>
    ensures { Completes (refuse_or (first_refusal (of_held_weakly target.now ∷ room agent.now.history ∷ [])) (Answer.Gives (Value.Object (made agent.now.history + 1)))) result }
{
    held_weakly(target)?;
    new_object(agent)
}

#[inline(never)]
fn deref(agent: &AgentRecord, weakref: &Value) -> Result<Answer, Stop>
    requires there { has_identity_in (gone agent.now.history) weakref.now ≡ false }
    ensures { Completes (refuse_or (first_refusal (of_weakref agent.now.history weakref.now ∷ [])) (or_undefined (target_of agent.now.history weakref.now))) result }
{
    match agent.target(agent.tagged(weakref, Tag::WeakRef, Refusal::NotAWeakRef)?) {
        Some(target) => Ok(Answer::Gives(target)),
        None => Ok(Answer::Gives(Value::Undefined)),
    }
}
