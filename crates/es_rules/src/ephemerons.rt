//! What the commands of WeakMaps and WeakSets come to.

ghost use Rattle.std.specs.Prelude.{◌≡◌, ◌∷◌, [], false, is_some};
ghost use Rattle.es_event.specs.Identities.{gone, has_identity_in};
ghost use Rattle.es_event.specs.Rules.{refuse_or, first_refusal, of_weakmap, of_weakset, of_held_weakly, or_undefined, entry_of, is_member_of};
ghost use Rattle.es_rules.specs.Completion.{Completes};

use crate::operand::held_weakly;
use crate::stop::Stop;
use es_event::{Answer, Refusal};
use es_record::AgentRecord;
use es_tables::Tag;
use es_value::Value;

#[inline(never)]
pub(crate) fn weakmap_set(agent: &AgentRecord, map: &Value, key: &Value) -> Result<Answer, Stop>
    requires there { has_identity_in (gone agent.now.history) map.now ≡ false }
    ensures { Completes (refuse_or (first_refusal (of_weakmap agent.now.history map.now ∷ of_held_weakly key.now ∷ [])) Answer.Nothing) result }
{
    agent.tagged(map, Tag::WeakMap, Refusal::NotAWeakMap)?;
    held_weakly(key)?;
    Ok(Answer::Nothing)
}

#[inline(never)]
pub(crate) fn weakmap_get(agent: &AgentRecord, map: &Value, key: &Value) -> Result<Answer, Stop>
    requires there { has_identity_in (gone agent.now.history) map.now ≡ false }
    ensures { Completes (refuse_or (first_refusal (of_weakmap agent.now.history map.now ∷ [])) (or_undefined (entry_of agent.now.history map.now key.now))) result }
{
    let map = agent.tagged(map, Tag::WeakMap, Refusal::NotAWeakMap)?;
    match agent.entry(map, key) {
        Some(value) => Ok(Answer::Gives(value.copy()?)),
        None => Ok(Answer::Gives(Value::Undefined)),
    }
}

/// Whether the WeakMap has the key: what `has` and `delete` alike answer.
#[inline(never)]
pub(crate) fn weakmap_has(agent: &AgentRecord, map: &Value, key: &Value) -> Result<Answer, Stop>
    requires there { has_identity_in (gone agent.now.history) map.now ≡ false }
    ensures { Completes (refuse_or (first_refusal (of_weakmap agent.now.history map.now ∷ [])) (Answer.Gives (Value.Boolean (is_some (entry_of agent.now.history map.now key.now))))) result }
{
    let map = agent.tagged(map, Tag::WeakMap, Refusal::NotAWeakMap)?;
    let there = agent.entry(map, key).is_some();
    Ok(Answer::Gives(Value::Boolean(there)))
}

#[inline(never)]
pub(crate) fn weakset_add(agent: &AgentRecord, set: &Value, member: &Value) -> Result<Answer, Stop>
    requires there { has_identity_in (gone agent.now.history) set.now ≡ false }
    ensures { Completes (refuse_or (first_refusal (of_weakset agent.now.history set.now ∷ of_held_weakly member.now ∷ [])) Answer.Nothing) result }
{
    agent.tagged(set, Tag::WeakSet, Refusal::NotAWeakSet)?;
    held_weakly(member)?;
    Ok(Answer::Nothing)
}

/// Whether the WeakSet has the member: what `has` and `delete` alike answer.
#[inline(never)]
pub(crate) fn weakset_has(agent: &AgentRecord, set: &Value, member: &Value) -> Result<Answer, Stop>
    requires there { has_identity_in (gone agent.now.history) set.now ≡ false }
    ensures { Completes (refuse_or (first_refusal (of_weakset agent.now.history set.now ∷ [])) (Answer.Gives (Value.Boolean (is_member_of agent.now.history set.now member.now)))) result }
{
    let set = agent.tagged(set, Tag::WeakSet, Refusal::NotAWeakSet)?;
    Ok(Answer::Gives(Value::Boolean(agent.has_member(set, member))))
}
