//! What one step leads to, kind by kind.

ghost use Rattle.std.specs.Prelude.{◌≡◌, ◌<◌, ◌++◌, ◌∷◌, ℕ, [], false, true, length, reverse, Some, OnOk};
ghost use Rattle.std.specs.List.{range_with_len};
ghost use Rattle.std.specs.Option.{option_and_then};
ghost use Rattle.es_event.specs.Identities.{identity, made, is_gone};
ghost use Rattle.es_event.specs.Properties.{keys as keys_said, prop};
ghost use Rattle.es_event.specs.WeakRefs.{kept};
ghost use Rattle.es_event.specs.Registrations.{registered};
ghost use Rattle.es_mark.specs.declared.step.Step.TheVariants.{Variable as VariableStep, Kept as KeptStep, Registry as RegistryStep, Held as HeldStep, Property as PropertyStep};
ghost use Rattle.es_record.specs.Leading.{held_of, property_at};
ghost use Rattle.es_why.specs.Leads.{variable_at};
ghost use Rattle.es_why.specs.Numbered.{numbered, way_if, registry_if};

use es_mark::{Step, Way};
use es_record::AgentRecord;
use es_value::{Id, Name, NoMemory};

/// Adds what the variables of these names hold.
pub(crate) fn add_variables(
    agent: &AgentRecord,
    names: &[Name],
    found: &mut Vec<Way>,
) -> Result<(), NoMemory>
    ensures { OnOk result (found.new.items ≡ found.old.items ++ numbered (variable_at agent.now names.now) VariableStep (range_with_len 0 (length names.now))) }
{
    for place in 0..names.len() {
        let id = variable_at(agent, names, place);
        add(id, Step::Variable(place), found)?;
    }
    Ok(())
}

/// The identity that the variable holds whose name has this place.
fn variable_at(agent: &AgentRecord, names: &[Name], place: usize) -> Option<Id>
    requires { place < length names.now }
    ensures { result ≡ variable_at agent.now names.now place }
{
    agent.value(&names[place]).identity()
}

/// Adds KeptAlive.
pub(crate) fn add_kept(agent: &AgentRecord, found: &mut Vec<Way>) -> Result<(), NoMemory>
    ensures { OnOk result (found.new.items ≡ found.old.items ++ numbered Some (λ (n : ℕ). KeptStep) (reverse (kept agent.now.history))) }
{
    for id in agent.kept() {
        add(Some(*id), Step::Kept, found)?;
    }
    Ok(())
}

/// Adds the FinalizationRegistries.
pub(crate) fn add_registries(agent: &AgentRecord, found: &mut Vec<Way>) -> Result<(), NoMemory>
    ensures { OnOk result (found.new.items ≡ found.old.items ++ numbered (registry_if agent.now.history) (λ (n : ℕ). RegistryStep) (range_with_len 1 (made agent.now.history))) }
{
    for before in 0..agent.identities() {
        let id = Id::of(before + 1);
        add(registry_at(agent, id), Step::Registry, found)?;
    }
    Ok(())
}

/// The identity, if it is a registry.
fn registry_at(agent: &AgentRecord, id: Id) -> Option<Id>
    ensures { result ≡ registry_if agent.now.history id }
{
    if agent.is_registry(id) {
        Some(id)
    } else {
        None
    }
}

/// Adds what cells in their registries hold.
pub(crate) fn add_held(agent: &AgentRecord, found: &mut Vec<Way>) -> Result<(), NoMemory>
    ensures { OnOk result (found.new.items ≡ found.old.items ++ numbered (held_of agent.now.history) HeldStep (range_with_len 1 (registered agent.now.history))) }
{
    for before in 0..agent.registered() {
        let registration = before + 1;
        add(agent.held_of(registration), Step::Held(registration), found)?;
    }
    Ok(())
}

/// Adds what the properties of an object hold that is not emptied.
pub(crate) fn add_properties(
    agent: &AgentRecord,
    object: Id,
    found: &mut Vec<Way>,
) -> Result<(), NoMemory>
    requires { is_gone agent.now.history object ≡ false }
    ensures { OnOk result (found.new.items ≡ found.old.items ++ numbered (property_at agent.now.history object) (PropertyStep object) (range_with_len 0 (length (keys_said agent.now.history object)))) }
{
    let keys = agent.keys_of_object(object)?;
    add_at_keys(agent, object, keys.as_slice(), found)
}

/// Adds what the properties under these keys hold, which are all of the object's.
fn add_at_keys(
    agent: &AgentRecord,
    object: Id,
    keys: &[Name],
    found: &mut Vec<Way>,
) -> Result<(), NoMemory>
    requires here { is_gone agent.now.history object ≡ false }
    requires keys { keys.now ≡ keys_said agent.now.history object }
    ensures { OnOk result (found.new.items ≡ found.old.items ++ numbered (property_at agent.now.history object) (PropertyStep object) (range_with_len 0 (length keys.now))) }
{
    for place in 0..keys.len() {
        let id = property_at(agent, object, keys, place);
        add(id, Step::Property(object, place), found)?;
    }
    Ok(())
}

/// The identity that the property holds whose key has this place.
fn property_at(agent: &AgentRecord, object: Id, keys: &[Name], place: usize) -> Option<Id>
    requires here { is_gone agent.now.history object ≡ false }
    requires keys { keys.now ≡ keys_said agent.now.history object }
    requires within { place < length keys.now }
    ensures { result ≡ property_at agent.now.history object place }
{
    held_under(agent, object, &keys[place])
}

/// The identity that the property under this key holds.
fn held_under(agent: &AgentRecord, object: Id, key: &Name) -> Option<Id>
    requires { is_gone agent.now.history object ≡ false }
    ensures { result ≡ option_and_then identity (prop agent.now.history object key.now) }
{
    match agent.property(object, key) {
        Some(value) => value.identity(),
        None => None,
    }
}

/// Adds a way to the identity, if there is one.
fn add(id: Option<Id>, step: Step, found: &mut Vec<Way>) -> Result<(), NoMemory>
    ensures { OnOk result (found.new.items ≡ found.old.items ++ way_if step id) }
{
    if let Some(value) = id {
        found.push(Way { value, step })?;
    }
    Ok(())
}
