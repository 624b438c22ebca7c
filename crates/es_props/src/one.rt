//! The property of an object that has one, and room for it.
ghost use Rattle.std.specs.Prelude.{◌≡◌, ◌++◌, ◌∷◌, [], IfOk, OnOk, OnErr};
ghost use Rattle.std.specs.List.{IsDistinct, flat_map};
ghost use Rattle.std.specs.Option.{option_copied, option_to_list};
ghost use Rattle.std.specs.Str.{bytes_eq};
ghost use Rattle.es_value.specs.Values.{identity};
ghost use Rattle.es_props.specs.Heap.{value_at, keys_of};

use es_value::{Id, Name, NoMemory, Value};
use std::alloc::Global;

/// Room for a property: an unused name and a value that nobody reads stand there until it comes.
pub(crate) fn room(
    alloc: Global,
    unused: &mut Option<Name>,
) -> Result<Box<(Name, Value)>, NoMemory> {
    let name = unused_name(alloc, unused)?;
    let room = Box::new(alloc, (name, Value::Undefined))?;
    Ok(room)
}

/// The unused name again; the first call makes it.
fn unused_name(alloc: Global, unused: &mut Option<Name>) -> Result<Name, NoMemory> {
    if let Some(name) = unused {
        return name.copy();
    }
    let Ok(name) = Name::read(alloc, "_") else {
        return Err(NoMemory);
    };
    let copy = name.copy()?;
    *unused = Some(name);
    Ok(copy)
}

/// Puts a property into the room for it.
pub(crate) fn fill(room: Box<(Name, Value)>, key: Name, value: Value) -> Box<(Name, Value)>
    ensures { result.value ≡ (key, value) }
{
    let mut filled = room;
    drop(Box::replace(&mut filled, (key, value)));
    filled
}

/// The value under a key, if the property has it.
pub(crate) fn get<'a>(property: &'a (Name, Value), key: &Name) -> Option<&'a Value>
    ensures { option_copied result ≡ value_at (property.now ∷ []) key.now }
{
    if property.0 == *key {
        Some(&property.1)
    } else {
        None
    }
}

/// The key, in a list.
pub(crate) fn keys(property: &(Name, Value), alloc: Global) -> Result<Vec<Name>, NoMemory>
    ensures { IfOk result (λ ks. ks.items ≡ keys_of (property.now ∷ [])) }
{
    let mut keys = Vec::with_capacity(alloc, 1)?;
    keys.push(property.0.copy()?)?;
    Ok(keys)
}

/// Adds the identity that the value has, if any, to `found`.
#[tactic(auto, using(crate::proofs::Held::one_distinct))]
pub(crate) fn add_identity(property: &(Name, Value), found: &mut Vec<Id>) -> Result<(), NoMemory>
    ensures ok { OnOk result (found.new.items ≡ found.old.items ++ flat_map (λ p. option_to_list (identity p.1)) (property.now ∷ [])) }
    ensures err { OnErr result (found.new.items ≡ found.old.items) }
    ensures distinct { IsDistinct bytes_eq (keys_of (property.now ∷ [])) }
{
    if let Some(edge) = property.1.identity() {
        found.push(edge)?;
    }
    Ok(())
}
