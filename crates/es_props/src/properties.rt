//! The properties of an object that has many: a table by their keys.
ghost use Rattle.std.specs.Prelude.{◌≡◌, ◌<◌, ◌≤◌, ◌++◌, ◌+◌, IfOk, OnOk, OnErr, is_some};
ghost use Rattle.std.specs.List.{IsDistinct, flat_map};
ghost use Rattle.std.specs.Option.{option_to_list};
ghost use Rattle.std.specs.Str.{bytes_eq};
ghost use Rattle.es_value.specs.Values.{identity};
ghost use Rattle.indexmap.specs.IndexMap.{insert_entry, spare};
ghost use Rattle.es_props.specs.Heap.{value_at, keys_of, with_property, without_property};

use crate::few::Few;
use es_value::{Id, Name, NoMemory, Value};
use indexmap::IndexMap;
use std::alloc::Global;
use std::hash::Hash;

/// A table of these properties, with room for one more.
pub(crate) fn table_of(few: &Few, alloc: Global) -> Result<Box<IndexMap<Name, Value>>, NoMemory>
    ensures same { IfOk result (λ t. t.value.entries ≡ few.now.entries) }
    ensures room { IfOk result (λ t. 0 < spare t.value) }
{
    let entries = few.entries();
    let mut table = IndexMap::with_capacity(alloc, entries.len() + 1)?;
    for (key, value) in entries {
        let value = value.copy()?;
        insert_reserved(&mut table, key.copy()?, value);
    }
    let boxed = Box::new(alloc, table)?;
    Ok(boxed)
}

/// Makes room for one more property.
pub(crate) fn reserve(properties: &mut IndexMap<Name, Value>) -> Result<(), NoMemory>
    ensures same { properties.new.entries ≡ properties.old.entries }
    ensures more { spare properties.old ≤ spare properties.new }
    ensures room { OnOk result (0 < spare properties.new) }
{
    properties.reserve(1)?;
    Ok(())
}

/// Sets a property, where there is room for one more: a key that is there keeps its place, and a new
/// one goes last.
#[tactic(auto, using(crate::proofs::Tables::with_property_is_insert))]
pub(crate) fn put(properties: &mut IndexMap<Name, Value>, key: Name, value: Value)
    requires { 0 < spare properties.old }
    ensures { properties.new.entries ≡ with_property properties.old.entries key value }
{
    insert_reserved(properties, key, value);
}

fn insert_reserved<K: Eq + Hash + Drop, V: Drop>(map: &mut IndexMap<K, V>, key: K, value: V)
    requires { 0 < spare map.old }
    ensures entries { map.new.entries ≡ insert_entry K.eq map.old.entries key value }
    ensures room { spare map.old ≤ spare map.new + 1 }
{
    let _ = map.insert(key, value);
}

/// Takes a property out, and leaves the others in their order; whether it was there.
#[tactic(auto, using(crate::proofs::Tables::value_at_is_lookup))]
pub(crate) fn take_out(properties: &mut IndexMap<Name, Value>, key: &Name) -> bool
    ensures was_there { result ≡ is_some (value_at properties.old.entries key.now) }
    ensures after { properties.new.entries ≡ without_property properties.old.entries key.now }
    ensures room { spare properties.old ≤ spare properties.new }
{
    properties.shift_remove(key).is_some()
}

/// The keys, in order of creation.
pub(crate) fn keys(properties: &IndexMap<Name, Value>, alloc: Global) -> Result<Vec<Name>, NoMemory>
    ensures { IfOk result (λ ks. ks.items ≡ keys_of properties.now.entries) }
{
    let mut keys = Vec::with_capacity(alloc, properties.len())?;
    for (key, _) in properties {
        keys.push(key.copy()?)?;
    }
    Ok(keys)
}

/// Adds the identities that the values have to `found`, in order.
pub(crate) fn add_identities(
    properties: &IndexMap<Name, Value>,
    found: &mut Vec<Id>,
) -> Result<(), NoMemory>
    ensures ok { OnOk result (found.new.items ≡ found.old.items ++ flat_map (λ p. option_to_list (identity p.1)) properties.now.entries) }
    ensures err { OnErr result (found.new.items ≡ found.old.items) }
    ensures distinct { OnOk result (IsDistinct bytes_eq (keys_of properties.now.entries)) }
{
    found.reserve(properties.len())?;
    for (_, value) in properties {
        if let Some(edge) = value.identity() {
            found.push(edge)?;
        }
    }
    Ok(())
}
