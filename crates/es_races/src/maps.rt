//! Maps with a value under each key.

ghost use Rattle.std.specs.Prelude.{OnOk, Some};
ghost use Rattle.std.specs.HashMap.{Updates};

use es_value::NoMemory;
use std::collections::HashMap;
use std::hash::Hash;

/// Puts a value under a key.
pub(crate) fn put<K: Eq + Hash + Drop, V: Drop>(
    map: &mut HashMap<K, V>,
    key: K,
    value: V,
) -> Result<(), NoMemory>
    ensures { OnOk result (Updates K.eq map.old map.new key (Some value)) }
{
    map.insert(key, value)?;
    Ok(())
}
