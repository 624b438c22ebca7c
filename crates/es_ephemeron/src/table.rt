//! The records of a key that has many: a table by their holders.

ghost use Rattle.std.specs.Prelude.{◌≡◌, ℕ, ◌<◌, ◌≤◌, ◌+◌, ◌++◌, ◌∷◌, [], Some, None, if◌then◌else◌, ◌==◌, OnOk, is_some, nat_eq, true};
ghost use Rattle.std.specs.HashMap.{spare};
ghost use Rattle.std.specs.List.{IsDistinct};
ghost use Rattle.es_value.specs.Ids.{is_in};
ghost use Rattle.es_ephemeron.specs.Ephemerons.{held_by, holders};

use es_value::{Id, IdSet, NoMemory, Value};
use std::collections::HashMap;

/// Records what a holder has, where there is room for one more record.
#[tactic(auto, using(crate::proofs::Looked::held_by_is_lookup))]
pub(crate) fn put<V: Drop>(table: &mut HashMap<Id, V>, holder: Id, value: V)
    requires { 0 < spare table.old }
    ensures changed { (n : ℕ) → held_by table.new.entries n ≡ (if holder == n then Some value else held_by table.old.entries n) }
    ensures room { spare table.old ≤ spare table.new + 1 }
{
    let _ = table.insert(holder, value);
}

/// Takes the record of a holder out; whether it was there.
#[tactic(auto, using(crate::proofs::Looked::held_by_is_lookup))]
pub(crate) fn take_out<V: Drop>(table: &mut HashMap<Id, V>, holder: Id) -> bool
    ensures was_there { result ≡ is_some (held_by table.old.entries holder) }
    ensures changed { (n : ℕ) → held_by table.new.entries n ≡ (if holder == n then None else held_by table.old.entries n) }
    ensures room { spare table.old ≤ spare table.new }
{
    table.remove(&holder).is_some()
}

/// Takes the records of these holders out; whether no record is left.
pub(crate) fn release<V: Drop>(table: &mut HashMap<Id, V>, holders: &IdSet<'_>) -> bool
    ensures none_left { result ≡ true → table.new.entries ≡ [] }
    ensures released { (n : ℕ) → held_by table.new.entries n ≡ (if is_in holders.now n then None else held_by table.old.entries n) }
    ensures room { spare table.old ≤ spare table.new }
{
    table.retain(|holder, _| !holders.has(*holder));
    table.is_empty()
}

/// Adds a copy of each record to `found`.
pub(crate) fn add_copies(
    table: &HashMap<Id, Value>,
    found: &mut Vec<(Id, Value)>,
) -> Result<(), NoMemory>
    ensures added { OnOk result (found.new.items ≡ found.old.items ++ table.now.entries) }
    ensures distinct { OnOk result (IsDistinct nat_eq (holders table.now.entries)) }
{
    found.reserve(table.len())?;
    for (holder, value) in table {
        add_copy(*holder, value, found)?;
    }
    Ok(())
}

/// Adds each holder to `found`.
pub(crate) fn add_holders<V: Drop>(
    table: &HashMap<Id, V>,
    found: &mut Vec<Id>,
) -> Result<(), NoMemory>
    ensures added { OnOk result (found.new.items ≡ found.old.items ++ holders table.now.entries) }
    ensures distinct { OnOk result (IsDistinct nat_eq (holders table.now.entries)) }
{
    found.reserve(table.len())?;
    for (holder, _) in table {
        found.push(*holder)?;
    }
    Ok(())
}

/// Adds one holder to `found`.
pub(crate) fn add_holder(holder: Id, found: &mut Vec<Id>) -> Result<(), NoMemory>
    ensures { OnOk result (found.new.items ≡ found.old.items ++ holder ∷ []) }
{
    found.push(holder)?;
    Ok(())
}

/// Adds a copy of one record to `found`.
pub(crate) fn add_copy(
    holder: Id,
    value: &Value,
    found: &mut Vec<(Id, Value)>,
) -> Result<(), NoMemory>
    ensures { OnOk result (found.new.items ≡ found.old.items ++ (holder, value.now) ∷ []) }
{
    found.push((holder, value.copy()?))?;
    Ok(())
}
