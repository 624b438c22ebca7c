//! The slots of all keys, one after the other.

ghost use Rattle.std.specs.Prelude.{◌≡◌, ℕ, ◌<◌, ◌≤◌, [], None, if◌then◌else◌, OnOk, length};
ghost use Rattle.es_value.specs.Ids.{is_in};
ghost use Rattle.es_ephemeron.specs.Ephemerons.{held_by};
ghost use Rattle.es_ephemeron.specs.Slots.{place_at};

use crate::slot::Slot;
use es_value::{Id, IdSet, NoMemory};

/// Adds empty slots until there are this many.
pub(crate) fn extend<V: Drop>(slots: &mut Vec<Slot<V>>, count: usize) -> Result<(), NoMemory>
    ensures same { (p : ℕ) → (place_at slots.new.items p).records ≡ (place_at slots.old.items p).records }
    ensures rooms { (p : ℕ) → (place_at slots.old.items p).room ≤ (place_at slots.new.items p).room }
    ensures enough { OnOk result (count ≤ length slots.new.items) }
{
    for _ in slots.len()..count {
        slots.push(Slot::empty())?;
    }
    Ok(())
}

/// Drops the records under these keys, and passes over strangers.
pub(crate) fn clear<V: Drop>(slots: &mut Vec<Slot<V>>, keys: &[Id])
    ensures { (p : ℕ) → 0 < p → (place_at slots.new.items p).records ≡ (if is_in keys.now p then [] else (place_at slots.old.items p).records) }
{
    for key in keys {
        if let Some(slot) = slots.get_mut(key.number() as usize - 1) {
            slot.clear();
        }
    }
}

/// Drops the records of these holders.
pub(crate) fn release<V: Drop>(slots: &mut Vec<Slot<V>>, holders: &IdSet<'_>)
    ensures { (n p : ℕ) → held_by (place_at slots.new.items p).records n ≡ (if is_in holders.now n then None else held_by (place_at slots.old.items p).records n) }
{
    for slot in slots.iter_mut() {
        slot.release(holders);
    }
}
