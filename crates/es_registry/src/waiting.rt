//! For each registry the places of cells that may await their callback: all that do are there, each
//! place has a cell of the registry, and one whose cell does not await it is passed over.

ghost use Rattle.std.specs.Prelude.{◌≡◌, ℕ, ◌&&◌, ◌||◌, OnOk, OnErr, true, false, nat_eq, if◌then◌else◌, ◌<◌, IsOk, Some, slice_get};
ghost use Rattle.std.specs.BTreeSet.{contains, IsOrdered, Updates};
ghost use Rattle.std.specs.HashMap.{Updates as map_updates, spare};
ghost use Rattle.std.specs.Ordering.{nat_cmp};
ghost use Rattle.std.specs.List.{find, position};
ghost use Rattle.std.specs.Option.{option_and_then};
ghost use Rattle.es_registry.specs.Places.{waits};
ghost use Rattle.es_registry.specs.Slots.{awaits, is_of, registry_of, passes_at};

use crate::slot::Slot;
use es_value::{Id, NoMemory};
use std::alloc::Global;
use std::collections::{BTreeSet, HashMap};
use std::hash::Hash;

/// Places by registry.
pub(crate) type Waiting = HashMap<Id, BTreeSet<usize>>;

/// Lists a place for a registry.
pub(crate) fn add(
    alloc: Global,
    waiting: &mut Waiting,
    registry: Id,
    place: usize,
) -> Result<(), NoMemory>
    ensures ok { OnOk result ((q j : ℕ) → waits waiting.new q j ≡ ((nat_eq registry q && nat_eq place j) || waits waiting.old q j)) }
    ensures err { OnErr result ((q j : ℕ) → waits waiting.new q j ≡ waits waiting.old q j) }
{
    if let Some(places) = waiting.get_mut(&registry) {
        return insert(places, place);
    }
    let mut places = BTreeSet::new(alloc);
    insert(&mut places, place)?;
    put(waiting, registry, places)
}

/// Lists a place no longer for the registry of its cell; it takes no memory.
pub(crate) fn remove_at(waiting: &mut Waiting, slots: &[Slot], place: usize)
    ensures { (q j : ℕ) → waits waiting.new q j ≡ (if passes_at (is_of q) slots.now j && nat_eq place j then false else waits waiting.old q j) }
{
    let Some(registry) = registry_at(slots, place) else {
        return;
    };
    remove(waiting, registry, place);
}

/// The registry of the cell at a place, if one is there.
fn registry_at(slots: &[Slot], place: usize) -> Option<Id>
    ensures { result ≡ option_and_then registry_of (slice_get slots.now place) }
{
    match slots.get(place) {
        Some(slot) => slot.registry(),
        None => None,
    }
}

/// Lists a place no longer; it takes no memory.
pub(crate) fn remove(waiting: &mut Waiting, registry: Id, place: usize)
    ensures { (q j : ℕ) → waits waiting.new q j ≡ (if nat_eq registry q && nat_eq place j then false else waits waiting.old q j) }
{
    let Some(places) = waiting.get_mut(&registry) else {
        return;
    };
    places.remove(&place);
}

/// Adds a place to a set.
fn insert(places: &mut BTreeSet<usize>, place: usize) -> Result<(), NoMemory>
    ensures ok { OnOk result (Updates nat_cmp places.old places.new place true) }
    ensures err { OnErr result ((q : ℕ) → contains nat_cmp places.new q ≡ contains nat_cmp places.old q) }
{
    places.insert(place)?;
    Ok(())
}

/// Puts a value under a key, as long as there is memory.
pub(crate) fn put<K: Eq + Hash + Drop, V: Drop>(
    map: &mut HashMap<K, V>,
    key: K,
    value: V,
) -> Result<(), NoMemory>
    ensures ok { OnOk result (map_updates K.eq map.old map.new key (Some value)) }
    ensures err { OnErr result (map.new.entries ≡ map.old.entries) }
    ensures succeeds { 0 < spare map.old → IsOk result }
{
    map.insert(key, value)?;
    Ok(())
}

/// The first place of a registry whose cell awaits its callback.
pub(crate) fn first(waiting: &Waiting, registry: Id, slots: &[Slot]) -> Option<usize>
    requires { (k : ℕ) → passes_at (awaits registry) slots.now k ≡ true → waits waiting.now registry k ≡ true }
    ensures { result ≡ position (awaits registry) slots.now }
{
    match waiting.get(&registry) {
        Some(places) => first_of(places, registry, slots),
        None => None,
    }
}

/// The first place of a set whose cell is in the registry and awaits its callback.
fn first_of(places: &BTreeSet<usize>, registry: Id, slots: &[Slot]) -> Option<usize>
    requires { (k : ℕ) → passes_at (awaits registry) slots.now k ≡ true → contains nat_cmp places.now k ≡ true }
    ensures { result ≡ position (awaits registry) slots.now }
{
    let found = find_in(places, registry, slots);
    found
}

/// The first place that passes.
fn find_in(places: &BTreeSet<usize>, registry: Id, slots: &[Slot]) -> Option<usize>
    ensures found { result ≡ find (passes_at (awaits registry) slots.now) places.now.keys }
    ensures ordered { IsOrdered nat_cmp places.now }
{
    places
        .iter()
        .copied()
        .find(|place| awaits_at(slots, registry, *place))
}

/// Whether the cell at a place is in the registry and awaits its callback.
fn awaits_at(slots: &[Slot], registry: Id, place: usize) -> bool
    ensures { result ≡ passes_at (awaits registry) slots.now place }
{
    slots.get(place).is_some_and(|slot| slot.awaits(registry))
}
