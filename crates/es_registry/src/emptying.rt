//! The steps of a collection that need memory, before any target is emptied.

ghost use Rattle.std.specs.Prelude.{◌≡◌, ℕ, ◌++◌, ◌&&◌, ◌||◌, ◌⊎◌, not, true, OnOk, OnErr, IfOk, slice_get};
ghost use Rattle.std.specs.List.{list_any};
ghost use Rattle.std.specs.Option.{option_and_then};
ghost use Rattle.std.specs.BTreeSet.{contains, IsOrdered};
ghost use Rattle.std.specs.Ordering.{nat_cmp};
ghost use Rattle.es_value.specs.Ids.{is_in};
ghost use Rattle.es_registry.specs.Places.{waits};
ghost use Rattle.es_registry.specs.Slots.{is_this, losing, is_losing, passes_at};

use crate::slot::Slot;
use crate::waiting::{self, Waiting};
use es_value::{Id, IdSet, NoMemory};
use std::alloc::Global;
use std::collections::{BTreeSet, VecDeque};

/// Lists those of these places whose cells are to lose their targets.
pub(crate) fn expect(
    alloc: Global,
    waiting: &mut Waiting,
    slots: &[Slot],
    places: &[usize],
    named: &IdSet<'_>,
) -> Result<(), NoMemory>
    ensures kept { (r k : ℕ) → waits waiting.old r k ≡ true → waits waiting.new r k ≡ true }
    ensures only { (r k : ℕ) → waits waiting.new r k ≡ true → (waits waiting.old r k ≡ true) ⊎ (passes_at (is_losing named.now r) slots.now k ≡ true) }
    ensures ok { OnOk result ((r k : ℕ) → is_in places.now k ≡ true → passes_at (is_losing named.now r) slots.now k ≡ true → waits waiting.new r k ≡ true) }
{
    for place in places {
        expect_at(alloc, waiting, losing_at(slots, *place, named), *place)?;
    }
    Ok(())
}

/// Lists a place for the registry, if there is one.
fn expect_at(
    alloc: Global,
    waiting: &mut Waiting,
    registry: Option<Id>,
    place: usize,
) -> Result<(), NoMemory>
    ensures kept { (r k : ℕ) → waits waiting.old r k ≡ true → waits waiting.new r k ≡ true }
    ensures only { (r k : ℕ) → waits waiting.new r k ≡ true → (waits waiting.old r k ≡ true) ⊎ ((is_this r registry ≡ true) × (place ≡ k)) }
    ensures ok { OnOk result ((r : ℕ) → is_this r registry ≡ true → waits waiting.new r place ≡ true) }
{
    match registry {
        Some(registry) => waiting::add(alloc, waiting, registry, place),
        None => Ok(()),
    }
}

/// The registry whose cell at a place loses its target.
fn losing_at(slots: &[Slot], place: usize, named: &IdSet<'_>) -> Option<Id>
    ensures { result ≡ option_and_then (losing named.now) (slice_get slots.now place) }
{
    match slots.get(place) {
        Some(slot) => slot.losing(named),
        None => None,
    }
}

/// The registries that are to join the queue: those of which a cell at one of these places loses its
/// target, but for those that are queued.
pub(crate) fn joining(
    alloc: Global,
    slots: &[Slot],
    places: &[usize],
    queue: &VecDeque<Id>,
    named: &IdSet<'_>,
) -> Result<BTreeSet<Id>, NoMemory>
    ensures { IfOk result (λ s. (r : ℕ) → contains nat_cmp s r ≡ (list_any (passes_at (is_losing named.now r) slots.now) places.now && not (is_in queue.now.items r))) }
{
    let mut joining = registries_losing(alloc, slots, places, named)?;
    leave_out(&mut joining, queue);
    Ok(joining)
}

/// The registries of which a cell at one of these places loses its target.
fn registries_losing(
    alloc: Global,
    slots: &[Slot],
    places: &[usize],
    named: &IdSet<'_>,
) -> Result<BTreeSet<Id>, NoMemory>
    ensures { IfOk result (λ s. (r : ℕ) → contains nat_cmp s r ≡ list_any (passes_at (is_losing named.now r) slots.now) places.now) }
{
    let mut registries = BTreeSet::new(alloc);
    for place in places {
        add(&mut registries, losing_at(slots, *place, named))?;
    }
    Ok(registries)
}

/// Adds the registry, if there is one.
fn add(registries: &mut BTreeSet<Id>, registry: Option<Id>) -> Result<(), NoMemory>
    ensures { OnOk result ((r : ℕ) → contains nat_cmp registries.new r ≡ (contains nat_cmp registries.old r || is_this r registry)) }
{
    match registry {
        Some(registry) => {
            registries.insert(registry)?;
            Ok(())
        }
        None => Ok(()),
    }
}

/// Takes those out that are queued.
fn leave_out(registries: &mut BTreeSet<Id>, queue: &VecDeque<Id>)
    ensures { (r : ℕ) → contains nat_cmp registries.new r ≡ (contains nat_cmp registries.old r && not (is_in queue.now.items r)) }
{
    for index in 0..queue.len() {
        let Some(registry) = queue.get(index) else {
            unreachable!();
        };
        registries.remove(registry);
    }
}

/// Puts these last in the queue, in order.
pub(crate) fn append(queue: &mut VecDeque<Id>, ids: &BTreeSet<Id>) -> Result<(), NoMemory>
    ensures ok { OnOk result (queue.new.items ≡ queue.old.items ++ ids.now.keys) }
    ensures err { OnErr result (queue.new.items ≡ queue.old.items) }
    ensures ordered { IsOrdered nat_cmp ids.now }
{
    queue.reserve(ids.len())?;
    for id in ids {
        queue.push_back(*id)?;
    }
    Ok(())
}
