//! The slots of all registrations, how many of them are of each fate, and where cells are.

ghost use Rattle.std.specs.Prelude.{◌≡◌, ℕ, ◌+◌, ◌<◌, ◌≤◌, ◌==◌, ◌^◌, ◌∷◌, ◌++◌, [], OnOk, Some, true, length, map, filter, slice_set, slice_get, vec_len, vec_capacity, if◌then◌else◌};
ghost use Rattle.std.specs.List.{count_by};
ghost use Rattle.std.specs.Option.{option_map, option_and_then};
ghost use Rattle.es_value.specs.Ids.{is_in};
ghost use Rattle.es_registry.specs.Slots.{is_present, is_live, is_awaiting, emptied, changed_if, cell_of, passes_at, tally_of};
ghost use Rattle.es_registry.specs.Cells.{ListsPresent};

use crate::places;
use crate::slot::{Cell, Slot, Tally};
use es_value::{IdSet, NoMemory};
use std::alloc::Global;
use std::marker::Model;
use std::mem;

/// The slots of all registrations, the oldest first, and how many of them are of each fate.
#[derive(Drop)]
pub(crate) struct Cells {
    slots: Vec<Slot>,
    /// In rising order every place with a cell, so that a collection passes over no others. A place
    /// whose cell is gone stays until the next collection.
    present: Vec<usize>,
    awaiting: usize,
    unregistered: usize,
    taken: usize,
}

impl Model for Cells {
    ghost use Rattle.std.specs.Prelude.{◌-◌, vec_len, vec_capacity};
    ghost use Rattle.es_registry.specs.Cells.{CellsView, Counts};

    ghost Value = { CellsView };

    ghost view = { λ c. record {
      all = c.slots.items;
      slot_room = vec_capacity c.slots - vec_len c.slots;
      place_room = vec_capacity c.present - vec_len c.present;
    } };

    ghost invariant = { λ c. Counts c.slots.items c.present.items c.awaiting c.unregistered c.taken };
}

impl Cells {
    /// No slots; it takes no memory.
    pub(crate) fn new(alloc: Global) -> Cells
        ensures { result.all ≡ [] }
    {
        Cells {
            slots: Vec::new(alloc),
            present: Vec::new(alloc),
            awaiting: 0,
            unregistered: 0,
            taken: 0,
        }
    }

    /// All of them, the oldest registration first.
    pub(crate) fn all(&self) -> &[Slot]
        ensures all { result.now ≡ self.now.all }
        ensures few { length self.now.all < 2 ^ 63 }
    {
        self.slots.as_slice()
    }

    /// Places in rising order, of which every one with a cell is there.
    pub(crate) fn present(&self) -> &[usize]
        ensures { ListsPresent result.now self.now.all }
    {
        self.present.as_slice()
    }

    /// Makes room for one more.
    pub(crate) fn reserve(&mut self) -> Result<(), NoMemory>
        ensures all { self.new.all ≡ self.old.all }
        ensures slots { OnOk result (0 < self.new.slot_room) }
        ensures places { OnOk result (0 < self.new.place_room) }
    {
        self.slots.reserve(1)?;
        self.present.reserve(1)?;
        Ok(())
    }

    /// Adds a slot whose cell is there with its target, where there is room for it.
    pub(crate) fn push(&mut self, slot: Slot)
        requires live { is_live slot ≡ true }
        requires of_slots { 0 < self.old.slot_room }
        requires of_places { 0 < self.old.place_room }
        ensures { self.new.all ≡ self.old.all ++ slot ∷ [] }
    {
        places::push(&mut self.present, self.slots.len());
        places::push(&mut self.slots, slot);
    }

    /// Empties the targets that are among these; it takes no memory.
    pub(crate) fn empty(&mut self, named: &IdSet<'_>)
        ensures all { self.new.all ≡ map (emptied named.now) self.old.all }
        ensures slot_room { self.new.slot_room ≡ self.old.slot_room }
        ensures place_room { self.old.place_room ≤ self.new.place_room }
    {
        let lost = empty_all(&mut self.slots, &self.present, named);
        self.awaiting += lost;
        keep_present(&mut self.present, &self.slots);
    }

    /// Takes the cell out at a place where a cell awaits its callback.
    #[tactic(auto, using(crate::proofs::Counting::counts_taken))]
    pub(crate) fn take(&mut self, place: usize) -> Option<Cell>
        requires { passes_at is_awaiting self.old.all place ≡ true }
        ensures cell { result ≡ option_and_then cell_of (slice_get self.old.all place) }
        ensures all { self.new.all ≡ slice_set self.old.all place Slot.Taken }
        ensures slot_room { self.new.slot_room ≡ self.old.slot_room }
        ensures place_room { self.new.place_room ≡ self.old.place_room }
    {
        let slot = replace(&mut self.slots, place, Slot::Taken);
        self.awaiting -= 1;
        self.taken += 1;
        slot.into_cell()
    }

    /// Takes the cell out at a place where one is.
    #[tactic(auto, using(crate::proofs::Counting::counts_unregistered))]
    pub(crate) fn unregister(&mut self, place: usize)
        requires { passes_at is_present self.old.all place ≡ true }
        ensures all { self.new.all ≡ slice_set self.old.all place Slot.Unregistered }
        ensures slot_room { self.new.slot_room ≡ self.old.slot_room }
        ensures place_room { self.new.place_room ≡ self.old.place_room }
    {
        let awaited = awaited_at(&self.slots, place);
        put(&mut self.slots, place, Slot::Unregistered);
        self.awaiting -= awaited;
        self.unregistered += 1;
    }

    /// How many registrations there are of each fate.
    #[tactic(auto, using(crate::proofs::Counting::fates_add_up))]
    pub(crate) fn tally(&self) -> Tally
        ensures each { result ≡ tally_of self.now.all }
        ensures all { result.live + result.awaiting + result.unregistered + result.taken ≡ length self.now.all }
    {
        Tally {
            live: self.slots.len() - (self.awaiting + self.unregistered + self.taken),
            awaiting: self.awaiting,
            unregistered: self.unregistered,
            taken: self.taken,
        }
    }
}

/// Empties the targets at these places that are among these; how many there were.
fn empty_all(slots: &mut Vec<Slot>, places: &[usize], named: &IdSet<'_>) -> usize
    ensures slots { (k : ℕ) → slice_get slots.new.items k ≡ option_map (changed_if (emptied named.now) (is_in places.now k)) (slice_get slots.old.items k) }
    ensures awaiting { count_by is_awaiting slots.old.items + result ≡ count_by is_awaiting slots.new.items }
    ensures len { vec_len slots.new ≡ vec_len slots.old }
    ensures capacity { vec_capacity slots.new ≡ vec_capacity slots.old }
{
    let mut lost = 0;
    for place in places {
        lost += empty_at(slots, *place, named);
    }
    lost
}

/// Empties the target at a place if it is among these: 1 where it was.
fn empty_at(slots: &mut Vec<Slot>, place: usize, named: &IdSet<'_>) -> usize
    ensures slots { (k : ℕ) → slice_get slots.new.items k ≡ option_map (changed_if (emptied named.now) (place == k)) (slice_get slots.old.items k) }
    ensures awaiting { count_by is_awaiting slots.old.items + result ≡ count_by is_awaiting slots.new.items }
    ensures len { vec_len slots.new ≡ vec_len slots.old }
    ensures capacity { vec_capacity slots.new ≡ vec_capacity slots.old }
{
    let Some(slot) = slots.get_mut(place) else {
        return 0;
    };
    usize::from(slot.empty(named))
}

/// Keeps the places at which a cell is.
fn keep_present(places: &mut Vec<usize>, slots: &[Slot])
    ensures items { places.new.items ≡ filter (passes_at is_present slots.now) places.old.items }
    ensures len { vec_len places.new ≤ vec_len places.old }
    ensures capacity { vec_capacity places.new ≡ vec_capacity places.old }
{
    places.retain(|place| is_present_at(slots, *place));
}

/// Whether there is a cell at a place.
fn is_present_at(slots: &[Slot], place: usize) -> bool
    ensures { result ≡ passes_at is_present slots.now place }
{
    slots.get(place).is_some_and(|slot| slot.is_present())
}

/// 1 where a cell awaits its callback at the place.
fn awaited_at(slots: &[Slot], place: usize) -> usize
    ensures { result ≡ (if passes_at is_awaiting slots.now place then 1 else 0) }
{
    usize::from(slots.get(place).is_some_and(|slot| slot.is_awaiting()))
}

/// Replaces the item at a place, and gives the old one.
fn replace<T>(items: &mut Vec<T>, place: usize, item: T) -> T
    requires { place < vec_len items.old }
    ensures old { Some result ≡ slice_get items.old.items place }
    ensures items { items.new.items ≡ slice_set items.old.items place item }
    ensures len { vec_len items.new ≡ vec_len items.old }
    ensures capacity { vec_capacity items.new ≡ vec_capacity items.old }
{
    mem::replace(&mut items[place], item)
}

/// Replaces the item at a place.
fn put<T: Drop>(items: &mut Vec<T>, place: usize, item: T)
    requires { place < vec_len items.old }
    ensures items { items.new.items ≡ slice_set items.old.items place item }
    ensures len { vec_len items.new ≡ vec_len items.old }
    ensures capacity { vec_capacity items.new ≡ vec_capacity items.old }
{
    items[place] = item;
}
