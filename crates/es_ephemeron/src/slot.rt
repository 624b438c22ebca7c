//! The slot of one key: what is recorded under it.

ghost use Rattle.std.specs.Prelude.{◌≡◌, ℕ, ◌<◌, ◌≤◌, ◌++◌, [], Some, None, if◌then◌else◌, ◌==◌, OnOk, is_some, nat_eq};
ghost use Rattle.std.specs.List.{IsDistinct};
ghost use Rattle.std.specs.Option.{option_copied};
ghost use Rattle.es_value.specs.Ids.{is_in};
ghost use Rattle.es_ephemeron.specs.Ephemerons.{held_by, holders};

use crate::table;
use es_value::{Id, IdSet, NoMemory, Value};
use std::alloc::Global;
use std::collections::HashMap;
use std::marker::Model;
use std::mem;

/// The slot of one key. A key with one record takes no memory beside it.
#[derive(Drop)]
pub(crate) struct Slot<V> {
    held: Held<V>,
}

/// What is recorded under a key.
#[derive(Drop)]
pub(crate) enum Held<V> {
    /// No record.
    Nothing,
    /// What one holder has.
    One(Id, V),
    /// What each of many holders has.
    Many(Box<HashMap<Id, V>>),
}

impl<V> Model for Slot<V> {
    ghost use Rattle.es_ephemeron.specs.Slots.{SlotView, place_of};

    ghost Value = { SlotView V };

    ghost view = { λ s. place_of s.held };
}

impl<V: Drop> Slot<V> {
    /// No record.
    pub(crate) fn empty() -> Slot<V>
        ensures { result ≡ record { records = []; room = 1 } }
    {
        Slot {
            held: Held::Nothing,
        }
    }

    /// Drops every record.
    pub(crate) fn clear(&mut self)
        ensures { self.new.records ≡ [] }
    {
        self.held = Held::Nothing;
    }

    /// Makes room for one more record.
    pub(crate) fn reserve(&mut self, alloc: Global) -> Result<(), NoMemory>
        ensures same { (n : ℕ) → held_by self.new.records n ≡ held_by self.old.records n }
        ensures more { self.old.room ≤ self.new.room }
        ensures room { OnOk result (0 < self.new.room) }
    {
        match &mut self.held {
            Held::Nothing => Ok(()),
            Held::One(_, _) => {
                let mut table = Box::new(alloc, HashMap::with_capacity(alloc, 2)?)?;
                let Held::One(one, value) = mem::replace(&mut self.held, Held::Nothing) else {
                    unreachable!();
                };
                table::put(&mut table, one, value);
                self.held = Held::Many(table);
                Ok(())
            }
            Held::Many(table) => {
                table.reserve(1)?;
                Ok(())
            }
        }
    }

    /// Records what a holder has, where there is room for one more record.
    pub(crate) fn set(&mut self, holder: Id, value: V)
        requires { 0 < self.old.room }
        ensures { (n : ℕ) → held_by self.new.records n ≡ (if holder == n then Some value else held_by self.old.records n) }
    {
        match &mut self.held {
            Held::Nothing => self.held = Held::One(holder, value),
            Held::One(_, _) => unreachable!(),
            Held::Many(table) => table::put(table, holder, value),
        }
    }

    /// What a holder has, if anything.
    #[tactic(auto, using(crate::proofs::Looked::held_by_is_lookup))]
    pub(crate) fn get(&self, holder: Id) -> Option<&V>
        ensures { option_copied result ≡ held_by self.now.records holder }
    {
        match &self.held {
            Held::Nothing => None,
            Held::One(one, value) if *one == holder => Some(value),
            Held::One(_, _) => None,
            Held::Many(table) => table.get(&holder),
        }
    }

    /// Drops the record of a holder; whether it was there.
    pub(crate) fn remove(&mut self, holder: Id) -> bool
        ensures was_there { result ≡ is_some (held_by self.old.records holder) }
        ensures changed { (n : ℕ) → held_by self.new.records n ≡ (if holder == n then None else held_by self.old.records n) }
        ensures room { self.old.room ≤ self.new.room }
    {
        match &mut self.held {
            Held::Nothing => false,
            Held::One(one, _) if *one == holder => {
                self.held = Held::Nothing;
                true
            }
            Held::One(_, _) => false,
            Held::Many(table) => table::take_out(table, holder),
        }
    }

    /// Adds each holder to `found`.
    #[tactic(auto, using(crate::proofs::Held::none_distinct, crate::proofs::Held::one_distinct))]
    pub(crate) fn add_holders(&self, found: &mut Vec<Id>) -> Result<(), NoMemory>
        ensures added { OnOk result (found.new.items ≡ found.old.items ++ holders self.now.records) }
        ensures distinct { OnOk result (IsDistinct nat_eq (holders self.now.records)) }
    {
        match &self.held {
            Held::Nothing => Ok(()),
            Held::One(holder, _) => table::add_holder(*holder, found),
            Held::Many(table) => table::add_holders(table, found),
        }
    }

    /// Drops the records of these holders, and the memory of a table that is left without records.
    pub(crate) fn release(&mut self, holders: &IdSet<'_>)
        ensures { (n : ℕ) → held_by self.new.records n ≡ (if is_in holders.now n then None else held_by self.old.records n) }
    {
        match &mut self.held {
            Held::Nothing => {}
            Held::One(one, _) if holders.has(*one) => self.held = Held::Nothing,
            Held::One(_, _) => {}
            Held::Many(table) => {
                if table::release(table, holders) {
                    self.held = Held::Nothing;
                }
            }
        }
    }
}

impl Slot<Value> {
    /// Adds a copy of each record to `found`.
    #[tactic(auto, using(crate::proofs::Held::none_distinct, crate::proofs::Held::one_distinct))]
    pub(crate) fn add_copies(&self, found: &mut Vec<(Id, Value)>) -> Result<(), NoMemory>
        ensures added { OnOk result (found.new.items ≡ found.old.items ++ self.now.records) }
        ensures distinct { OnOk result (IsDistinct nat_eq (holders self.now.records)) }
    {
        match &self.held {
            Held::Nothing => Ok(()),
            Held::One(holder, value) => table::add_copy(*holder, value, found),
            Held::Many(table) => table::add_copies(table, found),
        }
    }
}
