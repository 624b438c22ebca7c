//! The slots of all keys.

ghost use Rattle.std.specs.Prelude.{◌≡◌, ◌<◌, ◌++◌, [], Some, None, OnOk, is_some, nat_eq};
ghost use Rattle.std.specs.List.{IsDistinct};
ghost use Rattle.std.specs.Option.{option_copied};
ghost use Rattle.es_ephemeron.specs.Ephemerons.{holders, records_at, record_at, room_at, Changes, Unchanged, Empties, KeepsRoom};

use crate::slot::Slot;
use crate::slots;
use es_value::{Id, IdSet, NoMemory, Value};
use std::alloc::Global;
use std::marker::Model;

/// What holders have under each key, in a slot for each identity from 1 on.
#[derive(Drop)]
pub(crate) struct Keyed<V> {
    slots: Vec<Slot<V>>,
    alloc: Global,
}

impl<V> Model for Keyed<V> {
    ghost use Rattle.std.specs.Prelude.{map};
    ghost use Rattle.es_ephemeron.specs.Ephemerons.{KeyedView as KeyedRecords};

    ghost Value = { KeyedRecords V };

    ghost view = { λ t. record {
      all = map (λ p. p.records) t.slots.items;
      rooms = map (λ p. p.room) t.slots.items;
    } };
}

impl<V: Drop> Keyed<V> {
    /// No record under any key; it takes no memory.
    pub(crate) fn new(alloc: Global) -> Keyed<V>
        ensures { result ≡ record { all = []; rooms = [] } }
    {
        Keyed {
            slots: Vec::new(alloc),
            alloc,
        }
    }

    /// Makes room for one more record under this key.
    #[tactic(auto, using(crate::proofs::Places::records_of, crate::proofs::Places::room_of))]
    pub(crate) fn reserve(&mut self, key: Id) -> Result<(), NoMemory>
        ensures same { Unchanged self.old.all self.new.all }
        ensures rooms { KeepsRoom self.old.rooms self.new.rooms }
        ensures room { OnOk result (0 < room_at self.new.rooms key) }
    {
        slots::extend(&mut self.slots, key.number() as usize)?;
        let Some(slot) = self.slots.get_mut(key.number() as usize - 1) else {
            unreachable!();
        };
        slot.reserve(self.alloc)
    }

    /// Records what a holder has under a key, where there is room for one more record.
    #[tactic(auto, using(crate::proofs::Places::records_of, crate::proofs::Places::room_of))]
    pub(crate) fn set(&mut self, holder: Id, key: Id, value: V)
        requires { 0 < room_at self.old.rooms key }
        ensures { Changes self.old.all holder key (Some value) self.new.all }
    {
        let Some(slot) = self.slots.get_mut(key.number() as usize - 1) else {
            unreachable!();
        };
        slot.set(holder, value);
    }

    /// What a holder has under a key, if anything.
    #[tactic(auto, using(crate::proofs::Places::records_of, crate::proofs::Places::room_of))]
    pub(crate) fn get(&self, holder: Id, key: Id) -> Option<&V>
        ensures { option_copied result ≡ record_at self.now.all holder key }
    {
        self.slots.get(key.number() as usize - 1)?.get(holder)
    }

    /// Drops what a holder has under a key; whether it was there.
    #[tactic(auto, using(crate::proofs::Places::records_of, crate::proofs::Places::room_of))]
    pub(crate) fn remove(&mut self, holder: Id, key: Id) -> bool
        ensures was_there { result ≡ is_some (record_at self.old.all holder key) }
        ensures after { Changes self.old.all holder key None self.new.all }
        ensures rooms { KeepsRoom self.old.rooms self.new.rooms }
    {
        let Some(slot) = self.slots.get_mut(key.number() as usize - 1) else {
            return false;
        };
        slot.remove(holder)
    }

    /// Adds each holder that has something under this key to `found`.
    #[tactic(auto, using(crate::proofs::Places::records_of, crate::proofs::Held::none_distinct))]
    pub(crate) fn add_holders(&self, key: Id, found: &mut Vec<Id>) -> Result<(), NoMemory>
        ensures added { OnOk result (found.new.items ≡ found.old.items ++ holders (records_at self.now.all key)) }
        ensures distinct { OnOk result (IsDistinct nat_eq (holders (records_at self.now.all key))) }
    {
        match self.slots.get(key.number() as usize - 1) {
            Some(slot) => slot.add_holders(found),
            None => Ok(()),
        }
    }

    /// Drops the records under these keys, and those of these holders; it takes no memory.
    #[tactic(auto, using(crate::proofs::Places::records_of, crate::proofs::Places::room_of))]
    pub(crate) fn empty(&mut self, ids: &[Id])
        ensures { Empties self.old.all ids.now self.new.all }
    {
        slots::clear(&mut self.slots, ids);
        slots::release(&mut self.slots, &IdSet::of(ids));
    }
}

impl Keyed<Value> {
    /// Adds each holder that has something under this key to `found`, with a copy of what it has.
    #[tactic(auto, using(crate::proofs::Places::records_of, crate::proofs::Held::none_distinct))]
    pub(crate) fn add_copies(&self, key: Id, found: &mut Vec<(Id, Value)>) -> Result<(), NoMemory>
        ensures added { OnOk result (found.new.items ≡ found.old.items ++ records_at self.now.all key) }
        ensures distinct { OnOk result (IsDistinct nat_eq (holders (records_at self.now.all key))) }
    {
        match self.slots.get(key.number() as usize - 1) {
            Some(slot) => slot.add_copies(found),
            None => Ok(()),
        }
    }
}
