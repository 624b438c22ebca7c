//! The objects of an agent.

ghost use Rattle.std.specs.Prelude.{◌≡◌, ℕ, length, ◌<◌, ◌≤◌, [], ◌++◌, List, IfOk, OnOk, OnErr, IsTrue, Some, None, true, false, if◌then◌else◌, is_some};
ghost use Rattle.std.specs.List.{IsDistinct};
ghost use Rattle.std.specs.Option.{option_copied, option_map};
ghost use Rattle.std.specs.Str.{bytes_eq};
ghost use Rattle.es_value.specs.Ids.{is_in};
ghost use Rattle.es_props.specs.Heap.{object, has, property, keys, edges, with_property, without_property, Changes, Unchanged, KeepsRoom, KeepsRoomBut, room_at};

use crate::slot::Slot;
use es_value::{Id, Name, NoMemory, Value};
use std::alloc::Global;
use std::marker::Model;

/// The objects of an agent and their properties (ECMA-262, Ordinary Object Internal Methods and
/// Internal Slots). Each object stands at the place of its identity, and its keys stand in order of
/// creation.
#[derive(Drop)]
pub struct Heap {
    slots: Vec<Slot>,
    /// The name that stands where an object's first property is to come, once there was such a place.
    unused: Option<Name>,
    alloc: Global,
}

impl Model for Heap {
    ghost use Rattle.std.specs.Prelude.{map};
    ghost use Rattle.es_props.specs.Heap.{HeapView};
    ghost use Rattle.es_props.specs.Slots.{objects_from};

    ghost Value = { HeapView };

    ghost view = { λ h. record {
      all = objects_from 1 h.slots.items;
      rooms = map (λ p. p.room) h.slots.items;
    } };
}

impl Heap {
    /// A heap without objects; it takes no memory until an object is made.
    pub fn new(alloc: Global) -> Heap
        ensures { result.all ≡ [] }
    {
        Heap {
            slots: Vec::new(alloc),
            unused: None,
            alloc,
        }
    }

    /// Makes a place for each identity up to this one, so that `make` of it is granted.
    #[tactic(auto, using(crate::proofs::Places::object_of, crate::proofs::Places::room_of, crate::proofs::Places::places_of))]
    pub fn reserve_make(&mut self, id: Id) -> Result<(), NoMemory>
        ensures same { Unchanged self.old.all self.new.all }
        ensures rooms { KeepsRoom self.old.rooms self.new.rooms }
        ensures place { OnOk result (id ≤ length self.new.rooms) }
    {
        for _ in self.slots.len()..id.number() as usize {
            self.slots.push(Slot::empty())?;
        }
        Ok(())
    }

    /// Makes room for one more property of an object, so that `set` of it is granted.
    #[tactic(auto, using(crate::proofs::Places::object_of, crate::proofs::Places::room_of, crate::proofs::Places::places_of))]
    pub fn reserve_set(&mut self, id: Id) -> Result<(), NoMemory>
        ensures same { Unchanged self.old.all self.new.all }
        ensures rooms { KeepsRoom self.old.rooms self.new.rooms }
        ensures room { OnOk result (has self.old.all id ≡ true → 0 < room_at self.new.rooms id) }
    {
        let Some(slot) = self.slots.get_mut(id.number() as usize - 1) else {
            return Ok(());
        };
        slot.reserve(self.alloc, &mut self.unused)
    }

    /// Adds an object without properties, where there is a place for it.
    #[tactic(auto, using(crate::proofs::Places::object_of, crate::proofs::Places::room_of, crate::proofs::Places::places_of))]
    pub fn make(&mut self, id: Id)
        requires place { id ≤ length self.old.rooms }
        requires free { has self.old.all id ≡ false }
        ensures made { Changes self.old.all id (Some []) self.new.all }
        ensures rooms { KeepsRoom self.old.rooms self.new.rooms }
    {
        let Some(slot) = self.slots.get_mut(id.number() as usize - 1) else {
            unreachable!();
        };
        slot.make();
    }

    /// Sets a property of an object that is there and has room for one more (OrdinarySet): a key that
    /// is there keeps its place.
    #[tactic(auto, using(crate::proofs::Places::object_of, crate::proofs::Places::room_of, crate::proofs::Places::places_of))]
    pub fn set(&mut self, id: Id, key: Name, value: Value)
        requires there { IsTrue (has self.old.all id) }
        requires room { 0 < room_at self.old.rooms id }
        ensures set { Changes self.old.all id (option_map (λ ps. with_property ps key value) (object self.old.all id)) self.new.all }
        ensures rooms { KeepsRoomBut id self.old.rooms self.new.rooms }
    {
        let Some(slot) = self.slots.get_mut(id.number() as usize - 1) else {
            unreachable!();
        };
        slot.set(key, value);
    }

    /// The value under a key of an object, if the object has it (OrdinaryGet).
    #[tactic(auto, using(crate::proofs::Places::object_of, crate::proofs::Places::room_of, crate::proofs::Places::places_of))]
    pub fn get(&self, id: Id, key: &Name) -> Option<&Value>
        ensures { option_copied result ≡ property self.now.all id key.now }
    {
        self.slots.get(id.number() as usize - 1)?.get(key)
    }

    /// Deletes a property of an object (OrdinaryDelete); whether it was there.
    #[tactic(auto, using(crate::proofs::Places::object_of, crate::proofs::Places::room_of, crate::proofs::Places::places_of))]
    pub fn delete(&mut self, id: Id, key: &Name) -> bool
        ensures was_there { result ≡ is_some (property self.old.all id key.now) }
        ensures after { Changes self.old.all id (option_map (λ ps. without_property ps key.now) (object self.old.all id)) self.new.all }
        ensures rooms { KeepsRoom self.old.rooms self.new.rooms }
    {
        let Some(slot) = self.slots.get_mut(id.number() as usize - 1) else {
            return false;
        };
        slot.delete(key)
    }

    /// The keys of an object, in order of creation (OrdinaryOwnPropertyKeys).
    #[tactic(auto, using(crate::proofs::Places::object_of, crate::proofs::Places::room_of, crate::proofs::Places::places_of))]
    pub fn keys(&self, id: Id) -> Result<Vec<Name>, NoMemory>
        ensures { IfOk result (λ ks. ks.items ≡ keys self.now.all id) }
    {
        match self.slots.get(id.number() as usize - 1) {
            Some(slot) => slot.keys(self.alloc),
            None => Ok(Vec::new(self.alloc)),
        }
    }

    /// Adds the identities that the object's values have to `found`, in order: one for each key whose
    /// value has one, as no key stands twice.
    #[tactic(auto, using(crate::proofs::Places::object_of, crate::proofs::Places::room_of, crate::proofs::Places::places_of))]
    pub fn edges(&self, id: Id, found: &mut Vec<Id>) -> Result<(), NoMemory>
        ensures ok { OnOk result (found.new.items ≡ found.old.items ++ edges self.now.all id) }
        ensures err { OnErr result (found.new.items ≡ found.old.items) }
        ensures distinct { OnOk result (IsDistinct bytes_eq (keys self.now.all id)) }
    {
        match self.slots.get(id.number() as usize - 1) {
            Some(slot) => slot.add_identities(found),
            None => Ok(()),
        }
    }

    /// Whether the object is there.
    #[tactic(auto, using(crate::proofs::Places::object_of, crate::proofs::Places::room_of, crate::proofs::Places::places_of))]
    pub fn has(&self, id: Id) -> bool
        ensures { result ≡ has self.now.all id }
    {
        match self.slots.get(id.number() as usize - 1) {
            Some(slot) => slot.is_object(),
            None => false,
        }
    }

    /// Removes the objects of these identities with their properties, and passes over strangers.
    #[tactic(auto, using(crate::proofs::Places::object_of, crate::proofs::Places::room_of, crate::proofs::Places::places_of))]
    pub fn remove(&mut self, ids: &[Id])
        ensures { (p : ℕ) → object self.new.all p ≡ (if is_in ids.now p then None else object self.old.all p) }
    {
        for id in ids {
            if let Some(slot) = self.slots.get_mut(id.number() as usize - 1) {
                slot.clear();
            }
        }
    }
}
