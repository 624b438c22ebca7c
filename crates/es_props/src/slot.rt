//! The place of one identity: an object with its properties, or nothing.
ghost use Rattle.std.specs.Prelude.{◌≡◌, true, ◌<◌, ◌≤◌, ◌++◌, [], None, Some, IfOk, OnOk, OnErr, is_some};
ghost use Rattle.std.specs.List.{IsDistinct, flat_map};
ghost use Rattle.std.specs.Option.{option_copied, option_map, option_map_or, option_and_then, option_to_list};
ghost use Rattle.std.specs.Str.{bytes_eq};
ghost use Rattle.es_value.specs.Values.{identity};
ghost use Rattle.es_props.specs.Heap.{value_at, keys_of, with_property, without_property};

use crate::few::Few;
use crate::{one, properties};
use es_value::{Id, Name, NoMemory, Value};
use indexmap::IndexMap;
use std::alloc::Global;
use std::marker::Model;
use std::mem;

/// How many properties are looked through from the first; more of them stand in a table.
const MOST_FEW: usize = 8;

/// The place of one identity. An object that never had room for a property takes no memory beside it,
/// and one with one property a single block.
#[derive(Drop)]
pub(crate) struct Slot {
    held: Held,
}

/// What stands in a place.
#[derive(Drop)]
pub(crate) enum Held {
    /// No object.
    Nothing,
    /// An object without properties.
    Bare,
    /// An object without properties that has room for one.
    Room(Box<(Name, Value)>),
    /// An object with one property.
    One(Box<(Name, Value)>),
    /// An object with few properties.
    Few(Box<Few>),
    /// An object with many properties.
    Many(Box<IndexMap<Name, Value>>),
}

impl Model for Slot {
    ghost use Rattle.es_props.specs.Slots.{SlotView, place_of};

    ghost Value = { SlotView };

    ghost view = { λ s. place_of s.held };
}

impl Slot {
    /// No object.
    pub(crate) fn empty() -> Slot
        ensures { result ≡ record { object = None; room = 0 } }
    {
        Slot {
            held: Held::Nothing,
        }
    }

    /// Whether an object is here.
    pub(crate) fn is_object(&self) -> bool
        ensures { result ≡ is_some self.now.object }
    {
        !matches!(self.held, Held::Nothing)
    }

    /// Places an object without properties.
    pub(crate) fn make(&mut self)
        requires { self.old.object ≡ None }
        ensures made { self.new.object ≡ Some [] }
        ensures room { self.old.room ≤ self.new.room }
    {
        self.held = Held::Bare;
    }

    /// Takes the object away.
    pub(crate) fn clear(&mut self)
        ensures { self.new.object ≡ None }
    {
        self.held = Held::Nothing;
    }

    /// Makes room for one more property of the object. An unused name stands where the first is to come.
    pub(crate) fn reserve(
        &mut self,
        alloc: Global,
        unused: &mut Option<Name>,
    ) -> Result<(), NoMemory>
        ensures same { self.new.object ≡ self.old.object }
        ensures more { self.old.room ≤ self.new.room }
        ensures room { OnOk result (is_some self.old.object ≡ true → 0 < self.new.room) }
    {
        match &mut self.held {
            Held::Nothing => Ok(()),
            Held::Bare => {
                self.held = Held::Room(one::room(alloc, unused)?);
                Ok(())
            }
            Held::Room(_) => Ok(()),
            Held::One(property) => {
                self.held = Held::Few(Box::new(alloc, Few::new(alloc, property)?)?);
                Ok(())
            }
            Held::Few(few) if few.has_room() => Ok(()),
            Held::Few(few) if few.entries().len() < MOST_FEW => few.reserve(),
            Held::Few(few) => {
                self.held = Held::Many(properties::table_of(few, alloc)?);
                Ok(())
            }
            Held::Many(table) => properties::reserve(table),
        }
    }

    /// Sets a property, where there is room for one more.
    pub(crate) fn set(&mut self, key: Name, value: Value)
        requires { 0 < self.old.room }
        ensures { self.new.object ≡ option_map (λ ps. with_property ps key value) self.old.object }
    {
        match &mut self.held {
            Held::Nothing | Held::Bare | Held::One(_) => unreachable!(),
            Held::Room(_) => {
                let Held::Room(room) = mem::replace(&mut self.held, Held::Nothing) else {
                    unreachable!();
                };
                self.held = Held::One(one::fill(room, key, value));
            }
            Held::Few(few) => few.put(key, value),
            Held::Many(table) => properties::put(table, key, value),
        }
    }

    /// Deletes a property; whether it was there.
    pub(crate) fn delete(&mut self, key: &Name) -> bool
        ensures was_there { result ≡ is_some (option_and_then (λ ps. value_at ps key.now) self.old.object) }
        ensures after { self.new.object ≡ option_map (λ ps. without_property ps key.now) self.old.object }
        ensures room { self.old.room ≤ self.new.room }
    {
        match &mut self.held {
            Held::Nothing => false,
            Held::Bare | Held::Room(_) => false,
            Held::One(property) if property.0 == *key => {
                self.held = Held::Bare;
                true
            }
            Held::One(_) => false,
            Held::Few(few) => few.take_out(key),
            Held::Many(table) => properties::take_out(table, key),
        }
    }

    /// The value under a key, if the object has it.
    #[tactic(auto, using(crate::proofs::Tables::value_at_is_lookup))]
    pub(crate) fn get(&self, key: &Name) -> Option<&Value>
        ensures { option_copied result ≡ option_and_then (λ ps. value_at ps key.now) self.now.object }
    {
        match &self.held {
            Held::Nothing => None,
            Held::Bare | Held::Room(_) => None,
            Held::One(property) => one::get(property, key),
            Held::Few(few) => few.get(key),
            Held::Many(table) => table.get(key),
        }
    }

    /// The keys, in order of creation.
    pub(crate) fn keys(&self, alloc: Global) -> Result<Vec<Name>, NoMemory>
        ensures { IfOk result (λ ks. ks.items ≡ option_map_or keys_of self.now.object []) }
    {
        match &self.held {
            Held::Nothing => Ok(Vec::new(alloc)),
            Held::Bare | Held::Room(_) => Ok(Vec::new(alloc)),
            Held::One(property) => one::keys(property, alloc),
            Held::Few(few) => few.keys(alloc),
            Held::Many(table) => properties::keys(table, alloc),
        }
    }

    /// Adds the identities that the values have to `found`, in order.
    #[tactic(auto, using(crate::proofs::Held::none_distinct))]
    pub(crate) fn add_identities(&self, found: &mut Vec<Id>) -> Result<(), NoMemory>
        ensures ok { OnOk result (found.new.items ≡ found.old.items ++ flat_map (λ p. option_to_list (identity p.1)) (option_map_or (λ ps. ps) self.now.object [])) }
        ensures err { OnErr result (found.new.items ≡ found.old.items) }
        ensures distinct { OnOk result (IsDistinct bytes_eq (option_map_or keys_of self.now.object [])) }
    {
        match &self.held {
            Held::Nothing => Ok(()),
            Held::Bare | Held::Room(_) => Ok(()),
            Held::One(property) => one::add_identity(property, found),
            Held::Few(few) => few.add_identities(found),
            Held::Many(table) => properties::add_identities(table, found),
        }
    }
}
