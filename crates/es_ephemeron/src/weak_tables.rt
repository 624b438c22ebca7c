//! The entries of WeakMaps and the members of WeakSets.

ghost use Rattle.std.specs.Prelude.{◌≡◌, ℕ, ◌<◌, ◌++◌, Some, None, OnOk, is_some, nat_eq};
ghost use Rattle.std.specs.List.{IsDistinct};
ghost use Rattle.std.specs.Option.{option_copied};
ghost use Rattle.es_ephemeron.specs.Ephemerons.{holders, record_at, records_at, room_at, Changes, Unchanged, Empties, KeepsRoom};

use crate::keyed::Keyed;
use es_value::{Id, NoMemory, Value};
use std::alloc::Global;
use std::marker::Model;

/// The entries of WeakMaps and the members of WeakSets of an agent, kept by key, so that what is
/// emptied with a key, and what a key leads to, is found at the key alone (ECMA-262, WeakMap Objects;
/// WeakSet Objects).
#[derive(Drop)]
pub struct WeakTables {
    entries: Keyed<Value>,
    members: Keyed<()>,
}

impl Model for WeakTables {
    ghost use Rattle.es_ephemeron.specs.Ephemerons.{WeakTablesView};

    ghost Value = { WeakTablesView };

    ghost view = { λ t. record { entries = t.entries; members = t.members } };
}

impl WeakTables {
    /// No entries and no members; it takes no memory.
    pub fn new(alloc: Global) -> WeakTables
        ensures entries { (m k : ℕ) → record_at result.entries.all m k ≡ None }
        ensures members { (s k : ℕ) → record_at result.members.all s k ≡ None }
    {
        WeakTables {
            entries: Keyed::new(alloc),
            members: Keyed::new(alloc),
        }
    }

    /// Makes room under this key for one more entry, so that the next `map_set` at it is granted.
    ///
    /// # Errors
    ///
    /// `NoMemory` where there is none; each record is as it was.
    pub fn reserve_entry(&mut self, key: Id) -> Result<(), NoMemory>
        ensures same { Unchanged self.old.entries.all self.new.entries.all }
        ensures members { self.new.members ≡ self.old.members }
        ensures rooms { KeepsRoom self.old.entries.rooms self.new.entries.rooms }
        ensures room { OnOk result (0 < room_at self.new.entries.rooms key) }
    {
        self.entries.reserve(key)
    }

    /// Makes room for one more WeakSet that has this member, so that the next `set_add` of it is
    /// granted.
    ///
    /// # Errors
    ///
    /// `NoMemory` where there is none; each record is as it was.
    pub fn reserve_member(&mut self, member: Id) -> Result<(), NoMemory>
        ensures same { Unchanged self.old.members.all self.new.members.all }
        ensures entries { self.new.entries ≡ self.old.entries }
        ensures rooms { KeepsRoom self.old.members.rooms self.new.members.rooms }
        ensures room { OnOk result (0 < room_at self.new.members.rooms member) }
    {
        self.members.reserve(member)
    }

    /// Sets the value of an entry (WeakMap.prototype.set), where there is room for it.
    pub fn map_set(&mut self, map: Id, key: Id, value: Value)
        requires { 0 < room_at self.old.entries.rooms key }
        ensures set { Changes self.old.entries.all map key (Some value) self.new.entries.all }
        ensures members { self.new.members ≡ self.old.members }
    {
        self.entries.set(map, key, value);
    }

    /// The value of an entry, if it is there (WeakMap.prototype.get).
    pub fn map_get(&self, map: Id, key: Id) -> Option<&Value>
        ensures { option_copied result ≡ record_at self.now.entries.all map key }
    {
        self.entries.get(map, key)
    }

    /// Whether there is an entry (WeakMap.prototype.has).
    pub fn map_has(&self, map: Id, key: Id) -> bool
        ensures { result ≡ is_some (record_at self.now.entries.all map key) }
    {
        self.entries.get(map, key).is_some()
    }

    /// Deletes an entry (WeakMap.prototype.delete); whether it was there. It takes no memory.
    pub fn map_delete(&mut self, map: Id, key: Id) -> bool
        ensures was_there { result ≡ is_some (record_at self.old.entries.all map key) }
        ensures after { Changes self.old.entries.all map key None self.new.entries.all }
        ensures members { self.new.members ≡ self.old.members }
        ensures rooms { KeepsRoom self.old.entries.rooms self.new.entries.rooms }
    {
        self.entries.remove(map, key)
    }

    /// Adds a member (WeakSet.prototype.add), where there is room for it.
    pub fn set_add(&mut self, set: Id, member: Id)
        requires { 0 < room_at self.old.members.rooms member }
        ensures added { Changes self.old.members.all set member (Some tt) self.new.members.all }
        ensures entries { self.new.entries ≡ self.old.entries }
    {
        self.members.set(set, member, ());
    }

    /// Whether the set has this member (WeakSet.prototype.has).
    pub fn set_has(&self, set: Id, member: Id) -> bool
        ensures { result ≡ is_some (record_at self.now.members.all set member) }
    {
        self.members.get(set, member).is_some()
    }

    /// Deletes a member (WeakSet.prototype.delete); whether it was there. It takes no memory.
    pub fn set_delete(&mut self, set: Id, member: Id) -> bool
        ensures was_there { result ≡ is_some (record_at self.old.members.all set member) }
        ensures after { Changes self.old.members.all set member None self.new.members.all }
        ensures entries { self.new.entries ≡ self.old.entries }
        ensures rooms { KeepsRoom self.old.members.rooms self.new.members.rooms }
    {
        self.members.remove(set, member)
    }

    /// Adds the WeakMap and the value of each entry with this key to `found`, each WeakMap once.
    ///
    /// # Errors
    ///
    /// `NoMemory` where there is none; nothing is said of `found` then.
    pub fn entries_of_key(&self, key: Id, found: &mut Vec<(Id, Value)>) -> Result<(), NoMemory>
        ensures ok { OnOk result (found.new.items ≡ found.old.items ++ records_at self.now.entries.all key) }
        ensures distinct { OnOk result (IsDistinct nat_eq (holders (records_at self.now.entries.all key))) }
    {
        self.entries.add_copies(key, found)
    }

    /// Adds each WeakSet that has this member to `found`, none twice.
    ///
    /// # Errors
    ///
    /// `NoMemory` where there is none; nothing is said of `found` then.
    pub fn sets_of_member(&self, member: Id, found: &mut Vec<Id>) -> Result<(), NoMemory>
        ensures ok { OnOk result (found.new.items ≡ found.old.items ++ holders (records_at self.now.members.all member)) }
        ensures distinct { OnOk result (IsDistinct nat_eq (holders (records_at self.now.members.all member))) }
    {
        self.members.add_holders(member, found)
    }

    /// Drops each entry and each member whose key, WeakMap or WeakSet is named (Execution); it takes
    /// no memory. The identities stand in any order, and may be strangers or stand twice.
    pub fn empty(&mut self, ids: &[Id])
        ensures entries { Empties self.old.entries.all ids.now self.new.entries.all }
        ensures members { Empties self.old.members.all ids.now self.new.members.all }
    {
        self.entries.empty(ids);
        self.members.empty(ids);
    }
}
