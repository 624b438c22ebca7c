//! The changes that an event makes to the heap, to the WeakRefs, and to WeakMaps and WeakSets, where
//! there is room.

ghost use Rattle.std.specs.Prelude.{◌≡◌, ◌<◌, ◌==◌, ◌||◌, ◌++◌, ℕ, List, Some, true, false, is_some, unwrap_or, reverse, if◌then◌else◌};
ghost use Rattle.std.specs.Option.{option_map_or, option_to_list};
ghost use Rattle.es_event.specs.History.{at_key};
ghost use Rattle.es_event.specs.Properties.{same_key, keys_after};
ghost use Rattle.es_props.specs.Heap.{has, property, keys};
ghost use Rattle.es_weakref.specs.WeakRefs.{target as target_of};
ghost use Rattle.es_tables.specs.Changes.{with_option};
ghost use Rattle.es_event.specs.Ephemerons.{same_pair};
ghost use Rattle.es_ephemeron.specs.Ephemerons.{record_at};
ghost use Rattle.es_tables.specs.Ready.{has_room, has_room_at, has_place, has_room_under, has_entry_room, has_room_for, has_member_room};

use es_ephemeron::WeakTables;
use es_props::Heap;
use es_value::{Id, Name, Value};
use es_weakref::WeakRefs;

/// Makes an object, where one is made.
pub(crate) fn make(heap: &mut Heap, born: Option<Id>)
    requires born { option_map_or (has heap.old.all) born false ≡ false }
    requires place { has_place heap.old.rooms born ≡ true }
    ensures properties { (o : ℕ) (k : List ℕ) → property heap.new.all o k ≡ property heap.old.all o k }
    ensures keys { (o : ℕ) → keys heap.new.all o ≡ keys heap.old.all o }
    ensures objects { (o : ℕ) → has heap.new.all o ≡ (option_map_or (λ b. b == o) born false || has heap.old.all o) }
{
    if let Some(object) = born {
        heap.make(object);
    }
}

/// Writes a property, where one is written.
pub(crate) fn put(heap: &mut Heap, put: Option<((Id, Name), Option<Value>)>)
    requires put { option_map_or (λ p. has heap.old.all p.0.0) put true ≡ true }
    requires room { has_room heap.old.rooms put ≡ true }
    ensures properties { (o : ℕ) (k : List ℕ) → property heap.new.all o k ≡ unwrap_or (at_key same_key (o, k) put) (property heap.old.all o k) }
    ensures keys { (o : ℕ) → keys heap.new.all o ≡ keys_after o put (keys heap.old.all o) }
    ensures objects { (o : ℕ) → has heap.new.all o ≡ has heap.old.all o }
{
    if let Some(((object, key), value)) = put {
        write(heap, object, key, value);
    }
}

/// Sets a property, or deletes it where there is no value.
pub(crate) fn write(heap: &mut Heap, object: Id, key: Name, value: Option<Value>)
    requires there { has heap.old.all object ≡ true }
    requires room { has_room_at heap.old.rooms object value ≡ true }
    ensures properties { (o : ℕ) (k : List ℕ) → property heap.new.all o k ≡ (if same_key (object, key) (o, k) then value else property heap.old.all o k) }
    ensures keys { (o : ℕ) → keys heap.new.all o ≡ keys_after o (Some ((object, key), value)) (keys heap.old.all o) }
    ensures objects { (o : ℕ) → has heap.new.all o ≡ has heap.old.all o }
{
    match value {
        Some(value) => heap.set(object, key, value),
        None => {
            heap.delete(object, &key);
        }
    }
}

/// Adds a WeakRef, where one is made.
pub(crate) fn aim(weakrefs: &mut WeakRefs, points: Option<(Id, Id)>)
    requires room { 0 < weakrefs.old.target_room }
    requires fresh { option_map_or (λ p. is_some (target_of weakrefs.old p.0)) points false ≡ false }
    ensures targets { (w : ℕ) → target_of weakrefs.new w ≡ unwrap_or (at_key (λ i j. i == j) w (with_option points)) (target_of weakrefs.old w) }
    ensures kept { weakrefs.new.kept ≡ weakrefs.old.kept }
    ensures kept_room { weakrefs.new.kept_room ≡ weakrefs.old.kept_room }
{
    if let Some((weakref, target)) = points {
        let _ = weakrefs.make(weakref, target);
    }
}

/// Adds to KeptAlive what is kept.
pub(crate) fn keep(weakrefs: &mut WeakRefs, kept: Option<Id>)
    requires { 0 < weakrefs.old.kept_room }
    ensures kept { reverse weakrefs.new.kept ≡ option_to_list kept ++ reverse weakrefs.old.kept }
    ensures targets { (w : ℕ) → target_of weakrefs.new w ≡ target_of weakrefs.old w }
{
    if let Some(id) = kept {
        let _ = weakrefs.keep(id);
    }
}

/// Writes an entry of a WeakMap, where one is written.
pub(crate) fn enter(weak: &mut WeakTables, entered: Option<((Id, Id), Option<Value>)>)
    requires { has_entry_room weak.old.entries.rooms entered ≡ true }
    ensures entries { (m k : ℕ) → record_at weak.new.entries.all m k ≡ unwrap_or (at_key same_pair (m, k) entered) (record_at weak.old.entries.all m k) }
    ensures members { weak.new.members ≡ weak.old.members }
{
    if let Some(((map, key), value)) = entered {
        write_entry(weak, map, key, value);
    }
}

/// Sets an entry, or deletes it where there is no value.
fn write_entry(weak: &mut WeakTables, map: Id, key: Id, value: Option<Value>)
    requires { has_room_under weak.old.entries.rooms key value ≡ true }
    ensures entries { (m k : ℕ) → record_at weak.new.entries.all m k ≡ (if same_pair (map, key) (m, k) then value else record_at weak.old.entries.all m k) }
    ensures members { weak.new.members ≡ weak.old.members }
{
    match value {
        Some(value) => weak.map_set(map, key, value),
        None => {
            weak.map_delete(map, key);
        }
    }
}

/// Writes a member of a WeakSet, where one is written.
pub(crate) fn join(weak: &mut WeakTables, joined: Option<((Id, Id), bool)>)
    requires { has_member_room weak.old.members.rooms joined ≡ true }
    ensures members { (m k : ℕ) → is_some (record_at weak.new.members.all m k) ≡ unwrap_or (at_key same_pair (m, k) joined) (is_some (record_at weak.old.members.all m k)) }
    ensures entries { weak.new.entries ≡ weak.old.entries }
{
    if let Some(((set, member), joins)) = joined {
        write_member(weak, set, member, joins);
    }
}

/// Adds a member, or deletes it.
fn write_member(weak: &mut WeakTables, set: Id, member: Id, joins: bool)
    requires { has_room_for weak.old.members.rooms member joins ≡ true }
    ensures members { (m k : ℕ) → is_some (record_at weak.new.members.all m k) ≡ (if same_pair (set, member) (m, k) then joins else is_some (record_at weak.old.members.all m k)) }
    ensures entries { weak.new.entries ≡ weak.old.entries }
{
    if joins {
        weak.set_add(set, member);
    } else {
        weak.set_delete(set, member);
    }
}
