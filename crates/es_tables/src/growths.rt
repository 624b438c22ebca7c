//! The growths of the heap and of the WeakMaps and WeakSets that an event needs.

ghost use Rattle.std.specs.Prelude.{◌≡◌, true, OnOk};
ghost use Rattle.std.specs.Option.{option_map_or};
ghost use Rattle.es_props.specs.Heap.{has, Unchanged, KeepsRoom};
ghost use Rattle.es_ephemeron.specs.Ephemerons.{Unchanged as UnchangedRecords};
ghost use Rattle.es_tables.specs.Ready.{has_room, has_room_at, has_place, has_room_under, has_entry_room, has_room_for, has_member_room};

use es_ephemeron::WeakTables;
use es_props::Heap;
use es_value::{Id, Name, NoMemory, Value};

/// Makes a place for the object that is made.
pub(crate) fn reserve_born(heap: &mut Heap, born: Option<Id>) -> Result<(), NoMemory>
    ensures same { Unchanged heap.old.all heap.new.all }
    ensures born { OnOk result (has_place heap.new.rooms born ≡ true) }
{
    match born {
        Some(object) => heap.reserve_make(object),
        None => Ok(()),
    }
}

/// Makes room for the property that is set.
pub(crate) fn reserve_put(
    heap: &mut Heap,
    put: &Option<((Id, Name), Option<Value>)>,
) -> Result<(), NoMemory>
    requires { option_map_or (λ p. has heap.old.all p.0.0) put.now true ≡ true }
    ensures same { Unchanged heap.old.all heap.new.all }
    ensures rooms { KeepsRoom heap.old.rooms heap.new.rooms }
    ensures room { OnOk result (has_room heap.new.rooms put.now ≡ true) }
{
    match put {
        Some(((object, _), value)) => reserve_value(heap, *object, value),
        None => Ok(()),
    }
}

fn reserve_value(heap: &mut Heap, object: Id, value: &Option<Value>) -> Result<(), NoMemory>
    requires { has heap.old.all object ≡ true }
    ensures same { Unchanged heap.old.all heap.new.all }
    ensures rooms { KeepsRoom heap.old.rooms heap.new.rooms }
    ensures room { OnOk result (has_room_at heap.new.rooms object value.now ≡ true) }
{
    match value {
        Some(_) => heap.reserve_set(object),
        None => Ok(()),
    }
}

/// Makes room for the entry that is set.
pub(crate) fn reserve_entered(
    weak: &mut WeakTables,
    entered: &Option<((Id, Id), Option<Value>)>,
) -> Result<(), NoMemory>
    ensures same { UnchangedRecords weak.old.entries.all weak.new.entries.all }
    ensures members { weak.new.members ≡ weak.old.members }
    ensures room { OnOk result (has_entry_room weak.new.entries.rooms entered.now ≡ true) }
{
    match entered {
        Some(((_, key), value)) => reserve_entry(weak, *key, value),
        None => Ok(()),
    }
}

fn reserve_entry(weak: &mut WeakTables, key: Id, value: &Option<Value>) -> Result<(), NoMemory>
    ensures same { UnchangedRecords weak.old.entries.all weak.new.entries.all }
    ensures members { weak.new.members ≡ weak.old.members }
    ensures room { OnOk result (has_room_under weak.new.entries.rooms key value.now ≡ true) }
{
    match value {
        Some(_) => weak.reserve_entry(key),
        None => Ok(()),
    }
}

/// Makes room for the member that is added.
pub(crate) fn reserve_joined(
    weak: &mut WeakTables,
    joined: Option<((Id, Id), bool)>,
) -> Result<(), NoMemory>
    ensures same { UnchangedRecords weak.old.members.all weak.new.members.all }
    ensures entries { weak.new.entries ≡ weak.old.entries }
    ensures room { OnOk result (has_member_room weak.new.members.rooms joined ≡ true) }
{
    match joined {
        Some(((_, member), joins)) => reserve_member(weak, member, joins),
        None => Ok(()),
    }
}

fn reserve_member(weak: &mut WeakTables, member: Id, joins: bool) -> Result<(), NoMemory>
    ensures same { UnchangedRecords weak.old.members.all weak.new.members.all }
    ensures entries { weak.new.entries ≡ weak.old.entries }
    ensures room { OnOk result (has_room_for weak.new.members.rooms member joins ≡ true) }
{
    if joins {
        weak.reserve_member(member)
    } else {
        Ok(())
    }
}
