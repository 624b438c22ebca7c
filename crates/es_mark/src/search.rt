//! The search for ways: each value that has one is followed once, in the order in which it was found.

ghost use Rattle.std.specs.Prelude.{◌≡◌, ◌<◌, ◌≤◌, ◌+◌, ◌∷◌, [], length, take, OnOk, IfOk};
ghost use Rattle.std.specs.List.{AllByRecursion};
ghost use Rattle.es_mark.specs.Ways.{AreWays, AreShortest};
ghost use Rattle.es_mark.specs.Finds.{Finds, FindsEntries};
ghost use Rattle.es_mark.specs.Added.{AreAdded};
ghost use Rattle.es_mark.specs.Search.{HasRoom, Searching, Sorting, Stands, AreEntered, released};

use crate::waiting_entries::WaitingEntries;
use crate::{Heap, Step, Way, Ways};
use es_value::{Id, NoMemory};
use std::alloc::Global;

/// What the heap answered last, kept so that its memory serves the next question too.
#[derive(Drop)]
struct Found {
    /// Roots, or what the properties of an object hold.
    ways: Vec<Way>,
    /// WeakMap and value of each entry with an identity as its key.
    entries: Vec<(Id, Id)>,
}

impl Found {
    /// Nothing was asked yet; it takes no memory.
    fn new(alloc: Global) -> Found {
        Found {
            ways: Vec::new(alloc),
            entries: Vec::new(alloc),
        }
    }
}

/// A shortest way to each value that is reached, and to no other: each step leads to its value, and
/// comes from values whose ways stand earlier in the list (ECMA-262, Execution; WeakMap Objects).
///
/// Each value that has a way is followed once, so the heap is asked for its properties and for its
/// entries at most once.
///
/// It fails where there is no memory for the ways or for an answer of the heap.
pub fn find_ways<H: Heap>(alloc: Global, heap: &H) -> Result<Ways, NoMemory>
    ensures ways { IfOk result (λ w. AreWays (H.leads heap.now) w.list.items) }
    ensures shortest { IfOk result (λ w. AreShortest (H.leads heap.now) w.list.items) }
{
    let mut ways = Ways::new(alloc, heap.made())?;
    let mut waiting = WaitingEntries::new(alloc);
    let mut found = Found::new(alloc);
    find_roots(heap, &mut found.ways)?;
    ways.add_all(found.ways.as_slice())?;
    let mut followed = 0;
    'queue: while followed < ways.list.len() {
        let at = followed;
        followed += 1;
        follow(heap, at, &mut ways, &mut waiting, &mut found)?;
    }
    Ok(ways)
}

/// Adds ways to what the value at this place leads to: by its properties, by the entries with it as
/// the key whose WeakMap is followed, and by those that waited for it.
///
/// It fails where there is no memory for a way, for what waits or for an answer of the heap.
fn follow<H: Heap>(
    heap: &H,
    at: usize,
    ways: &mut Ways,
    waiting: &mut WaitingEntries,
    found: &mut Found,
) -> Result<(), NoMemory>
    requires within { at < length ways.old.list.items }
    requires room { HasRoom (H.leads heap.now) (length ways.old.places.items) }
    requires searching { Searching (H.leads heap.now) at ways.old.list.items waiting.old }
    requires sorting { Sorting (H.leads heap.now) (take at ways.old.list.items) ways.old.list.items }
    ensures searching { OnOk result (Searching (H.leads heap.now) (at + 1) ways.new.list.items waiting.new) }
    ensures sorting { OnOk result (Sorting (H.leads heap.now) (take (at + 1) ways.new.list.items) ways.new.list.items) }
    ensures room { OnOk result (length ways.new.places.items ≡ length ways.old.places.items) }
{
    let id = value_at(ways, at);
    find_properties(heap, id, &mut found.ways)?;
    ways.add_all(found.ways.as_slice())?;
    find_entries(heap, id, &mut found.entries)?;
    enter_all(found.entries.as_slice(), id, at + 1, ways, waiting)?;
    release(id, waiting.at(id), ways)
}

/// The value of the way at this place.
fn value_at(ways: &Ways, at: usize) -> Id
    requires { at < length ways.now.list.items }
    ensures { Stands ways.now.list.items at result }
{
    ways.list[at].value
}

/// Adds ways to the values of entries with this key whose WeakMap is among the first `count`, and
/// lets the others wait for theirs.
fn enter_all(
    entries: &[(Id, Id)],
    key: Id,
    count: usize,
    ways: &mut Ways,
    waiting: &mut WaitingEntries,
) -> Result<(), NoMemory>
    requires within { count ≤ length ways.old.list.items }
    requires room { AllByRecursion (λ e. e.1 < length ways.old.places.items) entries.now }
    ensures entered { OnOk result (AreEntered count key entries.now ways.old.list.items waiting.old ways.new.list.items waiting.new) }
    ensures room { OnOk result (length ways.new.places.items ≡ length ways.old.places.items) }
{
    for entry in entries {
        enter(entry, key, count, ways, waiting)?;
    }
    Ok(())
}

/// Adds a way to the value of the entry if its WeakMap is among the first `count`, and lets it wait
/// otherwise.
fn enter(
    entry: &(Id, Id),
    key: Id,
    count: usize,
    ways: &mut Ways,
    waiting: &mut WaitingEntries,
) -> Result<(), NoMemory>
    requires { entry.now.1 < length ways.old.places.items }
    ensures entered { OnOk result (AreEntered count key (entry.now ∷ []) ways.old.list.items waiting.old ways.new.list.items waiting.new) }
    ensures room { OnOk result (length ways.new.places.items ≡ length ways.old.places.items) }
{
    if ways.is_among(entry.0, count) {
        let way = Way {
            value: entry.1,
            step: Step::Entry(entry.0, key),
        };
        return ways.add(&way);
    }
    waiting.add(entry.0, key, entry.1)
}

/// Adds ways to the values of entries that waited for this WeakMap.
fn release(map: Id, waited: &[(Id, Id)], ways: &mut Ways) -> Result<(), NoMemory>
    requires { AllByRecursion (λ e. e.1 < length ways.old.places.items) waited.now }
    ensures added { OnOk result (AreAdded (released map waited.now) ways.old.list.items ways.new.list.items) }
    ensures room { OnOk result (length ways.new.places.items ≡ length ways.old.places.items) }
{
    for entry in waited {
        let way = Way {
            value: entry.1,
            step: Step::Entry(map, entry.0),
        };
        ways.add(&way)?;
    }
    Ok(())
}

/// Puts the roots into `found`, in place of what it had. It fails where `found` cannot grow.
fn find_roots<H: Heap>(heap: &H, found: &mut Vec<Way>) -> Result<(), NoMemory>
    ensures { OnOk result (Finds (H.leads heap.now) [] [] found.new.items) }
{
    found.clear();
    heap.roots(found)
}

/// Puts what the object's properties hold into `found`, in place of what it had. It fails where
/// `found` cannot grow.
fn find_properties<H: Heap>(heap: &H, object: Id, found: &mut Vec<Way>) -> Result<(), NoMemory>
    ensures { OnOk result (Finds (H.leads heap.now) (object ∷ []) [] found.new.items) }
{
    found.clear();
    heap.properties(object, found)
}

/// Puts the entries with this key into `found`, in place of what it had. It fails where `found`
/// cannot grow.
fn find_entries<H: Heap>(heap: &H, key: Id, found: &mut Vec<(Id, Id)>) -> Result<(), NoMemory>
    ensures { OnOk result (FindsEntries (H.leads heap.now) key [] found.new.items) }
{
    found.clear();
    heap.entries(key, found)
}
