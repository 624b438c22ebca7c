//! Marks of a copy with more roots.

ghost use Rattle.std.specs.Prelude.{◌≡◌, ◌++◌, ℕ, true, [], IfOk, IsTrue};
ghost use Rattle.es_mark.specs.Graph.{HasAll, IsNumbered};
ghost use Rattle.es_mark.specs.Marks.{is_marked};
ghost use Rattle.es_parmark.specs.Snapshot.{are_made, AreMarksOf, AreMarksWith};

use crate::Snapshot;
use es_mark::{Found, Graph, Marks, Reached, Waiting, follow};
use es_value::{Id, NoMemory};
use std::alloc::Global;

/// The marks of the copy with these identities as roots besides its own: the least set that has its roots,
/// these, what each of its members leads to, and the value of each WeakMap entry whose key and whose map
/// it has (ECMA-262, WeakMap Objects).
///
/// Where the copy's marks have them all, they are these marks, and nothing is followed again.
///
/// It fails where there is no memory for the marks.
pub fn mark_more(
    alloc: Global,
    snapshot: &Snapshot,
    marks: &Marks,
    more: &[Id],
) -> Result<Marks, NoMemory>
    requires marks { AreMarksOf snapshot.now marks.now }
    requires made { are_made snapshot.now.made more.now ≡ true }
    ensures least { IfOk result (AreMarksWith snapshot.now more.now) }
    ensures made { IfOk result (λ m. (i : ℕ) → is_marked m i ≡ true → IsNumbered snapshot.now.made i) }
{
    if has_all(marks, more) {
        return marks_with(snapshot, marks, more);
    }
    mark_from(alloc, snapshot, more)
}

/// The same marks again, which have these identities already.
fn marks_with(snapshot: &Snapshot, marks: &Marks, more: &[Id]) -> Result<Marks, NoMemory>
    requires marks { AreMarksOf snapshot.now marks.now }
    requires has { HasAll more.now (is_marked marks.now) }
    ensures least { IfOk result (AreMarksWith snapshot.now more.now) }
    ensures made { IfOk result (λ m. (i : ℕ) → is_marked m i ≡ true → IsNumbered snapshot.now.made i) }
{
    let _roots = snapshot.all_roots();
    marks.copy()
}

/// Whether all of them are marked.
fn has_all(marks: &Marks, ids: &[Id]) -> bool
    ensures { IsTrue result → HasAll ids.now (is_marked marks.now) }
{
    for id in ids {
        if !marks.has(*id) {
            return false;
        }
    }
    true
}

/// The marks of the copy, from its roots and these.
fn mark_from(alloc: Global, snapshot: &Snapshot, more: &[Id]) -> Result<Marks, NoMemory>
    requires { are_made snapshot.now.made more.now ≡ true }
    ensures least { IfOk result (AreMarksWith snapshot.now more.now) }
    ensures made { IfOk result (λ m. (i : ℕ) → is_marked m i ≡ true → IsNumbered snapshot.now.made i) }
{
    let mut reached = Reached::new(alloc, snapshot.made())?;
    let mut waiting = Waiting::new(alloc);
    let mut roots = Vec::new(alloc);
    roots.extend_from_slice(snapshot.all_roots())?;
    roots.extend_from_slice(more)?;
    reached.add_all(roots.as_slice())?;
    let mut found = Found::new(alloc);
    let mut followed = 0;
    'queue: while followed < reached.order.len() {
        let id = reached.order[followed];
        followed += 1;
        follow(snapshot, id, &mut reached, &mut waiting, &mut found)?;
    }
    Ok(reached.marks)
}
