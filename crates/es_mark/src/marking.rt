//! Marking by a work list: each marked identity is followed once.

ghost use Rattle.std.specs.Prelude.{◌≡◌, ◌<◌, ◌∷◌, ℕ, true, [], length, nat_lt, OnOk, IfOk};
ghost use Rattle.std.specs.List.{AllByRecursion};
ghost use Rattle.es_mark.specs.Graph.{HasValue, HasValues, IsNumbered, Finds, FindsEntries};
ghost use Rattle.es_mark.specs.Marks.{IsLeast, is_marked};
ghost use Rattle.es_mark.specs.Steps.{IsStep, IsReady, IsFollowed};

use crate::reached::Reached;
use crate::waiting::Waiting;
use crate::{Graph, Marks};
use es_value::{Id, NoMemory, Value};
use std::alloc::Global;

/// What the graph answered last, kept so that its memory serves the next question too.
#[derive(Drop)]
pub struct Found {
    /// Roots, or what an identity leads to.
    pub ids: Vec<Id>,
    /// Map and value of each entry with an identity as its key.
    pub entries: Vec<(Id, Value)>,
}

impl Found {
    /// Nothing was asked yet; it takes no memory.
    pub fn new(alloc: Global) -> Found {
        Found {
            ids: Vec::new(alloc),
            entries: Vec::new(alloc),
        }
    }
}

/// The least set that has the roots, what each of its members leads to, and the value of each
/// WeakMap entry whose key and whose map it has (ECMA-262, WeakMap Objects).
///
/// Each identity that it has is followed once, so the graph is asked for its edges and for its
/// entries at most once.
///
/// It fails where there is no memory for the marks or for an answer of the graph.
pub fn mark<G: Graph>(alloc: Global, graph: &G) -> Result<Marks, NoMemory>
    ensures least { IfOk result (λ m. IsLeast (G.has_roots graph.now) (G.has_edges graph.now) (G.has_entries graph.now) m) }
    ensures made { IfOk result (λ m. (i : ℕ) → is_marked m i ≡ true → IsNumbered (G.made_of graph.now) i) }
{
    let mut reached = Reached::new(alloc, graph.made())?;
    let mut waiting = Waiting::new(alloc);
    let mut found = Found::new(alloc);
    find_roots(graph, &mut found.ids)?;
    reached.add_all(found.ids.as_slice())?;
    let mut followed = 0;
    'queue: while followed < reached.order.len() {
        let id = reached.order[followed];
        followed += 1;
        follow(graph, id, &mut reached, &mut waiting, &mut found)?;
    }
    Ok(reached.marks)
}

/// Marks what the identity leads to, the value of each entry with it as the key whose map is
/// marked, and what waited for it.
///
/// It fails where there is no memory for the list of what is marked, for what waits or for an answer
/// of the graph.
#[inline(always)]
pub fn follow<G: Graph>(
    graph: &G,
    id: Id,
    reached: &mut Reached,
    waiting: &mut Waiting,
    found: &mut Found,
) -> Result<(), NoMemory>
    requires ready { IsReady (G.made_of graph.now) reached.old.marks reached.old.order.items waiting.old }
    requires marked { is_marked reached.old.marks id ≡ true }
    ensures followed { OnOk result (IsFollowed (G.made_of graph.now) (G.has_edges graph.now) (G.has_entries graph.now) id reached.old.order.items waiting.old reached.new.order.items waiting.new) }
    ensures room { OnOk result (length reached.new.marks ≡ length reached.old.marks) }
{
    find_edges(graph, id, &mut found.ids)?;
    reached.add_all(found.ids.as_slice())?;
    find_entries(graph, id, &mut found.entries)?;
    enter_all(found.entries.as_slice(), reached, waiting)?;
    reached.add_all(waiting.at(id))
}

/// Marks the value of each entry whose map is marked, and lets the others wait for their maps if
/// they are not marked yet.
#[inline(always)]
fn enter_all(
    entries: &[(Id, Value)],
    reached: &mut Reached,
    waiting: &mut Waiting,
) -> Result<(), NoMemory>
    requires { AllByRecursion (λ e. HasValue (λ i. nat_lt i (length reached.old.marks)) e.1) entries.now }
    ensures step { OnOk result (IsStep (HasValues entries.now) reached.old.order.items waiting.old reached.new.order.items waiting.new) }
    ensures room { OnOk result (length reached.new.marks ≡ length reached.old.marks) }
{
    for entry in entries {
        enter(entry, reached, waiting)?;
    }
    Ok(())
}

/// Marks the value of the entry if its map is marked, and lets it wait for the map otherwise. A
/// value that is marked already need not wait.
fn enter(entry: &(Id, Value), reached: &mut Reached, waiting: &mut Waiting) -> Result<(), NoMemory>
    requires { HasValue (λ i. nat_lt i (length reached.old.marks)) entry.now.1 }
    ensures step { OnOk result (IsStep (HasValues (entry.now ∷ [])) reached.old.order.items waiting.old reached.new.order.items waiting.new) }
    ensures room { OnOk result (length reached.new.marks ≡ length reached.old.marks) }
{
    let Some(id) = entry.1.identity() else {
        return Ok(());
    };
    if reached.marks.has(entry.0) {
        return reached.add(id);
    }
    if reached.marks.has(id) {
        return Ok(());
    }
    waiting.add(entry.0, id)
}

/// Puts the roots into `found`, in place of what it had. It fails where
/// `found` cannot grow.
pub fn find_roots<G: Graph>(graph: &G, found: &mut Vec<Id>) -> Result<(), NoMemory>
    ensures { OnOk result (Finds (G.made_of graph.now) (G.has_roots graph.now) [] found.new.items) }
{
    found.clear();
    graph.roots(found)
}

/// Puts what the identity leads to into `found`, in place of what it had. It fails where
/// `found` cannot grow.
#[inline(always)]
pub fn find_edges<G: Graph>(graph: &G, id: Id, found: &mut Vec<Id>) -> Result<(), NoMemory>
    ensures { OnOk result (Finds (G.made_of graph.now) (G.has_edges graph.now id) [] found.new.items) }
{
    found.clear();
    graph.edges(id, found)
}

/// Puts the entries with the identity as their key into `found`, in place of what it had. It fails where
/// `found` cannot grow.
#[inline(always)]
pub fn find_entries<G: Graph>(
    graph: &G,
    id: Id,
    found: &mut Vec<(Id, Value)>,
) -> Result<(), NoMemory>
    ensures { OnOk result (FindsEntries (G.made_of graph.now) (G.has_entries graph.now id) [] found.new.items) }
{
    found.clear();
    graph.entries(id, found)
}
