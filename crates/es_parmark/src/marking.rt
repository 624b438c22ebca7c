//! Marking with helpers: what is to be followed is cut into pieces where it is much.

ghost use Rattle.std.specs.Prelude.{◌≡◌, ◌<◌, ◌≤◌, ◌+◌, ℕ, true, OnOk, IfOk, length, drop};
ghost use Rattle.es_mark.specs.Graph.{IsNumbered};
ghost use Rattle.es_mark.specs.Marks.{IsLeast, is_marked};
ghost use Rattle.es_mark.specs.Steps.{IsReady};
ghost use Rattle.es_mark.proofs.Whole.{Marking};
ghost use Rattle.es_parmark.specs.Snapshot.{AreMarksOf};
ghost use Rattle.es_parmark.specs.Gathered.{AreFollowed};

use crate::Snapshot;
use crate::entering::{add_parts, enter_parts, release};
use crate::expanding::expand_all;
use es_mark::{Found, Graph, Marks, Reached, Waiting, find_roots, follow, mark};
use es_value::NoMemory;
use std::alloc::Global;
use std::thread::Threads;

/// Where fewer identities than this are to be followed, they are followed where they stand: to start
/// threads takes as long as to follow some thousands.
const LEAST_CUT: usize = 4096;

/// The marks of the copy, found with so many helpers: the same as by `mark` (ECMA-262, WeakMap Objects).
///
/// It fails where there is no memory for the marks or for what a helper finds.
pub fn mark_parallel<R: Threads + Sync>(
    rt: &R,
    alloc: Global,
    snapshot: &Snapshot,
    helpers: u8,
) -> Result<Marks, NoMemory>
    requires { (0 < helpers) × (helpers ≤ 8) }
    ensures least { IfOk result (AreMarksOf snapshot.now) }
    ensures made { IfOk result (λ m. (i : ℕ) → is_marked m i ≡ true → IsNumbered snapshot.now.made i) }
{
    mark_with(rt, alloc, snapshot, helpers)
}

/// The least set that has the roots, what each of its members leads to, and the value of each WeakMap
/// entry whose key and whose map it has (ECMA-262, WeakMap Objects): the same marks as by `mark`, found
/// with so many helpers, which read the graph beside each other. No copy of the graph is made.
///
/// It fails where there is no memory for the marks, for an answer of the graph or for what a helper
/// finds.
pub fn mark_with<G: Graph + Sync, R: Threads + Sync>(
    rt: &R,
    alloc: Global,
    graph: &G,
    helpers: u8,
) -> Result<Marks, NoMemory>
    requires { (0 < helpers) × (helpers ≤ 8) }
    ensures least { IfOk result (λ m. IsLeast (G.has_roots graph.now) (G.has_edges graph.now) (G.has_entries graph.now) m) }
    ensures made { IfOk result (λ m. (i : ℕ) → is_marked m i ≡ true → IsNumbered (G.made_of graph.now) i) }
{
    if helpers == 1 {
        return mark(alloc, graph);
    }
    mark_cut(rt, alloc, graph, helpers)
}

/// The same, by more than one helper.
fn mark_cut<G: Graph + Sync, R: Threads + Sync>(
    rt: &R,
    alloc: Global,
    graph: &G,
    helpers: u8,
) -> Result<Marks, NoMemory>
    requires { 0 < helpers }
    ensures least { IfOk result (λ m. IsLeast (G.has_roots graph.now) (G.has_edges graph.now) (G.has_entries graph.now) m) }
    ensures made { IfOk result (λ m. (i : ℕ) → is_marked m i ≡ true → IsNumbered (G.made_of graph.now) i) }
{
    let mut reached = Reached::new(alloc, graph.made())?;
    let mut waiting = Waiting::new(alloc);
    let mut found = Found::new(alloc);
    find_roots(graph, &mut found.ids)?;
    reached.add_all(found.ids.as_slice())?;
    let mut followed = 0;
    'queue: while followed < reached.order.len() {
        followed = advance(
            rt,
            alloc,
            graph,
            helpers,
            followed,
            &mut reached,
            &mut waiting,
            &mut found,
        )?;
    }
    Ok(reached.marks)
}

/// Follows from this place of the list on: one by one where few are to be followed, and else all that the
/// list has, by helpers. The place up to which the list is followed then.
fn advance<G: Graph + Sync, R: Threads + Sync>(
    rt: &R,
    alloc: Global,
    graph: &G,
    helpers: u8,
    from: usize,
    reached: &mut Reached,
    waiting: &mut Waiting,
    found: &mut Found,
) -> Result<usize, NoMemory>
    requires some { 0 < helpers }
    requires marking { Marking (G.has_roots graph.now) (G.has_edges graph.now) (G.has_entries graph.now) (G.made_of graph.now) from reached.old.marks reached.old.order.items waiting.old }
    requires from { from < length reached.old.order.items }
    ensures next { IfOk result (λ n. from < n) }
    ensures marking { IfOk result (λ n. Marking (G.has_roots graph.now) (G.has_edges graph.now) (G.has_entries graph.now) (G.made_of graph.now) n reached.new.marks reached.new.order.items waiting.new) }
    ensures room { IfOk result (λ n. length reached.new.marks ≡ length reached.old.marks) }
{
    let next = reached.order.len();
    if next - from < LEAST_CUT {
        return follow_few(graph, from, reached, waiting, found);
    }
    spread(rt, alloc, graph, helpers, from, reached, waiting)?;
    Ok(next)
}

/// Follows the identity at this place of the list, and those after it one by one, as long as few are to be
/// followed. The place up to which the list is followed then.
#[inline(always)]
fn follow_few<G: Graph>(
    graph: &G,
    from: usize,
    reached: &mut Reached,
    waiting: &mut Waiting,
    found: &mut Found,
) -> Result<usize, NoMemory>
    requires marking { Marking (G.has_roots graph.now) (G.has_edges graph.now) (G.has_entries graph.now) (G.made_of graph.now) from reached.old.marks reached.old.order.items waiting.old }
    requires from { from < length reached.old.order.items }
    ensures next { IfOk result (λ n. from < n) }
    ensures marking { IfOk result (λ n. Marking (G.has_roots graph.now) (G.has_edges graph.now) (G.has_entries graph.now) (G.made_of graph.now) n reached.new.marks reached.new.order.items waiting.new) }
    ensures room { IfOk result (λ n. length reached.new.marks ≡ length reached.old.marks) }
{
    let mut followed = follow_next(graph, from, reached, waiting, found)?;
    'few: while followed < reached.order.len() && reached.order.len() - followed < LEAST_CUT {
        followed = follow_next(graph, followed, reached, waiting, found)?;
    }
    Ok(followed)
}

/// Follows the identity at this place of the list. The place after it.
#[inline(always)]
fn follow_next<G: Graph>(
    graph: &G,
    at: usize,
    reached: &mut Reached,
    waiting: &mut Waiting,
    found: &mut Found,
) -> Result<usize, NoMemory>
    requires marking { Marking (G.has_roots graph.now) (G.has_edges graph.now) (G.has_entries graph.now) (G.made_of graph.now) at reached.old.marks reached.old.order.items waiting.old }
    requires at { at < length reached.old.order.items }
    ensures next { IfOk result (λ n. n ≡ at + 1) }
    ensures marking { IfOk result (λ n. Marking (G.has_roots graph.now) (G.has_edges graph.now) (G.has_entries graph.now) (G.made_of graph.now) n reached.new.marks reached.new.order.items waiting.new) }
    ensures room { IfOk result (λ n. length reached.new.marks ≡ length reached.old.marks) }
{
    let id = reached.order[at];
    follow(graph, id, reached, waiting, found)?;
    Ok(at + 1)
}

/// Follows all from this place of the list on, a piece by each helper.
fn spread<G: Graph + Sync, R: Threads + Sync>(
    rt: &R,
    alloc: Global,
    graph: &G,
    helpers: u8,
    from: usize,
    reached: &mut Reached,
    waiting: &mut Waiting,
) -> Result<(), NoMemory>
    requires some { 0 < helpers }
    requires ready { IsReady (G.made_of graph.now) reached.old.marks reached.old.order.items waiting.old }
    requires from { from ≤ length reached.old.order.items }
    ensures followed { OnOk result (AreFollowed (G.made_of graph.now) (G.has_edges graph.now) (G.has_entries graph.now) (drop from reached.old.order.items) reached.old.order.items waiting.old reached.new.order.items waiting.new) }
    ensures room { OnOk result (length reached.new.marks ≡ length reached.old.marks) }
{
    let next = reached.order.len();
    let front = &reached.order[from..];
    let parts = expand_all(rt, alloc, graph, &reached.marks, front, helpers)?;
    add_parts(parts.as_slice(), reached)?;
    enter_parts(parts.as_slice(), reached, waiting)?;
    release(from, next, reached, waiting)
}
