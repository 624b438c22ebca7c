//! What pieces of a list lead to, each asked for by a helper of its own.

ghost use Rattle.std.specs.Prelude.{◌≡◌, ◌<◌, ◌++◌, ℕ, [], true, OnOk, IfOk};
ghost use Rattle.std.specs.List.{flat_map};
ghost use Rattle.es_mark.specs.Graph.{HasAll};
ghost use Rattle.es_value.specs.Values.{identity};
ghost use Rattle.es_parmark.specs.Pairs.{pairs_said, pair_before};
ghost use Rattle.es_parmark.specs.Gathered.{IsSifted, GathersIds, GathersPairs, IsPart};

use es_mark::{Found, Graph, Marks, find_edges, find_entries};
use es_value::{Id, NoMemory, Value};
use rayon::prelude::*;
use std::alloc::Global;
use std::thread::Threads;

/// What the identities of a piece lead to, but for what was marked already, and map and value of each
/// WeakMap entry with one of them as its key.
#[derive(Drop)]
pub(crate) struct Part {
    pub ids: Vec<Id>,
    pub pairs: Vec<(Id, Id)>,
}

/// What these identities lead to, each piece of them by a helper of its own: a part for each piece, in
/// order of the pieces. It fails where a list cannot grow.
pub(crate) fn expand_all<G: Graph + Sync, R: Threads + Sync>(
    rt: &R,
    alloc: Global,
    graph: &G,
    marks: &Marks,
    front: &[Id],
    helpers: u8,
) -> Result<Vec<Part>, NoMemory>
    requires { 0 < helpers }
    ensures { IfOk result (λ v. IsPart (G.made_of graph.now) marks.now (G.has_edges graph.now) (G.has_entries graph.now) front.now (flat_map (λ p. p.ids.items) v.items) (flat_map (λ p. p.pairs.items) v.items)) }
{
    let size = front.len().div_ceil(usize::from(helpers)).max(1);
    let parts: Result<Vec<Part>, NoMemory> = front
        .par_chunks(size)
        .with_min_len(1)
        .map(
            |piece: &[Id]| -> Result<Part, NoMemory>
                ensures { IfOk result (λ p. IsPart (G.made_of graph.entry.now) marks.entry.now (G.has_edges graph.entry.now) (G.has_entries graph.entry.now) piece.now p.ids.items p.pairs.items) }
            { expand(alloc, graph, marks, piece) },
        )
        .collect(rt, alloc)?;
    parts
}

/// What the identities of one piece lead to.
fn expand<G: Graph>(alloc: Global, graph: &G, marks: &Marks, piece: &[Id]) -> Result<Part, NoMemory>
    ensures { IfOk result (λ p. IsPart (G.made_of graph.now) marks.now (G.has_edges graph.now) (G.has_entries graph.now) piece.now p.ids.items p.pairs.items) }
{
    let mut found = Found::new(alloc);
    let mut part = Part {
        ids: Vec::new(alloc),
        pairs: Vec::new(alloc),
    };
    for id in piece {
        expand_one(graph, marks, *id, &mut found, &mut part)?;
    }
    Ok(part)
}

/// Adds what one identity leads to.
fn expand_one<G: Graph>(
    graph: &G,
    marks: &Marks,
    id: Id,
    found: &mut Found,
    part: &mut Part,
) -> Result<(), NoMemory>
    ensures ids { OnOk result (GathersIds (G.made_of graph.now) marks.now (G.has_edges graph.now id) part.old.ids.items part.new.ids.items) }
    ensures pairs { OnOk result (GathersPairs (G.made_of graph.now) marks.now (G.has_entries graph.now id) part.old.pairs.items part.new.pairs.items) }
{
    find_edges(graph, id, &mut found.ids)?;
    gather(found.ids.as_slice(), marks, &mut part.ids)?;
    find_entries(graph, id, &mut found.entries)?;
    add_pairs(found.entries.as_slice(), &mut part.pairs)
}

/// Adds those of the identities that are not marked.
fn gather(ids: &[Id], marks: &Marks, found: &mut Vec<Id>) -> Result<(), NoMemory>
    ensures { OnOk result (IsSifted marks.now (HasAll ids.now) found.old.items found.new.items) }
{
    for id in ids {
        gather_one(*id, marks, found)?;
    }
    Ok(())
}

/// Adds the identity, if it is not marked.
fn gather_one(id: Id, marks: &Marks, found: &mut Vec<Id>) -> Result<(), NoMemory>
    ensures { OnOk result (IsSifted marks.now (λ t. t id ≡ true) found.old.items found.new.items) }
{
    if !marks.has(id) {
        found.push(id)?;
    }
    Ok(())
}

/// Adds map and identity of each entry whose value has one.
pub(crate) fn add_pairs(entries: &[(Id, Value)], pairs: &mut Vec<(Id, Id)>) -> Result<(), NoMemory>
    ensures { OnOk result (pairs.new.items ≡ pairs.old.items ++ pairs_said entries.now) }
{
    for entry in entries {
        add_pair(entry, pairs)?;
    }
    Ok(())
}

/// Adds map and identity of the entry, if its value has one.
fn add_pair(entry: &(Id, Value), pairs: &mut Vec<(Id, Id)>) -> Result<(), NoMemory>
    ensures { OnOk result (pairs.new.items ≡ pairs.old.items ++ pair_before entry.now.0 (identity entry.now.1) []) }
{
    if let Some(id) = entry.1.identity() {
        pairs.push((entry.0, id))?;
    }
    Ok(())
}
