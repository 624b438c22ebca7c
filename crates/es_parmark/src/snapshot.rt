//! A flat copy of a graph.

ghost use Rattle.std.specs.Prelude.{◌≡◌, ◌<◌, ◌++◌, ℕ, true, [], map, OnOk, IfOk, length, slice_index_or, IsTrue, ◌↔◌};
ghost use Rattle.es_mark.specs.Made.{is_made};
ghost use Rattle.es_parmark.specs.Snapshot.{row, targets_of, pairs_of, CopyHasRoots, CopyHasEdges, CopyHasEntries, IsCopyOf, IsSound, are_made};
ghost use Rattle.std.specs.List.{list_all};
ghost use Rattle.es_parmark.specs.Copying.{AreRows};

use crate::expanding::add_pairs;
use es_mark::{Graph, find_entries};
use es_value::{Id, NoMemory, Value};
use std::alloc::Global;
use std::marker::Model;

/// A copy of a graph in a few lists, which needs its source no more: each identity's edges stand one
/// after another, and so do its entries.
#[derive(Debug, Drop)]
pub struct Snapshot {
    made: u32,
    roots: Vec<Id>,
    ends: Vec<usize>,
    targets: Vec<Id>,
    stops: Vec<usize>,
    pairs: Vec<(Id, Id)>,
}

impl Model for Snapshot {
    ghost use Rattle.es_parmark.specs.Snapshot.{SnapshotView, IsSound};

    ghost Value = { SnapshotView };

    ghost view = { λ s. record { made = s.made; roots = s.roots.items; ends = s.ends.items; targets = s.targets.items; stops = s.stops.items; pairs = s.pairs.items } };

    ghost invariant = { λ s. IsSound (record { made = s.made; roots = s.roots.items; ends = s.ends.items; targets = s.targets.items; stops = s.stops.items; pairs = s.pairs.items }) };
}

impl Graph for Snapshot {
    ghost made_of = { λ s. s.made };

    ghost has_roots = { CopyHasRoots };

    ghost has_edges = { CopyHasEdges };

    ghost has_entries = { CopyHasEntries };

    fn made(&self) -> u32 {
        self.made
    }

    fn roots(&self, found: &mut Vec<Id>) -> Result<(), NoMemory> {
        Ok(found.extend_from_slice(self.roots.as_slice())?)
    }

    fn edges(&self, id: Id, found: &mut Vec<Id>) -> Result<(), NoMemory> {
        Ok(found.extend_from_slice(self.edges_of(id))?)
    }

    fn entries(&self, id: Id, found: &mut Vec<(Id, Value)>) -> Result<(), NoMemory> {
        add_values(self.entries_of(id), found)
    }
}

impl Snapshot {
    /// A copy of the graph. It fails where there is no memory for it or for an answer of the graph.
    pub fn of<G: Graph>(alloc: Global, graph: &G) -> Result<Snapshot, NoMemory>
        ensures { IfOk result (IsCopyOf (G.made_of graph.now) (G.has_roots graph.now) (G.has_edges graph.now) (G.has_entries graph.now)) }
    {
        let made = graph.made();
        let mut roots = Vec::new(alloc);
        graph.roots(&mut roots)?;
        let (ends, targets) = edge_rows(alloc, graph, made)?;
        let (stops, pairs) = entry_rows(alloc, graph, made)?;
        Ok(Snapshot {
            made,
            roots,
            ends,
            targets,
            stops,
            pairs,
        })
    }

    /// Whether the other is the same copy: of as many identities, with the same roots, edges and entries in
    /// the same order.
    pub fn same(&self, other: &Snapshot) -> bool
        ensures { IsTrue result ↔ (self.now ≡ other.now) }
    {
        if self.made != other.made {
            return false;
        }
        if !same_ids(self.roots.as_slice(), other.roots.as_slice()) {
            return false;
        }
        if !same_places(self.ends.as_slice(), other.ends.as_slice()) {
            return false;
        }
        if !same_ids(self.targets.as_slice(), other.targets.as_slice()) {
            return false;
        }
        if !same_places(self.stops.as_slice(), other.stops.as_slice()) {
            return false;
        }
        same_pairs(self.pairs.as_slice(), other.pairs.as_slice())
    }

    /// The roots.
    pub(crate) fn all_roots(&self) -> &[Id]
        ensures roots { result.now ≡ self.now.roots }
        ensures sound { IsSound self.now }
    {
        self.roots.as_slice()
    }

    /// What the identity leads to.
    fn edges_of(&self, id: Id) -> &[Id]
        ensures row { result.now ≡ targets_of self.now id }
        ensures made { are_made self.now.made result.now ≡ true }
    {
        row_of(self.ends.as_slice(), self.targets.as_slice(), id)
    }

    /// Map and identity of the value of each entry whose key is this identity.
    fn entries_of(&self, id: Id) -> &[(Id, Id)]
        ensures row { result.now ≡ pairs_of self.now id }
        ensures made { list_all (λ p. is_made self.now.made p.1) result.now ≡ true }
    {
        row_of(self.stops.as_slice(), self.pairs.as_slice(), id)
    }
}

/// The row of an identity, where each row ends where `ends` says.
fn row_of<'a, T>(ends: &[usize], all: &'a [T], id: Id) -> &'a [T]
    ensures { result.now ≡ row ends.now all.now id }
{
    let number = id.number() as usize;
    let start = place(ends, number - 1);
    let end = place(ends, number).min(all.len());
    if end <= start {
        return &[];
    }
    &all[start..end]
}

/// The number there, or 0.
fn place(ends: &[usize], at: usize) -> usize
    ensures { result ≡ slice_index_or ends.now at 0 }
{
    match ends.get(at) {
        Some(end) => *end,
        None => 0,
    }
}

/// The ends of each identity's edges, and all edges.
fn edge_rows<G: Graph>(
    alloc: Global,
    graph: &G,
    made: u32,
) -> Result<(Vec<usize>, Vec<Id>), NoMemory>
    requires { made ≡ G.made_of graph.now }
    ensures { IfOk result (λ r. AreRows (is_made made) (G.has_edges graph.now) (λ t i. t i ≡ true) made r.0.items r.1.items) }
{
    let mut ends = Vec::with_capacity(alloc, made as usize + 1)?;
    let mut targets = Vec::new(alloc);
    ends.push(0)?;
    for number in 0..made {
        graph.edges(Id::of(number + 1), &mut targets)?;
        ends.push(targets.len())?;
    }
    Ok((ends, targets))
}

/// The ends of each identity's entries, and all entries whose value has an identity.
fn entry_rows<G: Graph>(
    alloc: Global,
    graph: &G,
    made: u32,
) -> Result<(Vec<usize>, Vec<(Id, Id)>), NoMemory>
    requires { made ≡ G.made_of graph.now }
    ensures { IfOk result (λ r. AreRows (λ p. is_made made p.1) (G.has_entries graph.now) (λ t p. t p.0 ≡ true → t p.1 ≡ true) made r.0.items r.1.items) }
{
    let mut stops = Vec::with_capacity(alloc, made as usize + 1)?;
    let mut pairs = Vec::new(alloc);
    let mut found = Vec::new(alloc);
    stops.push(0)?;
    for number in 0..made {
        find_entries(graph, Id::of(number + 1), &mut found)?;
        add_pairs(found.as_slice(), &mut pairs)?;
        stops.push(pairs.len())?;
    }
    Ok((stops, pairs))
}

/// Adds an entry for each pair.
fn add_values(pairs: &[(Id, Id)], found: &mut Vec<(Id, Value)>) -> Result<(), NoMemory>
    ensures { OnOk result (found.new.items ≡ found.old.items ++ map (λ p. (p.0, Value.Object p.1)) pairs.now) }
{
    for pair in pairs {
        found.push((pair.0, Value::Object(pair.1)))?;
    }
    Ok(())
}

/// Whether the identities are the same, in the same order.
fn same_ids(a: &[Id], b: &[Id]) -> bool
    ensures { IsTrue result ↔ (a.now ≡ b.now) }
{
    a == b
}

/// Whether the places are the same.
fn same_places(a: &[usize], b: &[usize]) -> bool
    ensures { IsTrue result ↔ (a.now ≡ b.now) }
{
    a == b
}

/// Whether the pairs are the same, in the same order.
fn same_pairs(a: &[(Id, Id)], b: &[(Id, Id)]) -> bool
    ensures { IsTrue result ↔ (a.now ≡ b.now) }
{
    a == b
}
