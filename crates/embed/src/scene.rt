//! A graph of the engine's own, marked.

ghost use Rattle.std.specs.Prelude.{◌≡◌, ⊤, IfOk, OnOk};
ghost use Rattle.es_mark.specs.Graph.{HasAll, Finds};
ghost use Rattle.es_mark.specs.Made.{is_made};
ghost use Rattle.es_mark.specs.Marks.{IsLeast};
ghost use Rattle.embed.specs.Scene.{leads_to};

use es_mark::{Graph, Marks, mark};
use es_value::{Id, NoMemory, Value};
use std::alloc::Global;

/// Nodes, numbered from 1, and links between them. A link from 0 makes its end a root, and a link to a
/// node that was not made counts for nothing.
#[derive(Debug, Drop)]
pub struct Scene {
    pub made: u32,
    pub links: Vec<(u32, u32)>,
}

impl Scene {
    /// Adds where the links from `start` lead.
    fn add_ends(&self, start: u32, found: &mut Vec<Id>) -> Result<(), NoMemory>
        ensures { OnOk result (Finds self.now.made (HasAll (leads_to self.now.made self.now.links.items start)) found.old.items found.new.items) }
    {
        for (from, to) in self.links.as_slice() {
            if *from == start && self.was_made(*to) {
                found.push(Id::of(*to))?;
            }
        }
        Ok(())
    }

    /// Whether the node was made.
    fn was_made(&self, number: u32) -> bool
        ensures { result ≡ is_made self.now.made number }
    {
        0 < number && number <= self.made
    }
}

impl Graph for Scene {
    ghost made_of = { λ s. s.made };

    ghost has_roots = { λ s. HasAll (leads_to s.made s.links.items 0) };

    ghost has_edges = { λ s i. HasAll (leads_to s.made s.links.items i) };

    ghost has_entries = { λ s i t. ⊤ };

    fn made(&self) -> u32 {
        self.made
    }

    fn roots(&self, found: &mut Vec<Id>) -> Result<(), NoMemory> {
        self.add_ends(0, found)
    }

    fn edges(&self, id: Id, found: &mut Vec<Id>) -> Result<(), NoMemory> {
        self.add_ends(id.number(), found)
    }

    fn entries(&self, _id: Id, _found: &mut Vec<(Id, Value)>) -> Result<(), NoMemory> {
        Ok(())
    }
}

/// The least set of nodes that has the roots, and where the links of its members lead.
pub fn mark_scene(alloc: Global, scene: &Scene) -> Result<Marks, NoMemory>
    ensures { IfOk result (IsLeast (HasAll (leads_to scene.now.made scene.now.links.items 0)) (λ i. HasAll (leads_to scene.now.made scene.now.links.items i)) (λ k t. ⊤)) }
{
    mark(alloc, scene)
}
