//! What an agent reaches, and what is dead.

ghost use Rattle.std.specs.Prelude.{◌≡◌, ℕ, List, Some, true, OnOk, IfOk};
ghost use Rattle.std.specs.List.{list_all};
ghost use Rattle.es_event.specs.Identities.{made, is_there};
ghost use Rattle.es_event.specs.Jobs.{receivers};
ghost use Rattle.es_event.specs.Legal.{is_rising};
ghost use Rattle.es_event.specs.Reach.{AreDead};
ghost use Rattle.es_event.specs.History.{History};
ghost use Rattle.es_event.specs.Later.{snapshot, derefed_since};
ghost use Rattle.es_event.specs.Late.{AreLate};
ghost use Rattle.es_mark.specs.Graph.{Finds, FindsEntries};
ghost use Rattle.es_record.specs.Graph.{HasRoots, HasEdges, HasEntries, AreMarksOf, AreReached, AreLateMarks};

use super::AgentRecord;
use es_mark::{Graph, Marks, mark};
use es_value::{Id, NoMemory, Value};

/// What an agent leads to: its roots are what its variables hold, KeptAlive,
/// its registries, and what the cells in them hold; an object that is
/// there leads to what its properties hold; the value of a WeakMap's entry is led to where both its
/// WeakMap and its key are.
impl Graph for AgentRecord {
    ghost made_of = { λ b. made b.history };

    ghost has_roots = { HasRoots };

    ghost has_edges = { HasEdges };

    ghost has_entries = { HasEntries };

    fn made(&self) -> u32 {
        self.identities()
    }

    fn roots(&self, found: &mut Vec<Id>) -> Result<(), NoMemory> {
        self.add_roots(found)
    }

    fn edges(&self, id: Id, found: &mut Vec<Id>) -> Result<(), NoMemory> {
        self.add_edges(id, found)
    }

    fn entries(&self, id: Id, found: &mut Vec<(Id, Value)>) -> Result<(), NoMemory> {
        self.add_entries(id, found)
    }
}

impl AgentRecord {
    /// Marks exactly what its history reaches: all else that is there is dead. It fails for want of
    /// memory alone.
    pub fn marks(&self) -> Result<Marks, NoMemory>
        ensures reached { IfOk result (AreReached self.now) }
        ensures own { IfOk result (AreMarksOf self.now) }
    {
        mark(self.alloc, self)
    }

    fn add_roots(&self, found: &mut Vec<Id>) -> Result<(), NoMemory>
        ensures { OnOk result (Finds (made self.now.history) (HasRoots self.now) found.old.items found.new.items) }
    {
        self.tables.add_roots(found)
    }

    fn add_edges(&self, id: Id, found: &mut Vec<Id>) -> Result<(), NoMemory>
        ensures { OnOk result (Finds (made self.now.history) (HasEdges self.now id) found.old.items found.new.items) }
    {
        self.tables.add_edges(id, found)
    }

    fn add_entries(&self, key: Id, found: &mut Vec<(Id, Value)>) -> Result<(), NoMemory>
        ensures { OnOk result (FindsEntries (made self.now.history) (HasEntries self.now key) found.old.items found.new.items) }
    {
        self.tables.add_entries(key, found)
    }

    /// All that is dead, by rising identity.
    pub fn dead(&self, marks: &Marks) -> Result<Vec<Id>, NoMemory>
        requires { AreMarksOf self.now marks.now }
        ensures dead { IfOk result (λ ids. AreDead (receivers self.now.plan.jobs) self.now.history ids.items) }
        ensures there { IfOk result (λ ids. list_all (is_there self.now.history) ids.items ≡ true) }
        ensures rising { IfOk result (λ ids. is_rising ids.items ≡ true) }
    {
        self.tables.unmarked(self.alloc, marks, self.identities())
    }

    /// All that is late, by rising identity: of the identities that were made when the copy of the open later
    /// collection was taken, so many of them, those that are there and not marked.
    pub fn late(&self, marks: &Marks, copied: u32) -> Result<Vec<Id>, NoMemory>
        requires copied { (p : History) → snapshot self.now.history ≡ Some p → copied ≡ made p }
        requires marks { AreLateMarks self.now marks.now }
        ensures late { IfOk result (λ ids. (p : History) → snapshot self.now.history ≡ Some p → AreLate (receivers self.now.plan.jobs) p (derefed_since self.now.history) ids.items) }
        ensures there { IfOk result (λ ids. list_all (is_there self.now.history) ids.items ≡ true) }
        ensures rising { IfOk result (λ ids. is_rising ids.items ≡ true) }
    {
        self.tables.unmarked(self.alloc, marks, copied)
    }
}
