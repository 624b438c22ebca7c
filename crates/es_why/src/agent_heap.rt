//! An agent's record as a heap.

ghost use Rattle.std.specs.Prelude.{◌≡◌, ◌++◌, ◌∷◌, ℕ, [], OnOk};
ghost use Rattle.es_mark.specs.Finds.{Finds, FindsEntries};
ghost use Rattle.es_why.specs.Leads.{LeadsTo};
ghost use Rattle.es_why.specs.Numbered.{pair_if, pairs_of};

use crate::roots::{add_held, add_kept, add_properties, add_registries, add_variables};
use es_mark::{Heap, Way};
use es_record::AgentRecord;
use es_value::{Id, Name, NoMemory, Value};
use std::alloc::Global;

/// An agent's record, with the names of its variables by number.
#[derive(Drop)]
pub(crate) struct AgentHeap<'a> {
    pub agent: &'a AgentRecord,
    pub names: &'a [Name],
    pub alloc: Global,
}

impl Heap for AgentHeap<'_> {
    ghost leads = { λ g. LeadsTo g.agent.now g.names.now };

    fn made(&self) -> u32 {
        let _ = self.agent.history();
        self.agent.identities()
    }

    fn roots(&self, found: &mut Vec<Way>) -> Result<(), NoMemory> {
        let _ = self.agent.history();
        add_variables(self.agent, self.names, found)?;
        add_kept(self.agent, found)?;
        add_registries(self.agent, found)?;
        add_held(self.agent, found)
    }

    fn properties(&self, object: Id, found: &mut Vec<Way>) -> Result<(), NoMemory> {
        let _ = self.agent.history();
        if !self.agent.is_there(object) {
            return Ok(());
        }
        add_properties(self.agent, object, found)
    }

    fn entries(&self, key: Id, found: &mut Vec<(Id, Id)>) -> Result<(), NoMemory> {
        let _ = self.agent.history();
        let mut all = Vec::new(self.alloc);
        self.agent.entries_under(key, &mut all)?;
        add_pairs(all.as_slice(), found)
    }
}

/// Adds WeakMap and identity of each entry whose value has one.
fn add_pairs(entries: &[(Id, Value)], found: &mut Vec<(Id, Id)>) -> Result<(), NoMemory>
    ensures { OnOk result (found.new.items ≡ found.old.items ++ pairs_of entries.now) }
{
    for entry in entries {
        add_pair(entry.0, entry.1.identity(), found)?;
    }
    Ok(())
}

/// Adds the pair with the identity, if there is one.
fn add_pair(map: Id, id: Option<Id>, found: &mut Vec<(Id, Id)>) -> Result<(), NoMemory>
    ensures { OnOk result (found.new.items ≡ found.old.items ++ pair_if map id) }
{
    if let Some(value) = id {
        found.push((map, value))?;
    }
    Ok(())
}
