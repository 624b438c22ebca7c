//! Entries whose WeakMap is not followed yet.

ghost use Rattle.std.specs.Prelude.{◌≡◌, ◌++◌, ◌∷◌, ℕ, [], OnOk};
ghost use Rattle.es_mark.specs.WaitingEntries.{waiting_for, Waits};

use es_value::{Id, NoMemory};
use std::alloc::Global;
use std::collections::HashMap;
use std::marker::Model;

/// For each WeakMap the keys and values of entries that wait for it to be followed.
#[derive(Drop)]
pub(crate) struct WaitingEntries {
    alloc: Global,
    lists: HashMap<Id, Vec<(Id, Id)>>,
}

impl Model for WaitingEntries {
    ghost use Rattle.std.specs.Prelude.{map};
    ghost use Rattle.es_mark.specs.WaitingEntries.{WaitingEntriesView};

    ghost Value = { WaitingEntriesView };

    ghost view = { λ w. map (λ e. (e.0, e.1.items)) w.lists.entries };
}

impl WaitingEntries {
    /// Nothing waits; it takes no memory.
    #[tactic(auto, using(crate::proofs::EntryQueues::waiting_of))]
    pub(crate) fn new(alloc: Global) -> WaitingEntries
        ensures { (m : ℕ) → waiting_for result m ≡ [] }
    {
        WaitingEntries {
            alloc,
            lists: HashMap::new(alloc),
        }
    }

    /// Key and value of each entry that waits for the WeakMap.
    #[tactic(auto, using(crate::proofs::EntryQueues::waiting_of))]
    pub(crate) fn at(&self, map: Id) -> &[(Id, Id)]
        ensures { result.now ≡ waiting_for self.now map }
    {
        match self.lists.get(&map) {
            Some(list) => list.as_slice(),
            None => &[],
        }
    }

    /// Lets an entry wait for its WeakMap. It fails where the WeakMap's list cannot grow.
    #[tactic(auto, using(crate::proofs::EntryQueues::waiting_of))]
    pub(crate) fn add(&mut self, map: Id, key: Id, value: Id) -> Result<(), NoMemory>
        ensures { OnOk result (Waits self.old map (key, value) self.new) }
    {
        let Some(list) = self.lists.get_mut(&map) else {
            return self.start(map, key, value);
        };
        put(list, (key, value))
    }

    /// Lets an entry wait for a WeakMap that none waited for.
    #[tactic(auto, using(crate::proofs::EntryQueues::waiting_of))]
    fn start(&mut self, map: Id, key: Id, value: Id) -> Result<(), NoMemory>
        requires { waiting_for self.old map ≡ [] }
        ensures { OnOk result (Waits self.old map (key, value) self.new) }
    {
        let mut list = Vec::new(self.alloc);
        put(&mut list, (key, value))?;
        self.lists.insert(map, list)?;
        Ok(())
    }
}

/// Puts the entry last.
fn put(list: &mut Vec<(Id, Id)>, entry: (Id, Id)) -> Result<(), NoMemory>
    ensures { OnOk result (list.new.items ≡ list.old.items ++ entry ∷ []) }
{
    Ok(list.push(entry)?)
}
