//! Values of entries whose map is not marked yet.

ghost use Rattle.std.specs.Prelude.{◌≡◌, ◌++◌, ◌∷◌, ℕ, [], OnOk, IsTrue};
ghost use Rattle.es_mark.specs.Waiting.{waiting_for, Waits};

use es_value::{Id, NoMemory};
use std::alloc::Global;
use std::collections::HashMap;
use std::marker::Model;

/// For each map the values that wait for it to be marked.
#[derive(Drop)]
pub struct Waiting {
    alloc: Global,
    lists: HashMap<Id, Vec<Id>>,
}

impl Model for Waiting {
    ghost use Rattle.std.specs.Prelude.{map};
    ghost use Rattle.es_mark.specs.Waiting.{WaitingView};

    ghost Value = { WaitingView };

    ghost view = { λ w. map (λ e. (e.0, e.1.items)) w.lists.entries };
}

impl Waiting {
    /// Nothing waits; it takes no memory.
    #[tactic(auto, using(crate::proofs::Queues::waiting_of))]
    pub fn new(alloc: Global) -> Waiting
        ensures { (m : ℕ) → waiting_for result m ≡ [] }
    {
        Waiting {
            alloc,
            lists: HashMap::new(alloc),
        }
    }

    /// Whether nothing waits.
    #[inline(always)]
    #[tactic(auto, using(crate::proofs::Queues::waiting_of))]
    pub fn is_empty(&self) -> bool
        ensures { IsTrue result → (m : ℕ) → waiting_for self.now m ≡ [] }
    {
        self.lists.is_empty()
    }

    /// What waits for the map.
    #[inline(always)]
    #[tactic(auto, using(crate::proofs::Queues::waiting_of))]
    pub fn at(&self, map: Id) -> &[Id]
        ensures { result.now ≡ waiting_for self.now map }
    {
        match self.lists.get(&map) {
            Some(list) => list.as_slice(),
            None => &[],
        }
    }

    /// Lets the value wait for the map. It fails where the map's list cannot grow.
    #[tactic(auto, using(crate::proofs::Queues::waiting_of))]
    pub fn add(&mut self, map: Id, value: Id) -> Result<(), NoMemory>
        ensures { OnOk result (Waits self.old map value self.new) }
    {
        let Some(list) = self.lists.get_mut(&map) else {
            return self.start(map, value);
        };
        put(list, value)
    }

    /// Lets the value wait for a map that none waited for.
    #[tactic(auto, using(crate::proofs::Queues::waiting_of))]
    fn start(&mut self, map: Id, value: Id) -> Result<(), NoMemory>
        requires { waiting_for self.old map ≡ [] }
        ensures { OnOk result (Waits self.old map value self.new) }
    {
        let mut list = Vec::new(self.alloc);
        put(&mut list, value)?;
        self.lists.insert(map, list)?;
        Ok(())
    }
}

/// Puts the value last.
fn put(list: &mut Vec<Id>, value: Id) -> Result<(), NoMemory>
    ensures { OnOk result (list.new.items ≡ list.old.items ++ value ∷ []) }
{
    Ok(list.push(value)?)
}
