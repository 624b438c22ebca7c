//! The table of WeakRefs, and KeptAlive.

ghost use Rattle.std.specs.Prelude.{◌≡◌, ◌<◌, ◌+◌, ◌≤◌, ◌++◌, ◌∷◌, [], OnOk, OnErr, IsOk, None};
ghost use Rattle.es_weakref.specs.WeakRefs.{target as target_of, Aims, SameTargets, Empties};

use es_value::{Id, IdSet, NoMemory};
use std::alloc::Global;
use std::collections::HashMap;
use std::marker::Model;

/// The targets of WeakRefs, and KeptAlive, the list of targets that stay until the job ends
/// (ECMA-262, WeakRef Objects; AddToKeptObjects; ClearKeptObjects).
#[derive(Drop)]
pub struct WeakRefs {
    targets: HashMap<Id, Id>,
    kept: Vec<Id>,
}

impl Model for WeakRefs {
    ghost use Rattle.std.specs.Prelude.{◌-◌, vec_len, vec_capacity};
    ghost use Rattle.std.specs.HashMap.{spare};
    ghost use Rattle.es_weakref.specs.WeakRefs.{WeakRefsView};

    ghost Value = { WeakRefsView };

    ghost view = { λ w. record {
      targets = w.targets.entries;
      kept = w.kept.items;
      target_room = spare w.targets;
      kept_room = vec_capacity w.kept - vec_len w.kept;
    } };
}

impl WeakRefs {
    /// No WeakRefs, and nothing kept; it takes no memory.
    pub fn new(alloc: Global) -> WeakRefs
        ensures targets { result.targets ≡ [] }
        ensures kept { result.kept ≡ [] }
    {
        WeakRefs {
            targets: HashMap::new(alloc),
            kept: Vec::new(alloc),
        }
    }

    /// Makes room, so that the next `make` and the next `keep` succeed.
    pub fn reserve(&mut self) -> Result<(), NoMemory>
        ensures targets { SameTargets self.old self.new }
        ensures kept { self.new.kept ≡ self.old.kept }
        ensures target_room { OnOk result (0 < self.new.target_room) }
        ensures kept_room { OnOk result (0 < self.new.kept_room) }
    {
        self.targets.reserve(1)?;
        self.kept.reserve(1)?;
        Ok(())
    }

    /// Adds a WeakRef with its target.
    #[tactic(auto, using(crate::proofs::Found::found_is_lookup))]
    pub fn make(&mut self, weakref: Id, target: Id) -> Result<(), NoMemory>
        requires { target_of self.old weakref ≡ None }
        ensures ok { OnOk result (Aims self.old weakref target self.new) }
        ensures err { OnErr result (SameTargets self.old self.new) }
        ensures kept { self.new.kept ≡ self.old.kept }
        ensures kept_room { self.new.kept_room ≡ self.old.kept_room }
        ensures succeeds { 0 < self.old.target_room → IsOk result }
    {
        self.targets.insert(weakref, target)?;
        Ok(())
    }

    /// The target of a WeakRef, if it has not been emptied (WeakRefDeref).
    #[tactic(auto, using(crate::proofs::Found::found_is_lookup))]
    pub fn target(&self, weakref: Id) -> Option<Id>
        ensures { result ≡ target_of self.now weakref }
    {
        self.targets.get(&weakref).copied()
    }

    /// Adds a value to KeptAlive (AddToKeptObjects).
    pub fn keep(&mut self, id: Id) -> Result<(), NoMemory>
        ensures ok { OnOk result (self.new.kept ≡ self.old.kept ++ id ∷ []) }
        ensures err { OnErr result (self.new.kept ≡ self.old.kept) }
        ensures targets { SameTargets self.old self.new }
        ensures target_room { self.new.target_room ≡ self.old.target_room }
        ensures succeeds { 0 < self.old.kept_room → IsOk result }
    {
        self.kept.push(id)?;
        Ok(())
    }

    /// Empties KeptAlive (ClearKeptObjects).
    pub fn clear_kept(&mut self)
        ensures kept { self.new.kept ≡ [] }
        ensures targets { SameTargets self.old self.new }
        ensures target_room { self.new.target_room ≡ self.old.target_room }
        ensures kept_room { self.old.kept_room ≤ self.new.kept_room }
    {
        self.kept.clear();
    }

    /// KeptAlive, in order of keeping.
    pub fn kept(&self) -> &[Id]
        ensures { result.now ≡ self.now.kept }
    {
        self.kept.as_slice()
    }

    /// Empties every WeakRef whose target is named, and drops the WeakRefs that are themselves named
    /// (ECMA-262, Execution); it takes no memory, and KeptAlive stays as it is.
    pub fn empty(&mut self, ids: &[Id])
        ensures targets { Empties self.old ids.now self.new }
        ensures kept { self.new.kept ≡ self.old.kept }
        ensures target_room { self.old.target_room ≤ self.new.target_room }
        ensures kept_room { self.new.kept_room ≡ self.old.kept_room }
    {
        let named = IdSet::of(ids);
        self.targets.retain(|weakref, target| !named.has(*weakref) && !named.has(*target));
    }
}
