//! Sets of identities.

ghost use Rattle.std.specs.Prelude.{◌≡◌, ℕ, ◌<◌, ◌==◌, ◌&&◌, false, length, IfOk};
ghost use Rattle.es_why.specs.Flags.{is_set, is_this, Sets};

use es_value::{Id, NoMemory};
use std::alloc::Global;
use std::marker::Model;

/// A set of identities, as a flag for each.
#[derive(Drop)]
pub(crate) struct Flags {
    all: Vec<bool>,
}

impl Model for Flags {
    ghost use Rattle.std.specs.Prelude.{Bool, List};

    ghost Value = { List Bool };

    ghost view = { λ f. f.all.items };
}

impl Flags {
    /// The empty set, with places for the identities up to this one. It fails where there is no memory
    /// for it.
    pub(crate) fn new(alloc: Global, made: u32) -> Result<Flags, NoMemory>
        ensures room { IfOk result (λ f. made < length f) }
        ensures none { IfOk result (λ f. (i : ℕ) → is_set f i ≡ false) }
    {
        let all = vec![in alloc; false; made as usize + 1]?;
        Ok(Flags { all })
    }

    /// Whether the set has the identity.
    pub(crate) fn has(&self, id: Id) -> bool
        ensures { result ≡ is_set self.now id }
    {
        match self.all.get(id.number() as usize) {
            Some(flag) => *flag,
            None => false,
        }
    }

    /// Adds the identity, if it has a place.
    pub(crate) fn add(&mut self, id: Id)
        ensures { Sets (λ i. id == i) self.old self.new }
    {
        if let Some(flag) = self.all.get_mut(id.number() as usize) {
            *flag = true;
        }
    }

    /// Adds the identity, if there is one.
    pub(crate) fn add_if(&mut self, id: Option<Id>)
        ensures { Sets (is_this id) self.old self.new }
    {
        if let Some(id) = id {
            self.add(id);
        }
    }

    /// Adds the identity where this holds.
    pub(crate) fn add_where(&mut self, id: Id, holds: bool)
        ensures { Sets (λ i. holds && (id == i)) self.old self.new }
    {
        if holds {
            self.add(id);
        }
    }
}
