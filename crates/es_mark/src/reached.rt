//! What is marked so far, in the order of marking.

ghost use Rattle.std.specs.Prelude.{◌≡◌, ◌<◌, ◌∷◌, ℕ, [], length, IfOk, OnOk};
ghost use Rattle.std.proofs.Props.{props};
ghost use Rattle.std.specs.List.{AllByRecursion};
ghost use Rattle.es_mark.specs.Listed.{IsListed, IsAdded};

use crate::Marks;
use es_value::{Id, NoMemory};
use std::alloc::Global;

/// The marked identities, each once, in the order in which they were marked.
#[derive(Drop)]
pub struct Reached {
    pub marks: Marks,
    pub order: Vec<Id>,
    ghost listed: { IsListed marks order.items } by { Prim.hlevel props },
}

impl Reached {
    /// Nothing is marked yet, and there is room for the identities up to this one. It fails where
    /// there is no memory for the marks.
    pub fn new(alloc: Global, made: u32) -> Result<Reached, NoMemory>
        ensures room { IfOk result (λ r. made < length r.marks) }
        ensures none { IfOk result (λ r. r.order.items ≡ []) }
    {
        let marks = Marks::new(alloc, made)?;
        Ok(Reached {
            marks,
            order: Vec::new(alloc),
        })
    }

    /// Marks all of them. It fails where the list cannot grow.
    #[inline(always)]
    pub fn add_all(&mut self, ids: &[Id]) -> Result<(), NoMemory>
        requires { AllByRecursion (λ i. i < length self.old.marks) ids.now }
        ensures added { OnOk result (IsAdded ids.now self.old.order.items self.new.order.items) }
        ensures room { OnOk result (length self.new.marks ≡ length self.old.marks) }
    {
        for id in ids {
            self.add(*id)?;
        }
        Ok(())
    }

    /// Marks the identity. It fails where the list cannot grow.
    #[inline(always)]
    pub fn add(&mut self, id: Id) -> Result<(), NoMemory>
        requires { id < length self.old.marks }
        ensures added { OnOk result (IsAdded (id ∷ []) self.old.order.items self.new.order.items) }
        ensures room { OnOk result (length self.new.marks ≡ length self.old.marks) }
    {
        if !self.marks.has(id) {
            self.order.push(id)?;
            self.marks.mark(id);
        }
        Ok(())
    }
}
