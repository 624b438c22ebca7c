//! The set that marking gives.

ghost use Rattle.std.specs.Prelude.{◌≡◌, ◌<◌, ℕ, true, false, length, slice_set, IfOk};
ghost use Rattle.es_mark.specs.Marks.{is_marked};

use es_value::{Id, NoMemory};
use std::alloc::Global;
use std::marker::Model;

/// A set of identities, as that of the objects and symbols that are reached from a graph's roots.
#[derive(Debug, Drop)]
pub struct Marks {
    words: Vec<u64>,
}

impl Model for Marks {
    ghost use Rattle.std.specs.Prelude.{Bool, List};
    ghost use Rattle.es_mark.specs.Bits.{bits_of};

    ghost Value = { List Bool };

    ghost view = { λ m. bits_of m.words.items };
}

impl Marks {
    /// The empty set, with room for the identities up to this one. It fails where there is no
    /// memory for it.
    pub(crate) fn new(alloc: Global, made: u32) -> Result<Marks, NoMemory>
        ensures room { IfOk result (λ m. made < length m) }
        ensures fresh { IfOk result (λ m. (i : ℕ) → is_marked m i ≡ false) }
    {
        let words = vec![in alloc; 0; made as usize / 64 + 1]?;
        Ok(Marks { words })
    }

    /// The same set again. It fails where there is no memory for it.
    pub fn copy(&self) -> Result<Marks, NoMemory>
        ensures { IfOk result (λ m. m ≡ self.now) }
    {
        let words = self.words.clone()?;
        Ok(Marks { words })
    }

    /// Whether the set has the identity.
    pub fn has(&self, id: Id) -> bool
        ensures { result ≡ is_marked self.now id }
    {
        let number = id.number() as usize;
        match self.words.get(number / 64) {
            Some(word) => (*word >> (number % 64)) & 1 == 1,
            None => false,
        }
    }

    /// Puts the identity into the set.
    pub(crate) fn mark(&mut self, id: Id)
        requires { id < length self.old }
        ensures { self.new ≡ slice_set self.old id true }
    {
        let number = id.number() as usize;
        let at = number / 64;
        self.words[at] |= 1 << (number % 64);
    }
}
