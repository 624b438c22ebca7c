//! A list of identities that is asked many times.

ghost use Rattle.std.specs.Prelude.{◌≡◌};
ghost use Rattle.es_value.specs.Ids.{is_in};

use crate::Id;
use std::marker::Model;

/// A list of identities that is asked many times which it has: by halving where it is sorted, and
/// else from its start.
#[derive(Drop)]
pub struct IdSet<'a> {
    ids: &'a [Id],
    sorted: bool,
}

impl<'a> Model for IdSet<'a> {
    ghost use Rattle.std.specs.Prelude.{◌≡◌, ℕ, List, true};
    ghost use Rattle.std.specs.List.Sorted.{IsNonDecreasing};

    ghost Value = { List ℕ };

    ghost view = { λ s. s.ids.now };

    ghost invariant = { λ s. s.sorted ≡ true → IsNonDecreasing s.ids.now };
}

impl<'a> IdSet<'a> {
    /// The identities of the list, which is read once to see whether it is sorted; it takes no memory.
    pub fn of(ids: &'a [Id]) -> IdSet<'a>
        ensures { result ≡ ids.now }
    {
        IdSet {
            ids,
            sorted: ids.is_sorted(),
        }
    }

    /// Whether the list has this identity.
    pub fn has(&self, id: Id) -> bool
        ensures { result ≡ is_in self.now id }
    {
        if self.sorted {
            self.ids.binary_search(&id).is_ok()
        } else {
            self.ids.contains(&id)
        }
    }
}
