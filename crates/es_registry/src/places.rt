//! Places of cells, of which there is mostly one.

ghost use Rattle.std.specs.Prelude.{◌≡◌, ◌+◌, ◌<◌, ◌≤◌, ◌++◌, ◌∷◌, [], OnOk, vec_len, vec_capacity};

use es_value::NoMemory;
use std::alloc::Global;
use std::marker::Model;
use std::slice;

/// Places, in order of adding. One place takes no memory beside it.
#[derive(Drop)]
pub(crate) struct Places {
    kept: Kept,
}

/// The places as they are kept.
#[derive(Drop)]
pub(crate) enum Kept {
    /// None.
    Nothing,
    /// One.
    One(usize),
    /// As many as there are, in a list of their own: most tokens have one place, and take no more for it.
    Many(Box<Vec<usize>>),
}

impl Model for Places {
    ghost use Rattle.es_registry.specs.Places.{PlacesView, listing_of};

    ghost Value = { PlacesView };

    ghost view = { λ p. listing_of p.kept };
}

impl Places {
    /// No place; it takes no memory.
    pub(crate) fn none() -> Places
        ensures { result ≡ record { items = []; room = 1 } }
    {
        Places {
            kept: Kept::Nothing,
        }
    }

    /// All of them, in order.
    pub(crate) fn as_slice(&self) -> &[usize]
        ensures { result.now ≡ self.now.items }
    {
        match &self.kept {
            Kept::Nothing => &[],
            Kept::One(place) => slice::from_ref(place),
            Kept::Many(places) => places.as_slice(),
        }
    }

    /// Makes room for one more.
    pub(crate) fn reserve(&mut self, alloc: Global) -> Result<(), NoMemory>
        ensures same { self.new.items ≡ self.old.items }
        ensures room { OnOk result (0 < self.new.room) }
    {
        match &mut self.kept {
            Kept::Nothing => Ok(()),
            Kept::One(place) => {
                let first = *place;
                let mut places = Vec::with_capacity(alloc, 2)?;
                push(&mut places, first);
                self.kept = Kept::Many(Box::new(alloc, places)?);
                Ok(())
            }
            Kept::Many(places) => {
                places.reserve(1)?;
                Ok(())
            }
        }
    }

    /// Adds a place at the end, where there is room for it.
    pub(crate) fn push(&mut self, place: usize)
        requires { 0 < self.old.room }
        ensures { self.new.items ≡ self.old.items ++ place ∷ [] }
    {
        match &mut self.kept {
            Kept::Nothing => self.kept = Kept::One(place),
            Kept::One(_) => unreachable!(),
            Kept::Many(places) => push(places, place),
        }
    }
}

/// Adds an item at the end, where there is room for it.
pub(crate) fn push<T: Drop>(items: &mut Vec<T>, item: T)
    requires { vec_len items.old < vec_capacity items.old }
    ensures items { items.new.items ≡ items.old.items ++ item ∷ [] }
    ensures len { vec_len items.new ≡ vec_len items.old + 1 }
    ensures capacity { vec_capacity items.old ≤ vec_capacity items.new }
{
    let _ = items.push(item);
}
