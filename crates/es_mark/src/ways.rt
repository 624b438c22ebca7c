//! The ways that are found so far.

ghost use Rattle.std.specs.Prelude.{◌≡◌, ◌<◌, ◌∷◌, ◌++◌, ◌&&◌, [], length, nat_lt, nat_le, take, IfOk, OnOk, OnErr};
ghost use Rattle.std.specs.List.{AllByRecursion};
ghost use Rattle.std.proofs.Props.{props};
ghost use Rattle.es_mark.specs.Ways.{has_way};
ghost use Rattle.es_mark.specs.Added.{AreAdded};
ghost use Rattle.es_mark.specs.Placed.{ArePlaced};

use crate::Way;
use es_value::{Id, NoMemory};
use std::alloc::Global;

/// One way to each value that is found so far, in the order in which they were found.
#[derive(Drop)]
pub struct Ways {
    pub list: Vec<Way>,
    /// By identity: the number of its way, counted from 1, and 0 where it has none.
    places: Vec<usize>,
    ghost placed: { ArePlaced list.items places.items } by { Prim.hlevel props },
}

impl Ways {
    /// No way yet, and room for the identities up to this one. It fails where there is no memory for
    /// it.
    pub(crate) fn new(alloc: Global, made: u32) -> Result<Ways, NoMemory>
        ensures room { IfOk result (λ w. made < length w.places.items) }
        ensures none { IfOk result (λ w. w.list.items ≡ []) }
    {
        let places = vec![in alloc; 0; made as usize + 1]?;
        Ok(Ways {
            list: Vec::new(alloc),
            places,
        })
    }

    /// Whether one of the first `count` ways is to this identity.
    pub(crate) fn is_among(&self, id: Id, count: usize) -> bool
        ensures { result ≡ has_way (take count self.now.list.items) id }
    {
        match self.places.get(id.number() as usize) {
            Some(place) => is_within(*place, count),
            None => false,
        }
    }

    /// Adds the ways whose values have none yet. It fails where the list cannot grow.
    pub(crate) fn add_all(&mut self, ways: &[Way]) -> Result<(), NoMemory>
        requires { AllByRecursion (λ w. w.value < length self.old.places.items) ways.now }
        ensures added { OnOk result (AreAdded ways.now self.old.list.items self.new.list.items) }
        ensures room { OnOk result (length self.new.places.items ≡ length self.old.places.items) }
    {
        for way in ways {
            self.add(way)?;
        }
        Ok(())
    }

    /// Adds the way if its value has none yet. It fails where the list cannot grow.
    pub(crate) fn add(&mut self, way: &Way) -> Result<(), NoMemory>
        requires { way.now.value < length self.old.places.items }
        ensures added { OnOk result (AreAdded (way.now ∷ []) self.old.list.items self.new.list.items) }
        ensures room { OnOk result (length self.new.places.items ≡ length self.old.places.items) }
    {
        if self.is_among(way.value, self.list.len()) {
            return Ok(());
        }
        push_copy(&mut self.list, way)?;
        let number = way.value.number() as usize;
        self.places[number] = self.list.len();
        Ok(())
    }
}

/// Puts a copy of the item last. It fails where the list cannot grow.
fn push_copy<T: Copy>(list: &mut Vec<T>, item: &T) -> Result<(), NoMemory>
    ensures ok { OnOk result (list.new.items ≡ list.old.items ++ item.now ∷ []) }
    ensures err { OnErr result (list.new.items ≡ list.old.items) }
{
    list.push(*item)?;
    Ok(())
}

/// Whether the place is one of 1 to `count`.
fn is_within(place: usize, count: usize) -> bool
    ensures { result ≡ (nat_lt 0 place && nat_le place count) }
{
    0 < place && place <= count
}
