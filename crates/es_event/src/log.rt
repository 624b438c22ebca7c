//! A list of events that has room for more.

ghost use Rattle.std.specs.Prelude.{◌≡◌, ◌+◌, ◌<◌, ◌≤◌, ◌∷◌, [], reverse, OnOk};

use crate::Sequence;
use es_value::NoMemory;
use std::alloc::Global;
use std::marker::Model;

/// Events in order of happening, with room for more. Contracts see the events, the newest first, and
/// for how many more there is room.
pub struct Log<E> {
    all: Vec<E>,
}

impl<E: Drop> Drop for Log<E> {
    #[inline]
    fn drop(self) {
        let Log { all: _ } = self;
    }
}

impl<E> Model for Log<E> {
    ghost use Rattle.std.specs.Prelude.{◌-◌, reverse, vec_len, vec_capacity};
    ghost use Rattle.es_event.specs.Log.{LogView};

    ghost Value = { LogView E };

    ghost view = { λ l. record { events = reverse l.all.items; room = vec_capacity l.all - vec_len l.all } };
}

impl<E> Log<E> {
    /// The log without events; it takes no memory.
    pub fn new(alloc: Global) -> Self
        ensures { result.events ≡ [] }
    {
        Log {
            all: Vec::new(alloc),
        }
    }

    /// Makes room for so many more events; where there is no memory nothing is lost.
    pub fn reserve(&mut self, more: usize) -> Result<(), NoMemory>
        ensures same { self.new.events ≡ self.old.events }
        ensures kept { self.old.room ≤ self.new.room }
        ensures room { OnOk result (more ≤ self.new.room) }
    {
        self.all.reserve(more)?;
        Ok(())
    }

    /// The events, the oldest first.
    pub fn as_slice(&self) -> &[E]
        ensures { reverse result.now ≡ self.now.events }
    {
        self.all.as_slice()
    }

    /// The events, the oldest first; it takes no memory.
    pub fn into_sequence(self) -> Sequence<E>
        ensures { reverse result ≡ self.events }
    {
        let Log { all } = self;
        Sequence::from_vec(all)
    }
}

impl<E: Drop> Log<E> {
    /// Adds an event, for which there is room; it takes no memory.
    #[inline(always)]
    pub fn append(&mut self, event: E)
        requires { 0 < self.old.room }
        ensures events { self.new.events ≡ event ∷ self.old.events }
        ensures room { self.old.room ≤ self.new.room + 1 }
    {
        self.all.push_reserved(event);
    }
}
