//! What each identity is, its tag, and what is left unmarked.

ghost use Rattle.std.specs.Prelude.{◌≡◌, ◌<◌, ◌+◌, ◌++◌, ◌∷◌, ◌&&◌, ℕ, [], None, Some, IfOk, OnOk, not, is_some, length, map, if◌then◌else◌};
ghost use Rattle.std.specs.List.{filter, range_with_len};
ghost use Rattle.std.specs.Option.{option_to_list};
ghost use Rattle.es_event.specs.Identities.{is_in};
ghost use Rattle.es_mark.specs.Marks.{is_marked};
ghost use Rattle.es_tables.specs.Tags.{tag_at};

use es_mark::Marks;
use es_value::{Id, NoMemory};
use std::alloc::Global;
use std::marker::Model;

/// What an identity is.
#[derive(Clone, Copy, Debug, PartialEq, Eq)]
pub enum Tag {
    /// A symbol outside the registry.
    Symbol,
    /// An object of no other kind.
    Ordinary,
    /// A WeakRef.
    WeakRef,
    /// A WeakMap.
    WeakMap,
    /// A WeakSet.
    WeakSet,
    /// A FinalizationRegistry.
    FinalizationRegistry,
    /// A SharedArrayBuffer.
    SharedArrayBuffer,
}

/// The tag of each identity that was made, and none of those that are emptied.
#[derive(Drop)]
pub struct Tags {
    all: Vec<Option<Tag>>,
}

impl Model for Tags {
    ghost use Rattle.std.specs.Prelude.{◌-◌, vec_len, vec_capacity};
    ghost use Rattle.es_tables.specs.Tags.{TagsView};

    ghost Value = { TagsView };

    ghost view = { λ t. record { all = t.all.items; room = vec_capacity t.all - vec_len t.all } };
}

impl Tags {
    /// Nothing was made; it takes no memory.
    pub fn new(alloc: Global) -> Self
        ensures { result.all ≡ [] }
    {
        Tags {
            all: Vec::new(alloc),
        }
    }

    /// How many identities were made.
    pub fn made(&self) -> usize
        ensures { result ≡ length self.now.all }
    {
        self.all.len()
    }

    /// The identity's tag, none where it was not made or is emptied.
    pub fn of(&self, id: Id) -> Option<Tag>
        ensures tag { result ≡ tag_at self.now.all id }
        ensures positive { 0 < id }
    {
        match self.all.get(id.number() as usize - 1) {
            Some(tag) => *tag,
            None => None,
        }
    }

    /// Makes room for one more.
    pub fn reserve(&mut self) -> Result<(), NoMemory>
        ensures same { self.new.all ≡ self.old.all }
        ensures room { OnOk result (0 < self.new.room) }
    {
        self.all.reserve(1)?;
        Ok(())
    }

    /// Adds the tag of what is made under the next identity, where something is.
    pub fn add(&mut self, made: Option<Tag>)
        requires { 0 < self.old.room }
        ensures { self.new.all ≡ self.old.all ++ map Some (option_to_list made) }
    {
        if let Some(tag) = made {
            let _ = self.all.push(Some(tag));
        }
    }

    /// Takes the tags of these identities away.
    pub fn empty(&mut self, ids: &[Id])
        ensures tags { (i : ℕ) → 0 < i → tag_at self.new.all i ≡ (if is_in ids.now i then None else tag_at self.old.all i) }
        ensures made { length self.new.all ≡ length self.old.all }
    {
        for id in ids {
            if let Some(tag) = self.all.get_mut(id.number() as usize - 1) {
                *tag = None;
            }
        }
    }

    /// The identities up to this number that have a tag and are not marked, by rising number.
    pub fn unmarked(&self, alloc: Global, marks: &Marks, made: u32) -> Result<Vec<Id>, NoMemory>
        ensures { IfOk result (λ ids. ids.items ≡ filter (λ i. is_some (tag_at self.now.all i) && not (is_marked marks.now i)) (range_with_len 1 made)) }
    {
        let mut ids = Vec::new(alloc);
        for at in 0..made {
            let id = Id::of(at + 1);
            add_if(&mut ids, id, self.is_left(id, marks))?;
        }
        Ok(ids)
    }

    /// Whether the identity has a tag and is not marked.
    fn is_left(&self, id: Id, marks: &Marks) -> bool
        ensures { result ≡ (is_some (tag_at self.now.all id) && not (is_marked marks.now id)) }
    {
        self.of(id).is_some() && !marks.has(id)
    }
}

/// Adds the identity, if it is asked for.
fn add_if(ids: &mut Vec<Id>, id: Id, asked: bool) -> Result<(), NoMemory>
    ensures { OnOk result (ids.new.items ≡ ids.old.items ++ (if asked then id ∷ [] else [])) }
{
    if asked {
        ids.push(id)?;
    }
    Ok(())
}
