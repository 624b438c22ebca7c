//! The properties of an object that has few.

ghost use Rattle.std.specs.Prelude.{◌≡◌, ◌<◌, ◌≤◌, ◌++◌, ◌+◌, ◌∷◌, [], true, None, set, remove, slice_index_or, vec_len, vec_capacity, nat_lt, IfOk, OnOk, OnErr, IfSome, IfNone, is_some};
ghost use Rattle.std.specs.List.{IsDistinct, flat_map};
ghost use Rattle.std.specs.Option.{option_copied, option_to_list};
ghost use Rattle.std.specs.Str.{bytes_eq};
ghost use Rattle.es_value.specs.Values.{identity};
ghost use Rattle.es_props.specs.Heap.{value_at, keys_of, with_property, without_property};
ghost use Rattle.es_props.specs.Few.{IsPlace};

use es_value::{Id, Name, NoMemory, Value};
use std::alloc::Global;
use std::marker::Model;

/// The properties of an object that has few, in order of creation, looked through from the first. It
/// grows from two places on, where a table begins with nine.
#[derive(Drop)]
pub(crate) struct Few {
    entries: Vec<(Name, Value)>,
}

impl Model for Few {
    ghost use Rattle.std.specs.Prelude.{◌-◌, vec_len, vec_capacity};
    ghost use Rattle.std.specs.List.{IsDistinct};
    ghost use Rattle.std.specs.Str.{bytes_eq};
    ghost use Rattle.es_props.specs.Heap.{keys_of};
    ghost use Rattle.es_props.specs.Few.{FewView};

    ghost Value = { FewView };

    ghost view = { λ f. record { entries = f.entries.items; room = vec_capacity f.entries - vec_len f.entries } };

    ghost invariant = { λ f. IsDistinct bytes_eq (keys_of f.entries.items) };
}

impl Few {
    /// This property alone, with room for one more.
    pub(crate) fn new(alloc: Global, first: &(Name, Value)) -> Result<Few, NoMemory>
        ensures first { IfOk result (λ f. f.entries ≡ first.now ∷ []) }
        ensures room { IfOk result (λ f. 0 < f.room) }
    {
        let value = first.1.copy()?;
        let mut entries = Vec::with_capacity(alloc, 2)?;
        push_reserved(&mut entries, first.0.copy()?, value);
        Ok(Few { entries })
    }

    /// The properties, in order of creation; no key stands twice.
    pub(crate) fn entries(&self) -> &[(Name, Value)]
        ensures same { result.now ≡ self.now.entries }
        ensures distinct { IsDistinct bytes_eq (keys_of self.now.entries) }
    {
        self.entries.as_slice()
    }

    /// Whether there is room for one more property.
    pub(crate) fn has_room(&self) -> bool
        ensures { result ≡ nat_lt 0 self.now.room }
    {
        self.entries.len() < self.entries.capacity()
    }

    /// Makes room for one more property.
    pub(crate) fn reserve(&mut self) -> Result<(), NoMemory>
        ensures same { self.new.entries ≡ self.old.entries }
        ensures more { self.old.room ≤ self.new.room }
        ensures room { OnOk result (0 < self.new.room) }
    {
        self.entries.reserve(1)?;
        Ok(())
    }

    /// Sets a property, where there is room for one more: a key that is there keeps its place, and a
    /// new one goes last.
    pub(crate) fn put(&mut self, key: Name, value: Value)
        requires { 0 < self.old.room }
        ensures { self.new.entries ≡ with_property self.old.entries key value }
    {
        match self.place(&key) {
            Some(at) => replace_at(&mut self.entries, at, value),
            None => push_reserved(&mut self.entries, key, value),
        }
    }

    /// Takes a property out, and leaves the others in their order; whether it was there.
    pub(crate) fn take_out(&mut self, key: &Name) -> bool
        ensures was_there { result ≡ is_some (value_at self.old.entries key.now) }
        ensures after { self.new.entries ≡ without_property self.old.entries key.now }
        ensures room { self.old.room ≤ self.new.room }
    {
        match self.place(key) {
            Some(at) => {
                remove_at(&mut self.entries, at);
                true
            }
            None => false,
        }
    }

    /// The value under a key, if it is there.
    pub(crate) fn get(&self, key: &Name) -> Option<&Value>
        ensures { option_copied result ≡ value_at self.now.entries key.now }
    {
        match self.place(key) {
            Some(at) => Some(&self.entries[at].1),
            None => None,
        }
    }

    /// The keys, in order of creation.
    pub(crate) fn keys(&self, alloc: Global) -> Result<Vec<Name>, NoMemory>
        ensures { IfOk result (λ ks. ks.items ≡ keys_of self.now.entries) }
    {
        let mut keys = Vec::with_capacity(alloc, self.entries.len())?;
        for (key, _) in &self.entries {
            keys.push(key.copy()?)?;
        }
        Ok(keys)
    }

    /// Adds the identities that the values have to `found`, in order.
    pub(crate) fn add_identities(&self, found: &mut Vec<Id>) -> Result<(), NoMemory>
        ensures ok { OnOk result (found.new.items ≡ found.old.items ++ flat_map (λ p. option_to_list (identity p.1)) self.now.entries) }
        ensures err { OnErr result (found.new.items ≡ found.old.items) }
        ensures distinct { OnOk result (IsDistinct bytes_eq (keys_of self.now.entries)) }
    {
        found.reserve(self.entries.len())?;
        for (_, value) in &self.entries {
            if let Some(edge) = value.identity() {
                found.push(edge)?;
            }
        }
        Ok(())
    }

    /// The place of a key, counted from 0.
    fn place(&self, key: &Name) -> Option<usize>
        ensures there { IfSome result (IsPlace self.now.entries key.now) }
        ensures absent { IfNone result (value_at self.now.entries key.now ≡ None) }
    {
        for at in 0..self.entries.len() {
            if self.entries[at].0 == *key {
                return Some(at);
            }
        }
        None
    }
}

/// Puts another value in the place of an entry's own.
fn replace_at<K, V: Drop>(entries: &mut Vec<(K, V)>, at: usize, value: V)
    requires { at < vec_len entries.old }
    ensures items { (d : K × V) → entries.new.items ≡ set entries.old.items at ((slice_index_or entries.old.items at d).0, value) }
{
    entries[at].1 = value;
}

/// Takes an entry out, and leaves the others in their order.
fn remove_at<K: Drop, V: Drop>(entries: &mut Vec<(K, V)>, at: usize)
    requires { at < vec_len entries.old }
    ensures items { entries.new.items ≡ remove entries.old.items at }
    ensures len { vec_len entries.new ≤ vec_len entries.old }
    ensures capacity { vec_capacity entries.old ≤ vec_capacity entries.new }
{
    entries.remove(at);
}

/// Adds an entry where there is room for it.
fn push_reserved<K: Drop, V: Drop>(entries: &mut Vec<(K, V)>, key: K, value: V)
    requires { vec_len entries.old < vec_capacity entries.old }
    ensures items { entries.new.items ≡ entries.old.items ++ (key, value) ∷ [] }
    ensures len { vec_len entries.new ≡ vec_len entries.old + 1 }
    ensures capacity { vec_capacity entries.old ≤ vec_capacity entries.new }
{
    let _ = entries.push((key, value));
}
