//! The variables of an agent.

ghost use Rattle.std.specs.Prelude.{◌≡◌, List, ℕ, [], Some, IfOk, OnOk, OnErr, map, unwrap_or, if◌then◌else◌};
ghost use Rattle.std.specs.HashMap.{Updates as map_updates};
ghost use Rattle.std.specs.List.{IsDistinct};
ghost use Rattle.std.specs.Option.{option_copied};
ghost use Rattle.std.specs.Str.{bytes_eq};
ghost use Rattle.es_value.specs.declared.value.Value.TheVariants.{Undefined};
ghost use Rattle.es_event.specs.History.{at_key};
ghost use Rattle.es_props.specs.Variables.{Adds, HasBound, bound, is_at, said};

use es_value::{Id, Name, NoMemory, Value};
use indexmap::IndexMap;
use std::alloc::Global;
use std::hash::Hash;
use std::marker::Model;

/// The variables of an agent that were assigned so far; every other one is undefined. Where a variable stands
/// is guessed by its name's length and last byte, and looked up where the guess is wrong.
#[derive(Drop)]
pub struct Variables {
    values: IndexMap<Name, Value>,
    guesses: [usize; 32],
}

impl Model for Variables {
    ghost use Rattle.es_props.specs.Variables.{VariablesView};

    ghost Value = { VariablesView };

    ghost view = { λ v. record { entries = v.values.entries } };
}

impl Variables {
    /// All variables undefined.
    pub fn new(alloc: Global) -> Self
        ensures { result.entries ≡ [] }
    {
        Variables {
            values: IndexMap::new(alloc),
            guesses: [0; 32],
        }
    }

    /// The variable's value, copied.
    pub fn value(&self, name: &Name) -> Result<Value, NoMemory>
        ensures { IfOk result (λ v. v ≡ bound self.now name.now) }
    {
        match self.bound(name) {
            Some(value) => value.copy(),
            None => Ok(Value::Undefined),
        }
    }

    /// The variable's value, or none where it was never assigned.
    pub fn bound(&self, name: &Name) -> Option<&Value>
        ensures { unwrap_or (option_copied result) Undefined ≡ bound self.now name.now }
    {
        match self.values.get_index(self.guess(name)) {
            Some((key, value)) if *key == *name => Some(value),
            _ => self.look_up(name),
        }
    }

    /// The same, where it does not stand where it was guessed to. It stands alone, so that a right guess saves no
    /// registers.
    #[inline(never)]
    fn look_up(&self, name: &Name) -> Option<&Value>
        ensures { unwrap_or (option_copied result) Undefined ≡ bound self.now name.now }
    {
        self.values.get(name)
    }

    /// Where the variable may stand.
    #[inline(always)]
    fn guess(&self, name: &Name) -> usize {
        match self.guesses.get(place_of(name)) {
            Some(guess) => *guess,
            None => 0,
        }
    }

    /// The names of all that were assigned, in no order, none twice.
    pub fn names(&self, alloc: Global) -> Result<Vec<Name>, NoMemory>
        ensures names { IfOk result (λ ns. ns.items ≡ map (λ e. e.0) self.now.entries) }
        ensures distinct { IfOk result (λ ns. IsDistinct bytes_eq ns.items) }
    {
        let mut names = Vec::new(alloc);
        for (name, _) in &self.values {
            names.push(name.copy()?)?;
        }
        Ok(names)
    }

    /// Adds the identities of what variables hold to `found`.
    pub fn add_identities(&self, found: &mut Vec<Id>) -> Result<(), NoMemory>
        ensures { OnOk result (Adds (HasBound self.now) found.old.items found.new.items) }
    {
        for (_, value) in &self.values {
            if let Some(id) = value.identity() {
                found.push(id)?;
            }
        }
        Ok(())
    }

    /// Assigns a variable, where one is to be assigned. Where there is no memory, it has what it had.
    #[inline(always)]
    pub fn take_in(&mut self, assigned: Option<(&Name, &Value)>) -> Result<(), NoMemory>
        ensures ok { OnOk result ((x : List ℕ) → bound self.new x ≡ unwrap_or (at_key bytes_eq x (said assigned.entry)) (bound self.old x)) }
        ensures err { OnErr result ((x : List ℕ) → bound self.new x ≡ bound self.old x) }
    {
        match assigned {
            Some((name, value)) => self.assign(name, value),
            None => Ok(()),
        }
    }

    /// Assigns a variable. Where there is no memory, it has what it had.
    fn assign(&mut self, name: &Name, value: &Value) -> Result<(), NoMemory>
        ensures ok { OnOk result ((x : List ℕ) → bound self.new x ≡ (if bytes_eq name.now x then value.now else bound self.old x)) }
        ensures err { OnErr result ((x : List ℕ) → bound self.new x ≡ bound self.old x) }
    {
        let value = value.copy()?;
        let guess = self.guess(name);
        if !self.is_at(guess, name) {
            return self.assign_anew(name, value);
        }
        let Some(place) = self.values.get_index_mut(guess) else {
            unreachable!();
        };
        replace(place, value);
        Ok(())
    }

    /// Whether the variable stands there.
    #[inline(always)]
    fn is_at(&self, place: usize, name: &Name) -> bool
        ensures { result ≡ is_at self.now.entries place name.now }
    {
        match self.values.get_index(place) {
            Some((key, _)) => *key == *name,
            None => false,
        }
    }

    /// Assigns a variable that does not stand where it was guessed to, which is where it will be guessed to
    /// stand from now on.
    #[inline(never)]
    fn assign_anew(&mut self, name: &Name, value: Value) -> Result<(), NoMemory>
        ensures ok { OnOk result ((x : List ℕ) → bound self.new x ≡ (if bytes_eq name.now x then value else bound self.old x)) }
        ensures err { OnErr result ((x : List ℕ) → bound self.new x ≡ bound self.old x) }
    {
        let name = name.copy()?;
        let guessed = place_of(&name);
        let place = put(&mut self.values, name, value)?;
        note(&mut self.guesses, guessed, place);
        Ok(())
    }
}

/// Notes a place as a guess.
fn note(guesses: &mut [usize; 32], guessed: usize, place: usize) {
    if let Some(guess) = guesses.get_mut(guessed) {
        *guess = place;
    }
}

/// By which of the guesses the place of a variable of this name is guessed.
#[inline(always)]
fn place_of(name: &Name) -> usize {
    let text = name.as_bytes();
    match text.last() {
        Some(byte) => text.len() % 2 * 16 + *byte as usize % 16,
        None => 0,
    }
}

/// Puts a value in the place of another.
fn replace<V: Drop>(place: &mut V, value: V)
    ensures { place.new ≡ value }
{
    *place = value;
}

/// Puts a value under a key, and gives its place. Where there is no memory, the map has what it had.
fn put<K: Eq + Hash + Drop, V: Drop>(
    map: &mut IndexMap<K, V>,
    key: K,
    value: V,
) -> Result<usize, NoMemory>
    ensures ok { OnOk result (map_updates K.eq map.old map.new key (Some value)) }
    ensures err { OnErr result (map.new.entries ≡ map.old.entries) }
{
    let (place, _) = map.insert_full(key, value)?;
    Ok(place)
}
