//! For each registry and token the places of the cells that were registered with them: all that have
//! the token are there, and a place whose cell has not is passed over.

ghost use Rattle.std.specs.Prelude.{◌≡◌, ℕ, ◌&&◌, ◌<◌, [], ◌∷◌, ◌++◌, OnOk, nat_eq, if◌then◌else◌};
ghost use Rattle.es_registry.specs.Places.{listed, spare_at};

use crate::places::Places;
use crate::waiting::put;
use es_value::{Id, NoMemory};
use std::alloc::Global;
use std::collections::HashMap;

/// Places by registry and token.
pub(crate) type Tokens = HashMap<(Id, Id), Places>;

/// The places for a registry and a token.
pub(crate) fn places(tokens: &Tokens, registry: Id, token: Id) -> &[usize]
    ensures { result.now ≡ listed tokens.now registry token }
{
    match tokens.get(&(registry, token)) {
        Some(places) => places.as_slice(),
        None => &[],
    }
}

/// Makes room to list one more place for a registry and a token.
pub(crate) fn reserve(
    alloc: Global,
    tokens: &mut Tokens,
    registry: Id,
    token: Id,
) -> Result<(), NoMemory>
    ensures same { (r t : ℕ) → listed tokens.new r t ≡ listed tokens.old r t }
    ensures ok { OnOk result (0 < spare_at tokens.new registry token) }
{
    if let Some(places) = tokens.get_mut(&(registry, token)) {
        return places.reserve(alloc);
    }
    put(tokens, (registry, token), Places::none())
}

/// Lists a place for a registry and a token, last, where there is room for it.
pub(crate) fn add(tokens: &mut Tokens, registry: Id, token: Id, place: usize)
    requires { 0 < spare_at tokens.old registry token }
    ensures { (r t : ℕ) → listed tokens.new r t ≡ (if nat_eq registry r && nat_eq token t then listed tokens.old r t ++ place ∷ [] else listed tokens.old r t) }
{
    let Some(places) = tokens.get_mut(&(registry, token)) else {
        unreachable!();
    };
    places.push(place);
}

/// The places for a registry and a token, which are listed no longer; it takes no memory.
pub(crate) fn take(tokens: &mut Tokens, registry: Id, token: Id) -> Places
    ensures places { result.items ≡ listed tokens.old registry token }
    ensures after { (r t : ℕ) → listed tokens.new r t ≡ (if nat_eq registry r && nat_eq token t then [] else listed tokens.old r t) }
{
    match tokens.remove(&(registry, token)) {
        Some(places) => places,
        None => Places::none(),
    }
}
