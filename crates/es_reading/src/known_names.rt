//! Names that were read before.

ghost use Rattle.std.specs.Prelude.{◌≡◌, IfOk, IfSome, IsTrue, ◌↔◌, ◌≢◌, true};
ghost use Rattle.es_value.specs.Spelling.{is_name};

use es_event::OptionalName;
use es_value::{Name, NameFault, Names, NoMemory};
use std::alloc::Global;
use std::array;

/// How many names lie at hand. With fewer, names that are counted up (`k1`, `k2`, ..) drive out those that are
/// read again and again.
const PLACES: usize = 64;

/// The names of an agent that were read so far. One of those that were read last is found by its first
/// and its last byte, without a look into the table of all.
#[derive(Drop)]
pub struct KnownNames {
    all: Names,
    last: [Option<Name>; PLACES],
    token: Option<OptionalName>,
}

impl KnownNames {
    /// No name yet; it takes no memory.
    pub fn new(alloc: Global) -> KnownNames {
        KnownNames {
            all: Names::new(alloc),
            last: array::from_fn(|_| None),
            token: None,
        }
    }

    /// The allocator that it was made with.
    pub fn allocator(&self) -> Global {
        self.all.allocator()
    }

    /// The name that is spelled like this, or `BadName` exactly where it is no name.
    pub fn read(&mut self, text: &str) -> Result<Name, NameFault>
        ensures ok { IfOk result (λ n. n ≡ text.now) }
        ensures only { IfOk result (λ n. IsTrue (is_name text.now)) }
        ensures bad { (result ≡ Err NameFault.BadName) ↔ (is_name text.now ≢ true) }
    {
        let place = place_of(text.as_bytes());
        match self.find(place, text) {
            Some(name) => copied(name),
            None => self.read_anew(place, text),
        }
    }

    /// The token of a registration, or that it has none. It shares its memory with the one that was read last,
    /// where that is the same.
    pub(crate) fn token(&mut self, name: Option<Name>) -> Result<OptionalName, NoMemory>
        ensures { IfOk result (λ o. o ≡ name) }
    {
        if let Some(last) = self.last_token(&name) {
            return last.copy();
        }
        let alloc = self.allocator();
        let token = match name {
            Some(name) => OptionalName::some(alloc, name)?,
            None => OptionalName::none(alloc)?,
        };
        self.token = Some(token.copy()?);
        Ok(token)
    }

    /// The token that was read last, if it is this one.
    fn last_token(&self, name: &Option<Name>) -> Option<&OptionalName>
        ensures { IfSome result (λ o. o.now ≡ name.now) }
    {
        let last = self.token.as_ref()?;
        match (last.get(), name) {
            (Some(known), Some(name)) if *known == *name => Some(last),
            (None, None) => Some(last),
            _ => None,
        }
    }

    /// The name of this text, if it stands in its place.
    fn find(&self, place: usize, text: &str) -> Option<&Name>
        ensures same { IfSome result (λ n. n.now ≡ text.now) }
        ensures spelled { IfSome result (λ n. IsTrue (is_name text.now)) }
    {
        match self.last.get(place) {
            Some(Some(name)) if name.as_str() == text => Some(name),
            _ => None,
        }
    }

    /// The name of this text, which takes its place.
    fn read_anew(&mut self, place: usize, text: &str) -> Result<Name, NameFault>
        ensures ok { IfOk result (λ n. n ≡ text.now) }
        ensures only { IfOk result (λ n. IsTrue (is_name text.now)) }
        ensures bad { (result ≡ Err NameFault.BadName) ↔ (is_name text.now ≢ true) }
    {
        let name = self.all.read(text)?;
        if let Some(last) = self.last.get_mut(place) {
            *last = Some(copied(&name)?);
        }
        Ok(name)
    }
}

/// The place of a text. Names of a letter and a number, as `o0` and `p0` are, mostly have places of their own.
fn place_of(text: &[u8]) -> usize {
    match (text.first(), text.last()) {
        (Some(first), Some(last)) => (*first as usize * 8 + *last as usize) % PLACES,
        _ => 0,
    }
}

/// The same name again.
fn copied(name: &Name) -> Result<Name, NameFault>
    ensures ok { IfOk result (λ n. n ≡ name.now) }
    ensures bad { result ≢ Err NameFault.BadName }
{
    match name.copy() {
        Ok(name) => Ok(name),
        Err(_) => Err(NameFault::NoMemory),
    }
}
