//! Names of variables, properties, callbacks and agents.

ghost use Rattle.std.specs.Prelude.{◌≡◌, IfOk, IsTrue, ◌↔◌, ◌≢◌, true};
ghost use Rattle.std.specs.Cmp.Rules.{comparing, hashing};
ghost use Rattle.std.specs.Hash as fed;
ghost use Rattle.std.specs.Str.{bytes_eq};
ghost use Rattle.std.proofs.Common.{rules};
ghost use Rattle.es_value.specs.Spelling.{is_name};

use crate::NoMemory;
use crate::spelling::spells_name;
use std::alloc::Global;
use std::hash::{Hash, Hasher};
use std::marker::Model;
use std::sync::ArcStr;

/// A name of a variable, a property, a callback or an agent: a letter or `_`, then letters, digits
/// and `_`, 1 to 32 bytes.
///
/// Copies share one text, so that each takes 8 bytes and no memory of its own.
#[derive(Debug)]
pub struct Name {
    chars: ArcStr,
}

impl Drop for Name {
    #[inline(always)]
    fn drop(self) {
        let Name { chars: _ } = self;
    }
}

impl Model for Name {
    ghost use Rattle.std.specs.Prelude.{ℕ, List, IsTrue};
    ghost use Rattle.std.specs.Arc.{arc_str_bytes};
    ghost use Rattle.es_value.specs.Spelling.{is_name};

    ghost Value = { List ℕ };

    ghost view = { λ n. arc_str_bytes n.chars };

    ghost invariant = { λ n. IsTrue (is_name (arc_str_bytes n.chars)) };
}

/// Why no name was read.
#[derive(Clone, Copy, Debug, PartialEq, Eq)]
pub enum NameFault {
    /// The text is not spelled as a name.
    BadName,
    /// There was no memory for it.
    NoMemory,
}

impl Name {
    /// The name that is spelled like this, or `BadName` exactly where it is no name.
    ///
    /// It takes memory for its text, and answers `NoMemory` where there is none.
    pub fn read(alloc: Global, text: &str) -> Result<Name, NameFault>
        ensures ok { IfOk result (λ n. n ≡ text.now) }
        ensures only { IfOk result (λ n. IsTrue (is_name text.now)) }
        ensures bad { (result ≡ Err NameFault.BadName) ↔ (is_name text.now ≢ true) }
    {
        if !spells_name(text.as_bytes()) {
            return Err(NameFault::BadName);
        }
        match ArcStr::from_str(alloc, text) {
            Ok(chars) => Ok(Name { chars }),
            Err(_) => Err(NameFault::NoMemory),
        }
    }

    /// Its bytes, of which there are 1 to 32.
    pub fn as_bytes(&self) -> &[u8]
        ensures same { result.now ≡ self.now }
        ensures spelled { IsTrue (is_name self.now) }
    {
        self.chars.as_str().as_bytes()
    }

    /// Its text.
    pub fn as_str(&self) -> &str
        ensures same { result.now ≡ self.now }
        ensures spelled { IsTrue (is_name self.now) }
    {
        self.chars.as_str()
    }

    /// The same name again: it shares the text and takes no memory. An error only where a text has
    /// more owners than can be counted.
    pub fn copy(&self) -> Result<Name, NoMemory>
        ensures { IfOk result (λ n. n ≡ self.now) }
    {
        let chars = self.chars.clone()?;
        Ok(Name { chars })
    }
}

impl PartialEq for Name {
    ghost eq = { λ a b. bytes_eq a b };

    ghost laws = { Prim.search (comparing, rules) };

    fn eq(&self, other: &Name) -> bool {
        self.as_bytes() == other.as_bytes()
    }
}

impl Eq for Name {
    ghost laws = { Prim.search (comparing, rules) };
}

impl Hash for Name {
    ghost hash_input = { λ n. fed.slice fed.u8 n };

    ghost respects_eq = { Prim.search (hashing, rules) };

    fn hash<H: Hasher>(&self, state: &mut H) {
        self.as_bytes().hash(state);
    }
}
