//! Names that share their texts.

ghost use Rattle.std.specs.Prelude.{◌≡◌, IfOk, IfSome, IsTrue, ◌↔◌, ◌≢◌, true};
ghost use Rattle.es_value.specs.Spelling.{is_name};

use crate::{Name, NameFault, NoMemory};
use std::alloc::Global;
use std::collections::HashMap;

/// The names that were read so far. What is read again shares the text of the first.
#[derive(Drop)]
pub struct Names {
    known: HashMap<String, Name>,
    alloc: Global,
}

impl Names {
    /// No name yet; it takes no memory.
    pub fn new(alloc: Global) -> Names {
        Names {
            known: HashMap::new(alloc),
            alloc,
        }
    }

    /// The allocator that it was made with.
    pub fn allocator(&self) -> Global {
        self.alloc
    }

    /// The name that is spelled like this, or `BadName` exactly where it is no name.
    ///
    /// It takes memory where the name is new, and answers `NoMemory` where there is none.
    pub fn read(&mut self, text: &str) -> Result<Name, NameFault>
        ensures ok { IfOk result (λ n. n ≡ text.now) }
        ensures only { IfOk result (λ n. IsTrue (is_name text.now)) }
        ensures bad { (result ≡ Err NameFault.BadName) ↔ (is_name text.now ≢ true) }
    {
        match self.find(text) {
            Some(name) => match name.copy() {
                Ok(name) => Ok(name),
                Err(_) => Err(NameFault::NoMemory),
            },
            None => self.add(text),
        }
    }

    /// A name of this text that was read before.
    fn find(&self, text: &str) -> Option<&Name>
        ensures same { IfSome result (λ n. n.now ≡ text.now) }
        ensures spelled { IfSome result (λ n. IsTrue (is_name text.now)) }
    {
        let name = self.known.get(text)?;
        if name.as_str() == text {
            Some(name)
        } else {
            None
        }
    }

    fn add(&mut self, text: &str) -> Result<Name, NameFault>
        ensures ok { IfOk result (λ n. n ≡ text.now) }
        ensures only { IfOk result (λ n. IsTrue (is_name text.now)) }
        ensures bad { (result ≡ Err NameFault.BadName) ↔ (is_name text.now ≢ true) }
    {
        let name = Name::read(self.alloc, text)?;
        match self.keep(text, &name) {
            Ok(()) => Ok(name),
            Err(_) => Err(NameFault::NoMemory),
        }
    }

    fn keep(&mut self, text: &str, name: &Name) -> Result<(), NoMemory> {
        let key = String::from_str(self.alloc, text)?;
        self.known.insert(key, name.copy()?)?;
        Ok(())
    }
}
