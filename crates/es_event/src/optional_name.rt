//! A name that may be left out.

ghost use Rattle.std.specs.Prelude.{◌≡◌, None, Some, IfOk};
ghost use Rattle.std.specs.Option.{option_copied};

use crate::{Sequence, SharedList};
use es_value::{Name, NoMemory};
use std::alloc::Global;
use std::marker::Model;

/// A name that may be left out, which contracts see as an option. It takes 8 bytes where it stands, so that
/// a command takes 40.
pub struct OptionalName {
    names: SharedList<Name>,
}

impl Drop for OptionalName {
    #[inline]
    fn drop(self) {
        let OptionalName { names: _ } = self;
    }
}

impl Model for OptionalName {
    ghost use Rattle.std.specs.Prelude.{ℕ, List, Option};
    ghost use Rattle.es_event.specs.Names.{first_name};

    ghost Value = { Option (List ℕ) };

    ghost view = { λ o. first_name o.names };
}

impl OptionalName {
    /// No name.
    pub fn none(alloc: Global) -> Result<OptionalName, NoMemory>
        ensures { IfOk result (λ o. o ≡ None) }
    {
        let names = SharedList::of(Sequence::new(alloc))?;
        Ok(OptionalName { names })
    }

    /// This name.
    pub fn some(alloc: Global, name: Name) -> Result<OptionalName, NoMemory>
        ensures { IfOk result (λ o. o ≡ Some name) }
    {
        let names = Vec::from_array(alloc, [name])?;
        let names = SharedList::of(Sequence::from_vec(names))?;
        Ok(OptionalName { names })
    }

    /// The same again, in no memory of its own. An error only where it has more owners than can be counted.
    pub fn copy(&self) -> Result<OptionalName, NoMemory>
        ensures { IfOk result (λ o. o ≡ self.now) }
    {
        let names = self.names.copy()?;
        Ok(OptionalName { names })
    }

    /// The name, if there is one.
    pub fn get(&self) -> Option<&Name>
        ensures { option_copied result ≡ self.now }
    {
        self.names.as_slice().first()
    }
}
