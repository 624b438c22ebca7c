//! What a type must tell to be searched.

ghost use Rattle.std.specs.Prelude.{◌≤◌, ◌∷◌, ℕ, [], OnOk};
ghost use Rattle.es_mark.specs.declared.step.Step.{Step as StepSaid};
ghost use Rattle.es_mark.specs.Finds.{Finds, FindsEntries, IsBound};

use crate::Way;
use es_value::{Id, NoMemory};

/// Values that lead to each other: which steps lead to which identity.
///
/// The owner says by definitions of its own where a step leads (ECMA-262, Execution and WeakMap Objects say
/// what can lead to a value). A call's clause ties these definitions to what the call finds, in any order:
/// each step that was found leads to its value, and each value to which such a step leads was found.
///
/// `roots`, `properties` and `entries` fail where `found` cannot grow, and then nothing is said of it.
pub trait Heap {
    /// The step leads to the identity.
    ghost leads: { Self → StepSaid → ℕ → Type 0 };

    /// A number that no identity to which a step leads is above.
    fn made(&self) -> u32
        ensures { IsBound (leads self.now) result };

    /// Adds what variables hold, KeptAlive, the registries and what cells in them hold to `found`.
    fn roots(&self, found: &mut Vec<Way>) -> Result<(), NoMemory>
        ensures { OnOk result (Finds (leads self.now) [] found.old.items found.new.items) };

    /// Adds what the properties of the object hold to `found`.
    fn properties(&self, object: Id, found: &mut Vec<Way>) -> Result<(), NoMemory>
        ensures { OnOk result (Finds (leads self.now) (object ∷ []) found.old.items found.new.items) };

    /// Adds WeakMap and value of each entry with this key to `found`.
    fn entries(&self, key: Id, found: &mut Vec<(Id, Id)>) -> Result<(), NoMemory>
        ensures { OnOk result (FindsEntries (leads self.now) key found.old.items found.new.items) };
}
