//! One step to a value.

use es_value::Id;

/// One step to a value: from nothing, from an object, or from a WeakMap and a key of it. Variables,
/// and the properties of an object, are numbered by the heap that is searched.
#[derive(Clone, Copy, Debug, PartialEq, Eq)]
pub enum Step {
    /// The variable of this number holds the value.
    Variable(usize),
    /// KeptAlive has the value (ECMA-262, AddToKeptObjects).
    Kept,
    /// The value is a FinalizationRegistry (ECMA-262, FinalizationRegistry Objects).
    Registry,
    /// The cell of this registration is in its registry and holds the value.
    Held(usize),
    /// The property of this number, of this object, holds the value (ECMA-262, Ordinary Object
    /// Internal Methods and Internal Slots).
    Property(Id, usize),
    /// The entry of this WeakMap under this key has the value (ECMA-262, WeakMap Objects).
    Entry(Id, Id),
}
