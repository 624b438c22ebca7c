//! A value that stays, and what keeps it.

use es_value::{Id, Name};

/// What keeps a value: the last step of a way to it, in the words of the plan.
#[derive(Debug, Drop)]
pub enum Reason {
    /// The variable of this name holds it.
    Variable(Name),
    /// KeptAlive has it (ECMA-262, AddToKeptObjects).
    KeptAlive,
    /// It is a FinalizationRegistry (ECMA-262, FinalizationRegistry Objects).
    Registry,
    /// The cell of this registration is in its registry and holds it.
    Registration(usize),
    /// The property of this object under this key holds it (ECMA-262, Ordinary Object Internal Methods
    /// and Internal Slots).
    Property(Id, Name),
    /// The entry of this WeakMap under this key has it (ECMA-262, WeakMap Objects).
    Entry(Id, Id),
}

/// A value that stays after a collection, with what keeps it.
#[derive(Debug, Drop)]
pub struct Kept {
    /// The object or the symbol.
    pub value: Id,
    /// What keeps it.
    pub reason: Reason,
}
