//! What became of a registration, and what a cell holds.

ghost use Rattle.std.specs.Prelude.{◌≡◌, is_some};
ghost use Rattle.std.specs.Option.{option_copied, option_and_then};
ghost use Rattle.es_registry.specs.Slots.{unless_among, is_present, is_awaiting, awaits, has_token, losing, emptied, cell_of, registration_of, registry_of, held_identity};

use es_value::{Id, IdSet, Value};

/// What the callback of a registry gets of a registration.
#[derive(Debug, Drop)]
pub struct Cell {
    /// The registration's number: registrations of all registries count from 1 on, in order.
    pub registration: usize,
    /// The value that the callback is called with.
    pub held: Value,
}

/// What a registry keeps of a registration while its cell is there.
#[derive(Debug, Drop)]
pub struct Registration {
    /// The registry that the cell is in.
    pub registry: Id,
    /// What is waited for; none once it was emptied.
    pub target: Option<Id>,
    /// What the cell is unregistered by.
    pub token: Option<Id>,
    /// The cell.
    pub cell: Cell,
}

/// What became of a registration.
#[derive(Debug, Drop)]
pub enum Slot {
    /// Its cell is in its registry, with its target or without.
    Present(Registration),
    /// Its cell was taken out by its token.
    Unregistered,
    /// Its cell was handed to the callback.
    Taken,
}

/// How many registrations there are of each fate.
#[derive(Clone, Copy, Debug, PartialEq, Eq)]
pub struct Tally {
    /// Cells that have their targets.
    pub live: usize,
    /// Cells whose targets were emptied.
    pub awaiting: usize,
    /// Cells that were taken out by their tokens.
    pub unregistered: usize,
    /// Cells that were handed to their callbacks.
    pub taken: usize,
}

impl Slot {
    /// Whether the cell is there.
    pub(crate) fn is_present(&self) -> bool
        ensures { result ≡ is_present self.now }
    {
        matches!(self, Slot::Present(_))
    }

    /// Whether the cell is there and its target was emptied.
    pub(crate) fn is_awaiting(&self) -> bool
        ensures { result ≡ is_awaiting self.now }
    {
        match self {
            Slot::Present(registration) => registration.target.is_none(),
            Slot::Unregistered | Slot::Taken => false,
        }
    }

    /// Whether the cell is in this registry and its target was emptied.
    pub(crate) fn awaits(&self, registry: Id) -> bool
        ensures { result ≡ awaits registry self.now }
    {
        match self {
            Slot::Present(registration) => {
                registration.registry == registry && registration.target.is_none()
            }
            Slot::Unregistered | Slot::Taken => false,
        }
    }

    /// Whether the cell is in this registry and has this token.
    pub(crate) fn has_token(&self, registry: Id, token: Id) -> bool
        ensures { result ≡ has_token registry token self.now }
    {
        match self {
            Slot::Present(registration) => {
                registration.registry == registry && registration.token == Some(token)
            }
            Slot::Unregistered | Slot::Taken => false,
        }
    }

    /// The registry whose cell loses its target where these are emptied.
    pub(crate) fn losing(&self, named: &IdSet<'_>) -> Option<Id>
        ensures { result ≡ losing named.now self.now }
    {
        match self {
            Slot::Present(registration) => {
                if named.has(registration.target?) {
                    Some(registration.registry)
                } else {
                    None
                }
            }
            Slot::Unregistered | Slot::Taken => None,
        }
    }

    /// Empties the target where it is among these; whether it was.
    pub(crate) fn empty(&mut self, named: &IdSet<'_>) -> bool
        ensures lost { result ≡ is_some (losing named.now self.old) }
        ensures after { self.new ≡ emptied named.now self.old }
    {
        let lost = self.losing(named).is_some();
        if let Slot::Present(registration) = self {
            registration.target = left_of(registration.target, named);
        }
        lost
    }

    /// The identity that a cell that is there holds.
    pub(crate) fn held(&self) -> Option<Id>
        ensures { result ≡ held_identity self.now }
    {
        match self {
            Slot::Present(registration) => registration.cell.held.identity(),
            Slot::Unregistered | Slot::Taken => None,
        }
    }

    /// The registry of a cell that is there.
    pub(crate) fn registry(&self) -> Option<Id>
        ensures { result ≡ registry_of self.now }
    {
        match self {
            Slot::Present(registration) => Some(registration.registry),
            Slot::Unregistered | Slot::Taken => None,
        }
    }

    /// What is kept of the registration, if its cell is there.
    pub(crate) fn registration(&self) -> Option<&Registration>
        ensures { option_copied result ≡ registration_of self.now }
    {
        match self {
            Slot::Present(registration) => Some(registration),
            Slot::Unregistered | Slot::Taken => None,
        }
    }

    /// The cell, if it is there.
    pub(crate) fn cell(&self) -> Option<&Cell>
        ensures { option_copied result ≡ cell_of self.now }
    {
        match self {
            Slot::Present(registration) => Some(&registration.cell),
            Slot::Unregistered | Slot::Taken => None,
        }
    }

    /// The cell, if it is there.
    pub(crate) fn into_cell(self) -> Option<Cell>
        ensures { result ≡ cell_of self }
    {
        match self {
            Slot::Present(registration) => Some(registration.cell),
            Slot::Unregistered | Slot::Taken => None,
        }
    }
}

/// The target, unless it is among these.
fn left_of(target: Option<Id>, named: &IdSet<'_>) -> Option<Id>
    ensures { result ≡ option_and_then (unless_among named.now) target }
{
    let id = target?;
    if named.has(id) { None } else { Some(id) }
}
