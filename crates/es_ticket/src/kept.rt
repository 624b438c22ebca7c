//! A ticket, at its buffer object.

ghost use Rattle.std.specs.Prelude.{◌≡◌};

use crate::ledger_name::LedgerName;
use crate::ticket::Ticket;
use es_value::Id;
use std::marker::Model;

/// A ticket, at the buffer object over its block.
pub struct Kept<L: LedgerName> {
    pub id: Id,
    pub ticket: Ticket<L>,
}

impl<L: LedgerName> Model for Kept<L> {
    ghost use Rattle.std.specs.Prelude.{ℕ};
    ghost use Rattle.es_event.specs.declared.row.Row.{Row};

    ghost Value = { ℕ × Row };

    ghost view = { λ k. (k.id, k.ticket) };
}

impl<L: LedgerName> Kept<L> {
    /// The number of its buffer object.
    pub fn number(&self) -> u32
        ensures { result ≡ self.now.0 }
    {
        self.id.number()
    }

    /// The ticket, which stays.
    pub fn ticket(&self) -> &Ticket<L>
        ensures { result.now ≡ self.now.1 }
    {
        &self.ticket
    }
}
