//! Tickets.

ghost use Rattle.std.specs.Prelude.{◌≡◌};

use crate::ledger_name::LedgerName;
use es_event::Row;
use std::marker::{Model, PhantomData};

/// The right to use a Shared Data Block of the run L (ECMA-262, Data Blocks; that blocks are
/// counted by tickets is this host's).
///
/// It can be neither copied nor forgotten: it has neither `Clone` nor `Drop`, so it ends by being
/// spent, or lies in a rack or in a message.
pub struct Ticket<L: LedgerName> {
    pub(crate) row: Row,
    pub(crate) of: PhantomData<L>,
}

impl<L: LedgerName> Model for Ticket<L> {
    ghost use Rattle.es_event.specs.declared.row.Row.{Row};

    ghost Value = { Row };

    ghost view = { λ t. t.row };
}

impl<L: LedgerName> Ticket<L> {
    /// What it names: its serial, and its block with its number of words.
    pub fn row(&self) -> Row
        ensures { result ≡ self.now }
    {
        self.row
    }

    /// Its number among all tickets of the run, from 1.
    pub fn serial(&self) -> u64
        ensures { result ≡ self.now.serial }
    {
        self.row.serial
    }

    /// The number of its block among all blocks of the run, from 1.
    pub fn block(&self) -> u64
        ensures { result ≡ self.now.block }
    {
        self.row.block
    }

    /// How many words of 32 bits its block has.
    pub fn words(&self) -> u32
        ensures { result ≡ self.now.words }
    {
        self.row.words
    }
}
