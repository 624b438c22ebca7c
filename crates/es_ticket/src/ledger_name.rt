//! Which ledger a ticket is of, as a type.

use std::marker::Brand;

/// The name of one ledger: which word it has. The word is named by contracts alone. A ticket of one ledger is of
/// another type than that of another.
pub trait LedgerName {
    ghost use Rattle.atomic_table.specs.Seated.{TableId};

    ghost table: { TableId };
}

impl LedgerName for Brand {
    ghost use Rattle.es_ticket.specs.NoTable.{no_table};

    ghost table = { no_table };
}
