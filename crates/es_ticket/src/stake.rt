//! An agent's side of the ledger's table.

ghost use Rattle.std.specs.Prelude.{◌≡◌};

use crate::ledger_name::LedgerName;
use crate::steps::Mine;
use std::marker::{Model, PhantomData};

/// An agent's side of the ledger's table: the list of the rows that it holds. It takes no memory,
/// since contracts alone see that list. Only calls of `Rows` change it, and it is always the list
/// that the table has for the agent (`Rows::look` tells so).
#[derive(Drop)]
pub struct Stake<L: LedgerName> {
    pub(crate) number: usize,
    pub(crate) seat: Mine,
    pub(crate) of: PhantomData<L>,
}

impl<L: LedgerName> Model for Stake<L> {
    ghost use Rattle.std.specs.Prelude.{◌≡◌, ◌<◌, ◌^◌, []};
    ghost use Rattle.es_ticket.specs.Views.{agent_view};
    ghost use Rattle.es_ticket.specs.Stakes.{StakeView};

    ghost Value = { StakeView };

    ghost view = { λ s. record { agent = s.number; rows = s.seat.me.0.agent.mine } };

    ghost invariant = { λ s. (s.number < 2 ^ 32) × (s.seat.table_id ≡ L.table) × (s.seat.me ≡ (agent_view s.number s.seat.me.0.agent.mine, [])) };
}

impl<L: LedgerName> Stake<L> {
    /// The agent's number, from 0.
    pub fn number(&self) -> usize
        ensures { result ≡ self.now.agent }
    {
        self.number
    }
}
