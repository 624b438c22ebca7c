//! The steps on a ledger's proof word.

ghost use Rattle.std.specs.Prelude.{◌≡◌, ◌≢◌, ◌<◌, ◌+◌, ◌^◌, ℕ, []};
ghost use Rattle.es_event.specs.Rows.{held};
ghost use Rattle.es_ticket.specs.Views.{IsLedger, IsAgent, ledger_view, agent_view};

use crate::view::{Back, Beside, Looks, Offers, Part, Settles, Takes, Tied, Under, View, Whole};
use atomic_table::{Seat, Shared};
use es_event::Entry;

/// A seat of a ledger's proof word.
pub type Mine = Seat<Vec<Entry>, View>;

/// The steps of a ledger's proof word.
pub type Steps = Shared<Vec<Entry>, View, (), Tied>;

/// The agent's rows are the ledger's for it.
pub fn look(steps: &Steps, ledger: &mut Mine, agent: &mut Mine)
    requires table { (ledger.old.table_id ≡ steps.now.table_id) × (agent.old.table_id ≡ steps.now.table_id) × (0 < steps.now.table_id.words) }
    requires ledger { IsLedger ledger.old.me }
    requires agent { IsAgent agent.old.me }
    ensures ledger { (ledger.new.table_id ≡ ledger.old.table_id) × (ledger.new.me ≡ ledger.old.me) }
    ensures agent { (agent.new.table_id ≡ agent.old.table_id) × (agent.new.me ≡ agent.old.me) }
    ensures told { agent.old.me.0.agent.mine ≡ held agent.old.me.0.agent.number ledger.old.me.0.ledger.rows }
{
    let part = steps.split_seat::<Whole>(agent);
    steps.join_seat::<Beside>(ledger, part);
    steps.load::<Looks>(ledger, 0);
    let part = steps.split_seat::<Part>(ledger);
    steps.join_seat::<Back>(agent, part);
}

/// The ledger's table is a new one, in which one agent's rows may differ, and the agent has those.
pub fn change(steps: &Steps, ledger: &mut Mine, agent: &mut Mine, number: usize, rows: &Vec<Entry>)
    requires table { (ledger.old.table_id ≡ steps.now.table_id) × (agent.old.table_id ≡ steps.now.table_id) × (0 < steps.now.table_id.words) }
    requires ledger { IsLedger ledger.old.me }
    requires agent { IsAgent agent.old.me }
    requires number { (number ≡ agent.old.me.0.agent.number) × (number + 1 < 2 ^ 64) }
    requires others { (b : ℕ) → b ≢ number → held b rows.now.items ≡ held b ledger.old.me.0.ledger.rows }
    ensures ledger { (ledger.new.table_id ≡ ledger.old.table_id) × (ledger.new.me ≡ (ledger_view rows.now.items 0 ledger.old.me.0.ledger.agents, [])) }
    ensures agent { (agent.new.table_id ≡ agent.old.table_id) × (agent.new.me ≡ (agent_view number (held number rows.now.items), [])) }
{
    steps.compare_exchange_with::<Offers>(ledger, 0, 0, number as u64 + 1, rows);
    let all = steps.split_seat::<Whole>(ledger);
    steps.join_seat::<Under>(agent, all);
    steps.load::<Takes>(agent, 0);
    let all = steps.split_seat::<Whole>(agent);
    steps.join_seat::<Back>(ledger, all);
    steps.store::<Settles>(ledger, 0, 0);
    let part = steps.split_seat::<Part>(ledger);
    steps.join_seat::<Back>(agent, part);
}

/// The ledger's table is a new one, in which no agent's rows differ.
pub fn note(steps: &Steps, ledger: &mut Mine, rows: &Vec<Entry>)
    requires table { (ledger.old.table_id ≡ steps.now.table_id) × (0 < steps.now.table_id.words) }
    requires ledger { IsLedger ledger.old.me }
    requires others { (b : ℕ) → held b rows.now.items ≡ held b ledger.old.me.0.ledger.rows }
    ensures { (ledger.new.table_id ≡ ledger.old.table_id) × (ledger.new.me ≡ (ledger_view rows.now.items 0 ledger.old.me.0.ledger.agents, [])) }
{
    steps.compare_exchange_with::<Offers>(ledger, 0, 0, 0, rows);
}
