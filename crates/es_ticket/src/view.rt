//! What the seats of a ledger's proof word know. No value of these views is made.

use atomic_table::{Join, Play, Split, TableRule};
use es_event::{Entry, Row};
use std::collections::LinkedList;

/// The ledger's part: its table, the word, and how many agents it has.
pub struct LedgerPart {
    pub keeps: bool,
    pub rows: LinkedList<Entry>,
    pub word: u64,
    pub agents: usize,
}

/// An agent's part: its number and its rows.
pub struct AgentPart {
    pub claims: bool,
    pub number: usize,
    pub mine: LinkedList<Row>,
}

/// What a seat knows: one of the two parts, both, or nothing.
pub struct View {
    pub ledger: LedgerPart,
    pub agent: AgentPart,
}

/// The rule of a ledger's proof word: each agent's rows are the table's, but for the one that the word
/// names.
pub struct Tied;

impl TableRule<Vec<Entry>, View, ()> for Tied {
    ghost use Rattle.std.specs.Prelude.{[]};
    ghost use Rattle.es_ticket.specs.Views.{ledger_view, Kept};

    ghost holds = { λ _ s. Kept s };

    ghost first = { λ _. ledger_view [] 0 0 };
}

/// A new agent, which has no row.
pub struct Deals;

impl Split<View> for Deals {
    ghost use Rattle.es_ticket.specs.Views.{one_more, newcomer};

    ghost left = { one_more };

    ghost right = { newcomer };
}

/// The whole view goes.
pub struct Whole;

impl Split<View> for Whole {
    ghost use Rattle.es_ticket.specs.Views.{nobody};

    ghost left = { λ _. nobody };

    ghost right = { λ v. v };
}

/// The agent's part goes.
pub struct Part;

impl Split<View> for Part {
    ghost use Rattle.es_ticket.specs.Views.{ledger_only, agent_only};

    ghost left = { ledger_only };

    ghost right = { agent_only };
}

/// An agent's part comes beside the ledger's.
pub struct Beside;

impl Join<View> for Beside {
    ghost use Rattle.es_ticket.specs.Views.{nobody};

    ghost both = { λ v w. record { ledger = v.ledger; agent = w.agent } };

    ghost spent = { nobody };
}

/// The ledger's part comes to an agent's.
pub struct Under;

impl Join<View> for Under {
    ghost use Rattle.es_ticket.specs.Views.{nobody};

    ghost both = { λ v w. record { ledger = w.ledger; agent = v.agent } };

    ghost spent = { nobody };
}

/// A whole view comes to a seat that has none.
pub struct Back;

impl Join<View> for Back {
    ghost use Rattle.es_ticket.specs.Views.{nobody};

    ghost both = { λ _ w. w };

    ghost spent = { nobody };
}

/// With both parts, the agent's rows are the ledger's for it.
pub struct Looks;

impl Play<Vec<Entry>, View> for Looks {
    ghost use Rattle.es_ticket.specs.Views.{Looked};

    ghost then = { λ _ v _ w. Looked v w };
}

/// The ledger has a new table, in which one agent's rows differ.
pub struct Offers;

impl Play<Vec<Entry>, View> for Offers {
    ghost use Rattle.es_ticket.specs.Views.{Offered};

    ghost then = { λ s v _ w. Offered s v w };
}

/// The agent's rows become the ledger's for it.
pub struct Takes;

impl Play<Vec<Entry>, View> for Takes {
    ghost use Rattle.es_ticket.specs.Views.{Taken};

    ghost then = { λ _ v _ w. Taken v w };
}

/// The word is settled.
pub struct Settles;

impl Play<Vec<Entry>, View> for Settles {
    ghost use Rattle.es_ticket.specs.Views.{Settled};

    ghost then = { λ _ v _ w. Settled v w };
}
