//! An agent with its side of the ledger.

ghost use Rattle.std.specs.Prelude.{◌≡◌, [], true, reverse, IfOk, OnOk, OnErr};
ghost use Rattle.es_event.specs.Jobs.{receivers};
ghost use Rattle.es_event.specs.Live.{Honest};
ghost use Rattle.es_event.specs.Ledger.{table};
ghost use Rattle.es_event.specs.Order.{phase};
ghost use Rattle.es_event.specs.Rows.{held};
ghost use Rattle.es_event.specs.Runs.{IsRunOver};
ghost use Rattle.es_rules.specs.Needs.{need};
ghost use Rattle.es_agent.specs.Tickets.{is_ended, tickets};
ghost use Rattle.es_cluster.specs.Tied.{IsTied};
ghost use Rattle.es_cluster.specs.Members.{IsPlanned};
ghost use Rattle.es_cluster.specs.Turned.{WaitsRightly, IsSeated, IsTiedAfter, NamesOthers, OthersStay, Proceeds, spent};

use crate::planned::Planned;
use crate::spending::spend_all;
use crate::turns::turn;
use es_agent::AgentCore;
use es_event::{Event, Sequence};
use es_ledger::LedgerCore;
use es_ticket::Stake;
use es_value::NoMemory;
use std::marker::Model;

/// What a turn came to.
#[derive(Clone, Copy, Debug, PartialEq, Eq)]
pub enum Progress {
    /// The agent has one event more.
    Moved,
    /// It waits on for a message, or sleeps at a word.
    Waiting,
    /// It has ended.
    Ended,
}

/// An agent with its side of the ledger: its tickets are the ledger's rows of this agent, and its plan
/// is the run's plan of its number.
pub struct Member<L: Planned> {
    pub(crate) core: AgentCore<L>,
    pub(crate) stake: Stake<L>,
}

impl<L: Planned> Model for Member<L> {
    ghost use Rattle.es_cluster.specs.Members.{MemberView, Holds, IsPlanned};

    ghost Value = { MemberView };

    ghost view = { λ m. record { core = m.core; stake = m.stake } };

    ghost invariant = { λ m. Holds m.core m.stake × IsPlanned L.plan m.core };
}

impl<L: Planned> Member<L> {
    /// An agent with its stake, neither of which has a ticket.
    pub fn new(core: AgentCore<L>, stake: Stake<L>) -> Member<L>
        requires planned { IsPlanned L.plan core }
        requires number { stake.agent ≡ core.number }
        requires empty { (tickets core ≡ []) × (stake.rows ≡ []) }
        ensures { (result.core ≡ core) × (result.stake ≡ stake) }
    {
        Member { core, stake }
    }

    /// The agent.
    pub fn core(&self) -> &AgentCore<L>
        ensures { result.now ≡ self.now.core }
    {
        &self.core
    }

    /// Its number among the agents, counted from 0.
    pub fn number(&self) -> usize
        ensures number { result ≡ self.now.core.number }
        ensures planned { IsPlanned L.plan self.now.core }
    {
        self.core.number()
    }

    /// One turn: the next event of the agent, with what it asks for done in the ledger, or none where
    /// it waits on for a message, sleeps at a word or has ended. After want of memory the agent has not changed, but a
    /// part of the ledger's doing may stand; a message that was taken is lost.
    pub fn step(&mut self, ledger: &mut LedgerCore<L>) -> Result<Progress, NoMemory>
        requires seated { IsSeated self.old.core ledger.old }
        requires others { NamesOthers (need self.old.core) self.old.core.number ledger.old.agents }
        requires tied { IsTied self.old.core ledger.old.history }
        ensures ok { IfOk result (λ p. Proceeds p self.old self.new) }
        ensures told { IfOk result (λ p. WaitsRightly p self.old.core ledger.old ledger.new) }
        ensures tied { IfOk result (λ p. IsTiedAfter p self.new.core ledger.new.history) }
        ensures err { OnErr result (self.new.core ≡ self.old.core) }
        ensures same { (self.new.core.plan ≡ self.old.core.plan) × (self.new.core.agents ≡ self.old.core.agents) }
        ensures number { self.new.core.number ≡ self.old.core.number }
        ensures seated { IsSeated self.new.core ledger.new }
        ensures others { OthersStay self.old.core.number ledger.old ledger.new }
    {
        ledger.look(&mut self.stake);
        turn(&mut self.core, &mut self.stake, ledger)
    }

    /// Gives the agent up, at a fault: its tickets are spent. It takes no memory.
    pub fn abandon(self, ledger: &mut LedgerCore<L>)
        ensures agents { ledger.new.agents ≡ ledger.old.agents }
        ensures history { ledger.new.history ≡ spent (tickets self.core) ledger.old.history }
    {
        let Member { core, mut stake } = self;
        let rack = core.abandon();
        spend_all(ledger, &mut stake, rack);
    }

    /// Gives up an agent that has closed for its events, the oldest first: the ledger has no ticket of
    /// it. It takes no memory.
    pub fn into_history(self, ledger: &mut LedgerCore<L>) -> Sequence<Event>
        requires { is_ended (phase self.core.history) ≡ true }
        ensures same { ledger.new ≡ ledger.old }
        ensures none { held self.core.number (table ledger.old.history) ≡ [] }
        ensures events { reverse result ≡ self.core.history }
        ensures planned { IsPlanned L.plan self.core }
        ensures run { IsRunOver self.core.over self.core.plan self.core.history }
        ensures honest { Honest (receivers self.core.plan.jobs) self.core.history }
    {
        let Member { core, mut stake } = self;
        ledger.look(&mut stake);
        core.into_history()
    }
}
