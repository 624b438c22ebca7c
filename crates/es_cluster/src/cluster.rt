//! Agents and their ledger, one turn after the other.

ghost use Rattle.std.specs.Prelude.{◌≡◌, ◌<◌, ◌≤◌, ℕ, [], vec_capacity, ◌&&◌, not, true, false, Some, length, reverse, slice_get, slice_index_or, IfOk, IfSome, OnOk, OnErr, is_err, is_some};
ghost use Rattle.es_event.specs.Ledger.{count};
ghost use Rattle.es_event.specs.LegalLedger.{LegalLedger};
ghost use Rattle.es_event.specs.Others.{all_name_others};
ghost use Rattle.es_match.specs.Cluster.{IsClusterOf};
ghost use Rattle.es_cluster.specs.Ends.{EndsIn};
ghost use Rattle.es_cluster.specs.Moves.{all_over};
ghost use Rattle.es_cluster.specs.State.{accounts, cores, first_state, names_of, plans};
ghost use Rattle.es_cluster.specs.Turns.{Turned, AllTurned, Stopped, StoppedIn};

use crate::ending::{all_have_ended, give_up, into_histories};
use crate::member::{Member, Progress};
use crate::planned::Planned;
use crate::seating::{copy_names, seat_all};
use es_agent::AgentCore;
use es_event::{Event, LedgerEvent, Outcome, Plan, Sequence};
use es_ledger::LedgerCore;
use es_ticket::Opened;
use es_value::{Name, NoMemory};
use std::alloc::Global;
use std::marker::Model;

/// The agents of a plan and their ledger (ECMA-262, Agent Clusters), run by turns.
///
/// Each agent's history is legal and follows its plan so far, the ledger's is legal, and unless a
/// step ended for want of memory they are the histories of one cluster: each agent's part in the
/// ledger is, in order and with nothing besides, what its history asks. It holds tickets, so it
/// can't be dropped, but ends by `end` or `abandon`.
pub struct ClusterCore<L: Planned> {
    pub(crate) members: Vec<Member<L>>,
    pub(crate) ledger: LedgerCore<L>,
    pub(crate) failed: bool,
    pub(crate) names: Sequence<Name>,
    // the place of the histories that `end` gives
    pub(crate) histories: Vec<Sequence<Event>>,
}

/// A cluster taken apart, for agents that run beside each other: each can stand under a lock of its own.
/// It holds tickets, so it can't be dropped, but ends by `give_up`, or by `into_histories` and the end of
/// its ledger.
pub struct Parts<L: Planned> {
    /// The agents, by rising number.
    pub members: Vec<Member<L>>,
    /// What is theirs together.
    pub ledger: LedgerCore<L>,
    /// The agents' names.
    pub names: Sequence<Name>,
    /// The place of the histories that `into_histories` gives, reserved.
    pub histories: Vec<Sequence<Event>>,
}

impl<L: Planned> Model for ClusterCore<L> {
    ghost use Rattle.std.specs.Prelude.{◌≡◌, ◌≤◌, [], false, length, vec_capacity};
    ghost use Rattle.es_cluster.specs.State.{ClusterView, cores, names_of, ArePlaced, AreTied};

    ghost Value = { ClusterView };

    ghost view = { λ c. record { agents = cores c.members.items; ledger = c.ledger; failed = c.failed } };

    ghost invariant = { λ c. ArePlaced (cores c.members.items) c.ledger × (c.failed ≡ false → AreTied (cores c.members.items) c.ledger) × (c.names ≡ names_of (cores c.members.items)) × (c.histories.items ≡ []) × (length c.members.items ≤ vec_capacity c.histories) };
}

impl<L: Planned> ClusterCore<L> {
    /// The cluster of a plan, before the first event of any agent. Each agent posts to other agents
    /// alone, and waits for messages of other agents alone.
    pub fn new(alloc: Global, opened: Opened, plan: Plan) -> Result<ClusterCore<L>, NoMemory>
        requires name { opened ≡ L.table }
        requires planned { plan ≡ L.plan }
        requires few { length plan.agents < 9 }
        requires others { all_name_others plan ≡ true }
        ensures { IfOk result (λ c. c ≡ first_state plan) }
    {
        let agents = plan.agents.into_vec();
        let count = agents.len();
        let names = copy_names(alloc, agents.as_slice())?;
        let histories = Vec::with_capacity(alloc, count)?;
        let (ledger, stakes) = LedgerCore::<L>::new(alloc, opened, count)?;
        match seat_all(alloc, agents, stakes) {
            Ok(members) => Ok(ClusterCore {
                members,
                ledger,
                failed: false,
                names,
                histories,
            }),
            Err((members, error)) => {
                give_up(members, ledger, count);
                Err(error)
            }
        }
    }

    /// One turn of an agent: its next event, with what it asks for done in the ledger, or none where
    /// it waits on for a message, sleeps at a word or has ended. After want of memory every later step fails: no agent has
    /// changed, and of the ledger's doing in this turn a part may stand.
    pub fn step(&mut self, agent: usize) -> Result<Progress, NoMemory>
        requires { agent < length self.old.agents }
        ensures turned { IfOk result (λ p. Turned p agent self.old self.new) }
        ensures err { OnErr result (Stopped agent self.old self.new) }
        ensures failed { self.old.failed ≡ true → is_err result ≡ true }
        ensures agents { length self.new.agents ≡ length self.old.agents }
        ensures plans { plans self.new.agents ≡ plans self.old.agents }
    {
        if self.failed {
            return Err(NoMemory);
        }
        match self.members[agent].step(&mut self.ledger) {
            Ok(progress) => {
                // It tells that the ledger's history is legal.
                let _ = self.ledger.history();
                Ok(progress)
            }
            Err(error) => {
                self.failed = true;
                Err(error)
            }
        }
    }

    /// Turns of these agents, one after the other. Once a step failed it fails, whatever the list.
    pub fn run(&mut self, turns: &[usize]) -> Result<(), NoMemory>
        requires { (i : ℕ) → i < length turns.now → slice_index_or turns.now i 0 < length self.old.agents }
        ensures turned { OnOk result (AllTurned turns.now self.old self.new) }
        ensures stopped { OnErr result (StoppedIn turns.now self.old self.new) }
        ensures err { OnErr result (self.new.failed ≡ true) }
        ensures failed { self.old.failed ≡ true → is_err result ≡ true }
        ensures agents { length self.new.agents ≡ length self.old.agents }
        ensures plans { plans self.new.agents ≡ plans self.old.agents }
    {
        if self.failed {
            return Err(NoMemory);
        }
        for i in 0..turns.len() {
            self.step(turns[i])?;
        }
        Ok(())
    }

    /// How many agents there are.
    pub fn agents(&self) -> usize
        ensures count { result ≡ length self.now.agents }
        ensures ledger { result ≡ self.now.ledger.agents }
    {
        self.members.len()
    }

    /// The agents, by rising number, each with its side of the ledger.
    pub fn members(&self) -> &[Member<L>]
        ensures { cores result.now ≡ self.now.agents }
    {
        self.members.as_slice()
    }

    /// An agent.
    pub fn agent(&self, agent: usize) -> &AgentCore<L>
        requires { agent < length self.now.agents }
        ensures { slice_get self.now.agents agent ≡ Some result.now }
    {
        self.members[agent].core()
    }

    /// How many tickets of a block there are, 0 where it was not made.
    pub fn count(&self, block: u64) -> u64
        ensures { result ≡ count self.now.ledger.history block }
    {
        self.ledger.count(block)
    }

    /// Takes the cluster apart, for agents that run beside each other.
    pub fn into_parts(self) -> Parts<L>
        ensures agents { cores result.members.items ≡ self.agents }
        ensures ledger { result.ledger ≡ self.ledger }
        ensures names { result.names ≡ names_of self.agents }
        ensures place { (result.histories.items ≡ []) × (length result.members.items ≤ vec_capacity result.histories) }
    {
        let ClusterCore {
            members,
            ledger,
            failed: _,
            names,
            histories,
        } = self;
        Parts {
            members,
            ledger,
            names,
            histories,
        }
    }

    /// Gives all up, however far the agents are: every ticket is spent. It takes no memory.
    pub fn abandon(self) {
        let ClusterCore {
            members,
            ledger,
            failed: _,
            names: _,
            histories: _,
        } = self;
        let count = members.len();
        give_up(members, ledger, count);
    }

    /// The outcome, where all agents have ended and no step failed; `None` else. The messages that
    /// nobody took are taken out first. All tickets are spent; it takes no memory.
    pub fn end(self) -> Option<Outcome>
        ensures some { is_some result ≡ (not self.failed && all_over self) }
        ensures outcome { IfSome result (EndsIn self) }
    {
        if self.failed || !all_have_ended(&self.ledger, self.members.len()) {
            self.abandon();
            return None;
        }
        let ClusterCore {
            members,
            mut ledger,
            failed: _,
            names,
            histories,
        } = self;
        let _ = ledger.history();
        ledger.drain();
        let histories = into_histories(members, &mut ledger, histories);
        Some(Outcome {
            names,
            histories: Sequence::from_vec(histories),
            ledger: ledger.into_history(),
        })
    }

    /// What happened in the ledger, the oldest first. It is legal, and with the agents' histories it is that
    /// of one cluster, unless a step failed.
    pub fn ledger(&self) -> &[LedgerEvent]
        ensures events { reverse result.now ≡ self.now.ledger.history }
        ensures legal { LegalLedger self.now.ledger.agents self.now.ledger.history }
        ensures cluster { self.now.failed ≡ false → IsClusterOf (accounts self.now.agents) self.now.ledger.history }
    {
        self.ledger.history()
    }
}
