//! An agent with its stake, and its turns.

ghost use Rattle.std.specs.Prelude.{◌≡◌, [], IfOk, IfErr, OnOk, OnErr};
ghost use Rattle.es_cluster.specs.Members.{Holds};
ghost use Rattle.calls.specs.Suiting.{Suits};

use crate::alone::spend_all;
use crate::asking::ask;
use crate::given::Given;
use crate::repeats::{Call, Calls};
use crate::taking::take_in;
use es_agent::{AgentCore, Need, Request};
use es_cluster::Progress;
use es_event::Task;
use es_ledger::LedgerCore;
use es_ticket::{LedgerName, Stake};
use es_value::NoMemory;
use std::marker::Model;

/// An agent with its side of the ledger, which has its tickets.
pub(crate) struct Player<L: LedgerName> {
    core: AgentCore<L>,
    stake: Stake<L>,
}

impl<L: LedgerName> Model for Player<L> {
    ghost use Rattle.es_cluster.specs.Members.{MemberView, Holds};

    ghost Value = { MemberView };

    ghost view = { λ p. record { core = p.core; stake = p.stake } };

    ghost invariant = { λ p. Holds p.core p.stake };
}

impl<L: LedgerName> Player<L> {
    /// An agent with the stake of its number, neither of which has a ticket.
    pub(crate) fn new(core: AgentCore<L>, stake: Stake<L>) -> Option<Player<L>>
        requires bare { core.over ≡ [] }
        requires empty { stake.rows ≡ [] }
    {
        if stake.number() != core.number() {
            core.abandon().end();
            return None;
        }
        Some(Player { core, stake })
    }

    /// The agent.
    pub(crate) fn core(&self) -> &AgentCore<L> {
        &self.core
    }

    /// One turn: the agent's next event, or none where it waits on, sleeps or has ended. Where a call finds no
    /// memory it is made once more, or the turn ends there: then what came to the agent is given up.
    pub(crate) fn turn(
        &mut self,
        ledger: &mut LedgerCore<L>,
        calls: &mut Calls,
    ) -> Result<Progress, NoMemory>
        ensures { ledger.new.agents ≡ ledger.old.agents }
    {
        turn(&mut self.core, &mut self.stake, ledger, calls)
    }

    /// Gives the agent up: its tickets are spent. It takes no memory.
    pub(crate) fn abandon(self, ledger: &mut LedgerCore<L>)
        ensures { ledger.new.agents ≡ ledger.old.agents }
    {
        let Player { core, mut stake } = self;
        let rack = core.abandon();
        spend_all(ledger, &mut stake, rack);
    }
}

fn turn<L: LedgerName>(
    core: &mut AgentCore<L>,
    stake: &mut Stake<L>,
    ledger: &mut LedgerCore<L>,
    calls: &mut Calls,
) -> Result<Progress, NoMemory>
    requires { Holds core.old stake.old }
    ensures held { Holds core.new stake.new }
    ensures agents { ledger.new.agents ≡ ledger.old.agents }
{
    let given = ask_again(core, stake, ledger, calls)?;
    let progress = progress_of(&given);
    match take_in_again(core, stake, ledger, calls, given) {
        Ok(()) => Ok(progress),
        Err(given) => {
            give_back(core, stake, ledger, given);
            Err(NoMemory)
        }
    }
}

/// What comes of a turn with this.
fn progress_of<L: LedgerName>(given: &Given<L>) -> Progress {
    match given {
        Given::Wait => Progress::Waiting,
        Given::End => Progress::Ended,
        _ => Progress::Moved,
    }
}

fn ask_again<L: LedgerName>(
    core: &AgentCore<L>,
    stake: &mut Stake<L>,
    ledger: &mut LedgerCore<L>,
    calls: &mut Calls,
) -> Result<Given<L>, NoMemory>
    requires { Holds core.now stake.old }
    ensures ok { IfOk result (λ g. Suits g core.now stake.new) }
    ensures err { OnErr result (Holds core.now stake.new) }
    ensures agents { ledger.new.agents ≡ ledger.old.agents }
{
    match ask(core, stake, ledger) {
        Ok(given) => Ok(given),
        Err(error) => {
            if !calls.is_made_again(call_of(&core.next())) {
                return Err(error);
            }
            ask(core, stake, ledger)
        }
    }
}

fn take_in_again<L: LedgerName>(
    core: &mut AgentCore<L>,
    stake: &mut Stake<L>,
    ledger: &mut LedgerCore<L>,
    calls: &mut Calls,
    given: Given<L>,
) -> Result<(), Given<L>>
    requires { Suits given core.old stake.old }
    ensures ok { OnOk result (Holds core.new stake.new) }
    ensures err { IfErr result (λ g. Suits g core.new stake.new) }
    ensures agents { ledger.new.agents ≡ ledger.old.agents }
{
    match take_in(core, stake, ledger, given) {
        Ok(()) => Ok(()),
        Err(given) => {
            if !calls.is_made_again(taker_of(&given, &core.next())) {
                return Err(given);
            }
            take_in(core, stake, ledger, given)
        }
    }
}

/// Gives up what came to the agent: a ticket is spent. It takes no memory.
fn give_back<L: LedgerName>(
    core: &AgentCore<L>,
    stake: &mut Stake<L>,
    ledger: &mut LedgerCore<L>,
    given: Given<L>,
)
    requires { Suits given core.now stake.old }
    ensures held { Holds core.now stake.new }
    ensures agents { ledger.new.agents ≡ ledger.old.agents }
{
    match given {
        Given::Block(ticket) => {
            let _ = ledger.spend(stake, ticket);
        }
        Given::Plain(value) => drop(value),
        Given::Word(_) => (),
        Given::WaitEnded(_) => (),
        Given::Alone => (),
        Given::Done => (),
        Given::Skip => (),
        Given::Wait => (),
        Given::End => (),
    }
}

/// The ledger's call for what the agent asks for, or the agent's own where it goes on alone.
fn call_of(need: &Need<'_>) -> Call {
    match need {
        Need::Local | Need::Ended => Call::Perform,
        Need::Collect => Call::Collect,
        Need::Later => Call::BeginLater,
        Need::Finish => Call::FinishLater,
        Need::Message(_) => Call::AwaitMessage,
        Need::Close => Call::Close,
        Need::Ledger(request) => match request {
            Request::NewBlock { .. } => Call::OpenBlock,
            Request::Post { .. } => Call::Post,
            Request::PostBuffer { .. } => Call::PostBuffer,
            Request::Word { task, .. } => match task {
                Task::Access(_) => Call::Access,
                Task::Sleep(_) => Call::WaitAt,
                Task::Notify(_) => Call::Notify,
            },
        },
    }
}

/// The agent's call that takes this.
fn taker_of<L: LedgerName>(given: &Given<L>, need: &Need<'_>) -> Call {
    match given {
        Given::Block(_) => Call::Admit,
        Given::Plain(_) => Call::Receive,
        Given::Word(_) => Call::AnswerWord,
        Given::WaitEnded(_) => Call::AnswerWait,
        Given::Done => Call::AnswerDone,
        Given::Skip => Call::Skip,
        Given::Alone | Given::Wait | Given::End => call_of(need),
    }
}
