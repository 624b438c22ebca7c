//! An agent takes what it is handed. Each of these makes one call of the agent that may find no memory; then
//! nothing has changed, and what was handed comes back.

ghost use Rattle.std.specs.Prelude.{◌≡◌, None, OnOk, IfErr};
ghost use Rattle.es_value.specs.Values.{identity};
ghost use Rattle.es_rules.specs.Needs.{need, TakesTicket, TakesWord, TakesWaitResult, TakesDone};
ghost use Rattle.es_cluster.specs.Members.{Holds, HoldsBeside};
ghost use Rattle.calls.specs.Suiting.{AsksMessage, Comes, Suits};

use crate::alone::go_on;
use crate::given::Given;
use es_agent::{AdmitFault, AgentCore};
use es_event::WaitResult;
use es_ledger::LedgerCore;
use es_ticket::{LedgerName, Stake, Ticket};
use es_value::Value;

/// The agent takes what it is handed, as its next event.
pub(crate) fn take_in<L: LedgerName>(
    core: &mut AgentCore<L>,
    stake: &mut Stake<L>,
    ledger: &mut LedgerCore<L>,
    given: Given<L>,
) -> Result<(), Given<L>>
    requires { Suits given core.old stake.old }
    ensures ok { OnOk result (Holds core.new stake.new) }
    ensures err { IfErr result (λ g. Suits g core.new stake.new) }
    ensures agents { ledger.new.agents ≡ ledger.old.agents }
{
    match given {
        Given::Alone => go_alone(core, stake, ledger),
        Given::Block(ticket) => admit(core, stake, ledger, ticket),
        Given::Plain(value) => receive(core, stake, value),
        Given::Word(word) => answer_word(core, stake, word),
        Given::WaitEnded(ended) => answer_wait(core, stake, ended),
        Given::Done => answer_done(core, stake),
        Given::Skip => skip(core, stake),
        Given::Wait => Ok(()),
        Given::End => Ok(()),
    }
}

/// Nothing: it goes on alone.
fn go_alone<L: LedgerName>(
    core: &mut AgentCore<L>,
    stake: &mut Stake<L>,
    ledger: &mut LedgerCore<L>,
) -> Result<(), Given<L>>
    requires { Holds core.old stake.old }
    ensures ok { OnOk result (Holds core.new stake.new) }
    ensures err { IfErr result (λ g. Suits g core.new stake.new) }
    ensures agents { ledger.new.agents ≡ ledger.old.agents }
{
    match go_on(core, stake, ledger) {
        Ok(()) => Ok(()),
        Err(_) => Err(Given::Alone),
    }
}

/// A ticket, which is spent where there is no room for one more identity.
fn admit<L: LedgerName>(
    core: &mut AgentCore<L>,
    stake: &mut Stake<L>,
    ledger: &mut LedgerCore<L>,
    ticket: Ticket<L>,
) -> Result<(), Given<L>>
    requires takes { TakesTicket (need core.old) ticket }
    requires held { HoldsBeside ticket core.old stake.old }
    ensures ok { OnOk result (Holds core.new stake.new) }
    ensures err { IfErr result (λ g. Suits g core.new stake.new) }
    ensures agents { ledger.new.agents ≡ ledger.old.agents }
{
    let _ = core.history();
    match core.admit(ticket) {
        Ok(_) => Ok(()),
        Err((ticket, fault)) => match fault {
            AdmitFault::Refused => {
                let _ = ledger.spend(stake, ticket);
                Ok(())
            }
            AdmitFault::NoMemory => Err(Given::Block(ticket)),
        },
    }
}

/// A value, of which the agent gets a copy.
fn receive<L: LedgerName>(
    core: &mut AgentCore<L>,
    stake: &Stake<L>,
    value: Value,
) -> Result<(), Given<L>>
    requires comes { Comes value core.old }
    requires held { Holds core.old stake.now }
    ensures ok { OnOk result (Holds core.new stake.now) }
    ensures err { IfErr result (λ g. Suits g core.new stake.now) }
{
    let Ok(copy) = value.copy() else {
        return Err(Given::Plain(value));
    };
    match core.receive(copy) {
        Ok(()) => Ok(()),
        Err(_) => Err(Given::Plain(value)),
    }
}

/// A word, or how many agents were woken.
fn answer_word<L: LedgerName>(
    core: &mut AgentCore<L>,
    stake: &Stake<L>,
    word: u32,
) -> Result<(), Given<L>>
    requires takes { TakesWord (need core.old) }
    requires held { Holds core.old stake.now }
    ensures ok { OnOk result (Holds core.new stake.now) }
    ensures err { IfErr result (λ g. Suits g core.new stake.now) }
{
    match core.answer_word(word) {
        Ok(()) => Ok(()),
        Err(_) => Err(Given::Word(word)),
    }
}

/// How its wait ended.
fn answer_wait<L: LedgerName>(
    core: &mut AgentCore<L>,
    stake: &Stake<L>,
    ended: WaitResult,
) -> Result<(), Given<L>>
    requires takes { TakesWaitResult (need core.old) }
    requires held { Holds core.old stake.now }
    ensures ok { OnOk result (Holds core.new stake.now) }
    ensures err { IfErr result (λ g. Suits g core.new stake.now) }
{
    match core.answer_wait(ended) {
        Ok(()) => Ok(()),
        Err(_) => Err(Given::WaitEnded(ended)),
    }
}

/// That what it asked for was done.
fn answer_done<L: LedgerName>(core: &mut AgentCore<L>, stake: &Stake<L>) -> Result<(), Given<L>>
    requires takes { TakesDone (need core.old) }
    requires held { Holds core.old stake.now }
    ensures ok { OnOk result (Holds core.new stake.now) }
    ensures err { IfErr result (λ g. Suits g core.new stake.now) }
{
    match core.answer_done() {
        Ok(()) => Ok(()),
        Err(_) => Err(Given::Done),
    }
}

/// That no message comes any more.
fn skip<L: LedgerName>(core: &mut AgentCore<L>, stake: &Stake<L>) -> Result<(), Given<L>>
    requires message { AsksMessage core.old }
    requires held { Holds core.old stake.now }
    ensures ok { OnOk result (Holds core.new stake.now) }
    ensures err { IfErr result (λ g. Suits g core.new stake.now) }
{
    match core.skip() {
        Ok(()) => Ok(()),
        Err(_) => Err(Given::Skip),
    }
}
