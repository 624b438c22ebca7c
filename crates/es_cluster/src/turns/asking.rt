//! What an agent asks the ledger for: blocks, and that something is posted.

ghost use Rattle.std.specs.Prelude.{ℕ, ◌≡◌, ◌≢◌, ◌<◌, OnOk, OnErr, IfOk};
ghost use Rattle.es_rules.specs.Needs.{need, asks_ledger, for_block, for_post, for_buffer_post, TakesTicket};
ghost use Rattle.es_cluster.specs.Members.{HoldsBeside, member_of};
ghost use Rattle.es_cluster.specs.Tied.{IsSettled};
ghost use Rattle.es_cluster.specs.Turned.{WaitsRightly, Keeps, GrowsByOne, Proceeds, StaysTied};
ghost use Rattle.es_cluster.specs.Midway.{IsHeld, HasFetched};

use crate::member::Progress;
use es_agent::{AdmitFault, AgentCore};
use es_ledger::LedgerCore;
use es_ticket::{LedgerName, Stake, Ticket};
use es_value::{Id, NoMemory, Value};

/// A new block: the agent takes its first ticket.
pub(crate) fn open<L: LedgerName>(
    core: &mut AgentCore<L>,
    stake: &mut Stake<L>,
    ledger: &mut LedgerCore<L>,
    words: u32,
) -> Result<Progress, NoMemory>
    requires due { need core.old ≡ asks_ledger (for_block words) }
    requires ready { IsHeld core.old stake.old ledger.old }
    ensures ok { IfOk result (λ p. Proceeds p (member_of core.old stake.old) (member_of core.new stake.new)) }
    ensures told { IfOk result (λ p. WaitsRightly p core.old ledger.old ledger.new) }
    ensures err { OnErr result (core.new ≡ core.old) }
    ensures tied { IfOk result (λ p. StaysTied p core.old ledger.old core.new ledger.new) }
    ensures keeps { Keeps core.old ledger.old core.new stake.new ledger.new }
{
    let ticket = ledger.open_block(stake, words)?;
    admit(core, stake, ledger, ticket)?;
    Ok(Progress::Moved)
}

/// The agent takes in a ticket that its stake has beside its own. One that it does not take in is
/// spent.
pub(crate) fn admit<L: LedgerName>(
    core: &mut AgentCore<L>,
    stake: &mut Stake<L>,
    ledger: &mut LedgerCore<L>,
    ticket: Ticket<L>,
) -> Result<(), NoMemory>
    requires takes { TakesTicket (need core.old) ticket }
    requires held { HoldsBeside ticket core.old stake.old }
    ensures ok { OnOk result (GrowsByOne core.old core.new) }
    ensures err { OnErr result (core.new ≡ core.old) }
    ensures tied { OnOk result (HasFetched core.old ticket ledger.old.history → IsSettled core.new ledger.new.history) }
    ensures keeps { Keeps core.old ledger.old core.new stake.new ledger.new }
{
    let _ = core.history();
    match core.admit(ticket) {
        Ok(_) => Ok(()),
        Err((ticket, fault)) => {
            let _ = ledger.spend(stake, ticket);
            match fault {
                AdmitFault::Refused => Ok(()),
                AdmitFault::NoMemory => Err(NoMemory),
            }
        }
    }
}

/// A value without an identity is posted.
pub(crate) fn post<L: LedgerName>(
    core: &mut AgentCore<L>,
    stake: &Stake<L>,
    ledger: &mut LedgerCore<L>,
    receiver: usize,
    value: Value,
) -> Result<Progress, NoMemory>
    requires due { need core.old ≡ asks_ledger (for_post receiver value) }
    requires others { (receiver < ledger.old.agents) × (core.old.number ≢ receiver) }
    requires ready { IsHeld core.old stake.now ledger.old }
    ensures ok { IfOk result (λ p. Proceeds p (member_of core.old stake.now) (member_of core.new stake.now)) }
    ensures told { IfOk result (λ p. WaitsRightly p core.old ledger.old ledger.new) }
    ensures err { OnErr result (core.new ≡ core.old) }
    ensures tied { IfOk result (λ p. StaysTied p core.old ledger.old core.new ledger.new) }
    ensures keeps { Keeps core.old ledger.old core.new stake.now ledger.new }
{
    ledger.post(core.number(), receiver, value)?;
    core.answer_done()?;
    Ok(Progress::Moved)
}

/// The block of a buffer object is posted.
pub(crate) fn post_buffer<L: LedgerName>(
    core: &mut AgentCore<L>,
    stake: &mut Stake<L>,
    ledger: &mut LedgerCore<L>,
    receiver: usize,
    buffer: Id,
) -> Result<Progress, NoMemory>
    requires due { need core.old ≡ asks_ledger (for_buffer_post receiver buffer) }
    requires others { (receiver < ledger.old.agents) × (core.old.number ≢ receiver) }
    requires ready { IsHeld core.old stake.old ledger.old }
    ensures ok { IfOk result (λ p. Proceeds p (member_of core.old stake.old) (member_of core.new stake.new)) }
    ensures told { IfOk result (λ p. WaitsRightly p core.old ledger.old ledger.new) }
    ensures err { OnErr result (core.new ≡ core.old) }
    ensures tied { IfOk result (λ p. StaysTied p core.old ledger.old core.new ledger.new) }
    ensures keeps { Keeps core.old ledger.old core.new stake.new ledger.new }
{
    let _ = core.history();
    ledger.post_buffer(stake, receiver, core.ticket(buffer))?;
    core.answer_done()?;
    Ok(Progress::Moved)
}
