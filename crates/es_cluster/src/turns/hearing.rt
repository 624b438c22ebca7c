//! An agent's job waits for a message: it comes, or the agent waits on, or it skips the job.

ghost use Rattle.std.specs.Prelude.{◌≡◌, ◌≢◌, ◌<◌, true, OnOk, OnErr, IfOk};
ghost use Rattle.es_event.specs.LegalLedger.{has_message};
ghost use Rattle.es_rules.specs.Needs.{need, asks_message};
ghost use Rattle.es_cluster.specs.Members.{member_of};
ghost use Rattle.es_cluster.specs.Turned.{WaitsRightly, Keeps, Proceeds, StaysTied};
ghost use Rattle.es_cluster.specs.Midway.{IsHeld};

use super::asking::admit;
use crate::member::Progress;
use es_agent::AgentCore;
use es_ledger::{LedgerCore, Letter, Message, Turn};
use es_ticket::{LedgerName, Stake};
use es_value::NoMemory;

/// The agent asks for a message of a sender.
pub(crate) fn hear<L: LedgerName>(
    core: &mut AgentCore<L>,
    stake: &mut Stake<L>,
    ledger: &mut LedgerCore<L>,
    sender: usize,
) -> Result<Progress, NoMemory>
    requires due { need core.old ≡ asks_message sender }
    requires others { (sender < ledger.old.agents) × (core.old.number ≢ sender) }
    requires ready { IsHeld core.old stake.old ledger.old }
    ensures ok { IfOk result (λ p. Proceeds p (member_of core.old stake.old) (member_of core.new stake.new)) }
    ensures told { IfOk result (λ p. WaitsRightly p core.old ledger.old ledger.new) }
    ensures err { OnErr result (core.new ≡ core.old) }
    ensures tied { IfOk result (λ p. StaysTied p core.old ledger.old core.new ledger.new) }
    ensures keeps { Keeps core.old ledger.old core.new stake.new ledger.new }
{
    match ledger.await_message(core.number(), sender)? {
        Turn::Ready => receive(core, stake, ledger, sender),
        Turn::Stay => Ok(Progress::Waiting),
        Turn::Skip => {
            core.skip()?;
            Ok(Progress::Moved)
        }
    }
}

// The message is there, and the agent takes it.
fn receive<L: LedgerName>(
    core: &mut AgentCore<L>,
    stake: &mut Stake<L>,
    ledger: &mut LedgerCore<L>,
    sender: usize,
) -> Result<Progress, NoMemory>
    requires due { need core.old ≡ asks_message sender }
    requires known { sender < ledger.old.agents }
    requires there { has_message ledger.old.history sender core.old.number ≡ true }
    requires ready { IsHeld core.old stake.old ledger.old }
    ensures ok { IfOk result (λ p. Proceeds p (member_of core.old stake.old) (member_of core.new stake.new)) }
    ensures told { IfOk result (λ p. WaitsRightly p core.old ledger.old ledger.new) }
    ensures err { OnErr result (core.new ≡ core.old) }
    ensures tied { IfOk result (λ p. StaysTied p core.old ledger.old core.new ledger.new) }
    ensures keeps { Keeps core.old ledger.old core.new stake.new ledger.new }
{
    let Some(Message { sender: _, body }) = ledger.take(stake, sender) else {
        unreachable!()
    };
    match body {
        Letter::Plain(value) => {
            core.receive(value)?;
            Ok(Progress::Moved)
        }
        Letter::Block(ticket) => {
            admit(core, stake, ledger, ticket)?;
            Ok(Progress::Moved)
        }
    }
}
