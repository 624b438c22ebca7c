//! The coming of a ticket.

ghost use Rattle.std.specs.Prelude.{◌≡◌, ◌+◌, ℕ, false, nat_lt, IfOk, IfErr, OnOk};
ghost use Rattle.es_value.specs.Limits.{most_identities};
ghost use Rattle.es_event.specs.Identities.{made, is_gone};
ghost use Rattle.es_rules.specs.Needs.{need, asks_message, TakesTicket};
ghost use Rattle.es_agent.specs.Tickets.{Admits};
ghost use Rattle.es_agent.specs.Failing.{FailsToAdmit};

use crate::recorder::Recorder;
use es_event::Row;
use es_rules::{brought, refused_message};
use es_value::{Id, MOST_IDENTITIES};

/// Why a ticket was not taken in.
#[derive(Clone, Copy, Debug, PartialEq, Eq)]
pub enum AdmitFault {
    /// Its message was refused: the agent has made as many identities as it may.
    Refused,
    /// A growth was refused.
    NoMemory,
}

/// Records the coming of a buffer object over the row's block.
pub(crate) fn enter(agent: &mut Recorder, row: Row) -> Result<Id, AdmitFault>
    requires { TakesTicket (need agent.old) row }
    ensures ok { IfOk result (λ id. (id ≡ made agent.old.history + 1) × (is_gone agent.old.history id ≡ false) × Admits agent.old row agent.new) }
    ensures comes { OnOk result (made agent.new.history ≡ made agent.old.history + 1) }
    ensures err { IfErr result (λ fault. FailsToAdmit agent.old fault agent.new) }
{
    if agent.read().identities() >= MOST_IDENTITIES {
        return Err(refuse(agent));
    }
    let id = agent.read().next_identity();
    let Ok(event) = brought(agent.read(), row) else {
        return Err(AdmitFault::NoMemory);
    };
    match agent.record_buffer(event, row) {
        Ok(()) => Ok(id),
        Err(_) => Err(AdmitFault::NoMemory),
    }
}

/// Records the refusal of a message with a buffer, for which there is no room.
fn refuse(agent: &mut Recorder) -> AdmitFault
    requires message { (s : ℕ) × (need agent.old ≡ asks_message s) }
    requires full { nat_lt (made agent.old.history) most_identities ≡ false }
    ensures { FailsToAdmit agent.old result agent.new }
{
    let event = refused_message(agent.read());
    match agent.record(event) {
        Ok(()) => AdmitFault::Refused,
        Err(_) => AdmitFault::NoMemory,
    }
}
