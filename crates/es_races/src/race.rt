//! The races of a ledger's history.

ghost use Rattle.std.specs.Prelude.{◌<◌, reverse, IfOk};
ghost use Rattle.es_event.specs.LegalLedger.{LegalSoFar};
ghost use Rattle.es_races.specs.Verdict.{IsVerdict};

use crate::pass::Pass;
use es_event::LedgerEvent;
use es_value::NoMemory;
use std::alloc::Global;

/// An access to a word, told by its agent, counted from 0, and by how many accesses that agent made before it.
#[derive(Clone, Copy, Debug, PartialEq, Eq)]
pub struct Mark {
    pub agent: usize,
    pub number: usize,
}

/// Two accesses of one word by two agents, one of them a write, of which neither happens before the other by
/// messages (ECMA-262, Memory Model, happens-before).
#[derive(Clone, Copy, Debug, PartialEq, Eq)]
pub struct Race {
    /// The one that came first in this history.
    pub earlier: Mark,
    /// The other.
    pub later: Mark,
}

/// Two accesses that race in the history, the oldest event first, of a ledger of so many agents; or none, where no
/// two race. The time grows with the number of events, the memory with that of tickets, of messages and of words that
/// were accessed. Fails where there is no memory.
pub fn race_in(
    alloc: Global,
    agents: usize,
    history: &[LedgerEvent],
) -> Result<Option<Race>, NoMemory>
    requires few { agents < 9 }
    requires legal { LegalSoFar agents (reverse history.now) }
    ensures verdict { IfOk result (IsVerdict (reverse history.now)) }
{
    let mut pass = Pass::new(alloc);
    for event in history {
        if let Some(race) = pass.note(event)? {
            return Ok(Some(race));
        }
    }
    Ok(None)
}
