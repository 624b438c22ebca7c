//! Agents that ask the ledger for nothing.

ghost use Rattle.std.specs.Prelude.{◌≡◌, ◌-◌, true, false, drop, length, slice_index_or, IfOk};
ghost use Rattle.es_match.specs.Split.{stretches_said};
ghost use Rattle.es_match.specs.Calm.{IsCalmBefore};
ghost use Rattle.es_match.specs.Goes.{goes};
ghost use Rattle.es_match.specs.Meets.{nothing_came};

use crate::came::Came;
use crate::going::goes;
use crate::stretch::Stretch;
use es_event::Event;
use es_value::NoMemory;
use std::alloc::Global;

/// Whether it is said of this agent that it is calm.
pub(crate) fn is_calm(calm: &[bool], agent: usize) -> bool
    ensures { result ≡ slice_index_or calm.now agent false }
{
    agent < calm.len() && calm[agent]
}

fn last(history: &[Event]) -> &[Event]
    ensures { result.now ≡ drop (length history.now - 1) history.now }
{
    if history.is_empty() {
        history
    } else {
        &history[history.len() - 1..]
    }
}

/// What has come to the agent, if the deeds of its part are what the history asks; of a calm agent's history the last
/// event tells it.
pub(crate) fn goes_from(
    alloc: Global,
    is_calm: bool,
    history: &[Event],
    part: &[Stretch<'_>],
) -> Result<Option<Came>, NoMemory>
    requires { is_calm ≡ true → IsCalmBefore true history.now }
    ensures { IfOk result (λ o. o ≡ goes true nothing_came history.now (stretches_said part.now)) }
{
    if is_calm {
        goes(alloc, last(history), part)
    } else {
        goes(alloc, history, part)
    }
}
