//! Whether histories of agents and of a ledger are those of one cluster.

ghost use Rattle.std.specs.Prelude.{◌≡◌, ◌↔◌, map, reverse, true, length, IfOk, IfSome, IfNone};
ghost use Rattle.es_match.specs.Calm.{AreCalm};
ghost use Rattle.es_match.specs.Cluster.{HaveCome, IsCluster};
ghost use Rattle.es_match.specs.Going.{AllGo, SomeStops};

use crate::beside::{all_go_beside, are_long};
use crate::calm::{goes_from, is_calm};
use crate::came::Came;
use crate::parts::parts_of;
use crate::stretch::Stretch;
use es_event::{Event, LedgerEvent, Sequence};
use es_value::NoMemory;
use std::alloc::Global;
use std::thread::Threads;

/// Whether these are the histories of the agents of one cluster, by rising number, and of its ledger,
/// each the oldest event first. An error only for want of memory.
pub fn matches<R: Threads + Sync>(
    rt: &R,
    alloc: Global,
    histories: &[Sequence<Event>],
    ledger: &[LedgerEvent],
) -> Result<bool, NoMemory>
    ensures { IfOk result (λ b. (b ≡ true) ↔ IsCluster (map reverse histories.now) (reverse ledger.now)) }
{
    let came = came_of(rt, alloc, histories, &[], ledger)?;
    Ok(came.is_some())
}

/// What has come to each agent from the ledger, if these are the histories of the agents of one cluster,
/// by rising number, and of its ledger, each the oldest event first; `None` else. An error only for want
/// of memory. Long histories are gone through beside each other; of an agent of which it is said that it is calm, whose
/// events but the last ask the ledger for nothing, the last alone is looked at.
pub fn came_of<R: Threads + Sync>(
    rt: &R,
    alloc: Global,
    histories: &[Sequence<Event>],
    calm: &[bool],
    ledger: &[LedgerEvent],
) -> Result<Option<Vec<Came>>, NoMemory>
    requires { AreCalm calm.now histories.now }
    ensures some { IfOk result (λ o. IfSome o (λ cs. HaveCome (map reverse histories.now) (reverse ledger.now) cs.items)) }
    ensures none { IfOk result (λ o. IfNone o (IsCluster (map reverse histories.now) (reverse ledger.now) → ⊥)) }
{
    let parts = parts_of(alloc, histories.len(), ledger)?;
    match parts {
        Some(parts) => all_go(rt, alloc, histories, calm, &parts),
        None => Ok(None),
    }
}

/// What has come to each agent, if each history asks for what its agent's part has.
fn all_go<R: Threads + Sync>(
    rt: &R,
    alloc: Global,
    histories: &[Sequence<Event>],
    calm: &[bool],
    parts: &[Sequence<Stretch<'_>>],
) -> Result<Option<Vec<Came>>, NoMemory>
    requires size { length parts.now ≡ length histories.now }
    requires calm { AreCalm calm.now histories.now }
    ensures size { IfOk result (λ o. IfSome o (λ cs. length cs.items ≡ length histories.now)) }
    ensures some { IfOk result (λ o. IfSome o (λ cs. AllGo histories.now parts.now cs.items)) }
    ensures none { IfOk result (λ o. IfNone o (SomeStops histories.now parts.now)) }
{
    if are_long(histories, calm) {
        all_go_beside(rt, alloc, histories, calm, parts)
    } else {
        all_go_in_turn(alloc, histories, calm, parts)
    }
}

/// The same, one after the other.
fn all_go_in_turn(
    alloc: Global,
    histories: &[Sequence<Event>],
    calm: &[bool],
    parts: &[Sequence<Stretch<'_>>],
) -> Result<Option<Vec<Came>>, NoMemory>
    requires size { length parts.now ≡ length histories.now }
    requires calm { AreCalm calm.now histories.now }
    ensures size { IfOk result (λ o. IfSome o (λ cs. length cs.items ≡ length histories.now)) }
    ensures some { IfOk result (λ o. IfSome o (λ cs. AllGo histories.now parts.now cs.items)) }
    ensures none { IfOk result (λ o. IfNone o (SomeStops histories.now parts.now)) }
{
    let mut all = Vec::new(alloc);
    for i in 0..histories.len() {
        let came = goes_from(
            alloc,
            is_calm(calm, i),
            histories[i].as_slice(),
            parts[i].as_slice(),
        )?;
        let Some(came) = came else {
            return Ok(None);
        };
        all.push(came)?;
    }
    Ok(Some(all))
}
