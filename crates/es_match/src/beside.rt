//! Going through the histories of several agents beside each other.

ghost use Rattle.std.specs.Prelude.{◌≡◌, ◌<◌, ℕ, [], true, Some, None, Ok, length, map, slice_index_or, IfOk, IfSome, IfNone};
ghost use Rattle.es_match.specs.Calm.{AreCalm};
ghost use Rattle.es_match.specs.Goes.{goes};
ghost use Rattle.es_match.specs.Meets.{nothing_came};
ghost use Rattle.es_match.specs.Split.{part_at};
ghost use Rattle.es_match.specs.Going.{AllGo, SomeStops};

use crate::calm::{goes_from, is_calm};
use crate::came::Came;
use crate::stretch::Stretch;
use es_event::{Event, Sequence};
use es_value::NoMemory;
use std::alloc::Global;
use std::thread;
use std::thread::Threads;

/// How many events a history has at least that is gone through in a thread of its own.
const MANY: usize = 10_000;

/// Whether one of several histories is long, and its agent not calm.
pub(crate) fn are_long(histories: &[Sequence<Event>], calm: &[bool]) -> bool {
    if histories.len() < 2 {
        return false;
    }
    for (i, history) in histories.iter().enumerate() {
        if history.as_slice().len() >= MANY && !is_calm(calm, i) {
            return true;
        }
    }
    false
}

/// What has come to each agent, if each history asks for what its agent's part has. Each history has a thread of
/// its own where one can be made.
pub(crate) fn all_go_beside<R: Threads + Sync>(
    rt: &R,
    alloc: Global,
    histories: &[Sequence<Event>],
    calm: &[bool],
    parts: &[Sequence<Stretch<'_>>],
) -> Result<Option<Vec<Came>>, NoMemory>
    requires size { length parts.now ≡ length histories.now }
    requires calm { AreCalm calm.now histories.now }
    ensures size { IfOk result (λ o. IfSome o (λ cs. length cs.items ≡ length histories.now)) }
    ensures some { IfOk result (λ o. IfSome o (λ cs. AllGo histories.now parts.now cs.items)) }
    ensures none { IfOk result (λ o. IfNone o (SomeStops histories.now parts.now)) }
{
    let gone = each_gone(rt, alloc, histories, calm, parts)?;
    all_of(alloc, gone)
}

/// What has come to each agent whose history asks for what its part has.
fn each_gone<R: Threads + Sync>(
    rt: &R,
    alloc: Global,
    histories: &[Sequence<Event>],
    calm: &[bool],
    parts: &[Sequence<Stretch<'_>>],
) -> Result<Vec<Result<Option<Came>, NoMemory>>, NoMemory>
    requires size { length parts.now ≡ length histories.now }
    requires calm { AreCalm calm.now histories.now }
    ensures size { IfOk result (λ v. length v.items ≡ length histories.now) }
    ensures each { IfOk result (λ v. (i : ℕ) (d : _) → i < length histories.now → IfOk (slice_index_or v.items i d) (λ o. o ≡ goes true nothing_came (slice_index_or histories.now i []) (part_at parts.now i))) }
{
    let gone = thread::map_indices(
        rt,
        alloc,
        histories.len(),
        &|i| {
            goes_from(
                alloc,
                is_calm(calm, i),
                histories[i].as_slice(),
                parts[i].as_slice(),
            )
        },
    )?;
    Ok(gone)
}

/// What came to each, if something came to each.
fn all_of(
    alloc: Global,
    gone: Vec<Result<Option<Came>, NoMemory>>,
) -> Result<Option<Vec<Came>>, NoMemory>
    ensures some { IfOk result (λ o. IfSome o (λ cs. gone.items ≡ map (λ c. Ok (Some c)) cs.items)) }
    ensures none { IfOk result (λ o. IfNone o ((a : ℕ) × (a < length gone.items) × (slice_index_or gone.items a (Ok None) ≡ Ok None))) }
{
    let mut all = Vec::new(alloc);
    for went in gone {
        let Some(came) = went? else {
            return Ok(None);
        };
        all.push(came)?;
    }
    Ok(Some(all))
}
