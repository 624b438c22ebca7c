//! Each agent's part in a ledger's history.

ghost use Rattle.std.specs.Prelude.{◌≡◌, ◌<◌, ◌≤◌, ◌+◌, ◌++◌, ◌∷◌, ℕ, [], length, reverse, take, drop, true, false, None, OnOk, IfOk, IfSome, MatchOption, ◌≢◌};
ghost use Rattle.es_event.specs.Ledger.{Ledger};
ghost use Rattle.es_match.specs.Orderly.{is_known, orderly};
ghost use Rattle.es_match.specs.DeedsShown.{owned, shown};
ghost use Rattle.es_match.specs.Split.{IsSplit, IsStep, added, part_at};
ghost use Rattle.es_match.specs.LedgerPass.{Says};
ghost use Rattle.es_match.specs.Words.{AreWordsAfter, words_said};

use crate::deed::Deed;
use crate::doing::is_wait;
use crate::ledger_pass::LedgerPass;
use crate::stretch::Stretch;
use crate::words::words_after;
use es_event::{LedgerEvent, Sequence};
use es_value::NoMemory;
use std::alloc::Global;

/// Empty parts of so many agents.
fn no_parts<'a>(alloc: Global, agents: usize) -> Result<Vec<Sequence<Stretch<'a>>>, NoMemory>
    ensures size { IfOk result (λ v. length v.items ≡ agents) }
    ensures empty { IfOk result (λ v. (a : ℕ) → part_at v.items a ≡ []) }
{
    let mut parts = Vec::new(alloc);
    for _ in 0..agents {
        parts.push(Sequence::new(alloc))?;
    }
    Ok(parts)
}

fn add_stretch<'a>(
    parts: &mut Vec<Sequence<Stretch<'a>>>,
    agent: usize,
    first: Deed<'a>,
    words: &'a [LedgerEvent],
) -> Result<(), NoMemory>
    requires { agent < length parts.old.items }
    ensures size { OnOk result (length parts.new.items ≡ length parts.old.items) }
    ensures here { OnOk result (part_at parts.new.items agent ≡ part_at parts.old.items agent ++ shown first.entry ∷ words_said words.now) }
    ensures others { OnOk result ((a : ℕ) → a ≢ agent → part_at parts.new.items a ≡ part_at parts.old.items a) }
{
    parts[agent].push(Stretch { first, words })
}

/// Adds what an agent does to its part, with the words that follow it, unless it is a wait.
fn add<'a>(
    parts: &mut Vec<Sequence<Stretch<'a>>>,
    doing: Option<(usize, Deed<'a>)>,
    words: &'a [LedgerEvent],
) -> Result<(), NoMemory>
    requires { is_known (length parts.old.items) (owned doing) ≡ true }
    ensures size { OnOk result (length parts.new.items ≡ length parts.old.items) }
    ensures more { OnOk result ((a : ℕ) → part_at parts.new.items a ≡ part_at parts.old.items a ++ added a (owned doing.entry) (words_said words.now)) }
{
    match doing {
        None => Ok(()),
        Some((agent, deed)) => {
            if is_wait(&deed) {
                return Ok(());
            }
            add_stretch(parts, agent, deed, words)
        }
    }
}

/// How many events follow one that is somebody's deed, and read or write words as it does.
fn following(doing: &Option<(usize, Deed<'_>)>, event: &LedgerEvent, later: &[LedgerEvent]) -> usize
    ensures within { result ≤ length later.now }
    ensures nobodys { owned doing.now ≡ None → take result later.now ≡ [] }
    ensures words { AreWordsAfter event.now (take result later.now) }
{
    match doing {
        Some(_) => words_after(event, later),
        None => 0,
    }
}

/// Notes the next event, and adds it to the part of the agent whose deed it is, with those of the later ones that read
/// or write words as it does. How many of the later ones that were; none where the event may not come.
fn step<'a>(
    alloc: Global,
    pass: &mut LedgerPass<'a>,
    parts: &mut Vec<Sequence<Stretch<'a>>>,
    event: &'a LedgerEvent,
    later: &'a [LedgerEvent],
) -> Result<Option<usize>, NoMemory>
    ensures within { IfOk result (λ o. IfSome o (λ k. k ≤ length later.now)) }
    ensures step { IfOk result (λ o. (n : ℕ) (l : Ledger) → Says l pass.old → IsSplit n l parts.old.items → IsStep o n l event.now later.now pass.new parts.new.items) }
{
    let doing = pass.deed(event);
    let comes = pass.may_come(parts.len(), &doing);
    if !comes {
        return Ok(None);
    }
    let count = following(&doing, event, later);
    add(parts, doing, &later[..count])?;
    pass.note(alloc, event)?;
    Ok(Some(count))
}

/// The events after that at the place.
fn after(ledger: &[LedgerEvent], place: usize) -> &[LedgerEvent]
    requires { place < length ledger.now }
    ensures { result.now ≡ drop (place + 1) ledger.now }
{
    &ledger[place + 1..]
}

/// The parts of so many agents, the oldest deed first, without waits; none where an agent does not wait
/// for its message, does something after a drain, or is not there.
pub fn parts_of<'a>(
    alloc: Global,
    agents: usize,
    ledger: &'a [LedgerEvent],
) -> Result<Option<Vec<Sequence<Stretch<'a>>>>, NoMemory>
    ensures { IfOk result (λ o. MatchOption o (orderly agents (reverse ledger.now) ≡ false) (λ ps. IsSplit agents (reverse ledger.now) ps.items)) }
{
    let mut pass = LedgerPass::new(alloc);
    let mut parts = no_parts(alloc, agents)?;
    let mut place = 0;
    while place < ledger.len() {
        let later = after(ledger, place);
        let came = step(alloc, &mut pass, &mut parts, &ledger[place], later)?;
        match came {
            Some(count) => place += 1 + count,
            None => return Ok(None),
        }
    }
    Ok(Some(parts))
}
