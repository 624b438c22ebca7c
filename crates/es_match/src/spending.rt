//! The tickets that an agent spends at a collection or at its end.

ghost use Rattle.std.specs.Prelude.{◌≡◌, ℕ, List, Some, IfOk, OnOk};
ghost use Rattle.std.specs.HashMap.{Updates};
ghost use Rattle.es_match.specs.Counts.{count_in, IsLeft, Struck};
ghost use Rattle.es_match.specs.Meets.{ends, spends};
ghost use Rattle.es_match.specs.DeedsShown.{all_shown};

use crate::deed::Deed;
use es_value::NoMemory;
use std::alloc::Global;
use std::collections::HashMap;
use std::hash::Hash;

/// The serials of the tickets that are still to be spent.
#[derive(Drop)]
struct Left {
    /// How often each is there.
    counts: HashMap<u64, usize>,
    /// How many there are.
    size: usize,
}

fn count_of(counts: &HashMap<u64, usize>, serial: u64) -> usize
    ensures { result ≡ count_in counts.now serial }
{
    match counts.get(&serial) {
        Some(count) => *count,
        None => 0,
    }
}

/// Puts a value under a key.
fn put<K: Eq + Hash + Drop, V: Drop>(
    map: &mut HashMap<K, V>,
    key: K,
    value: V,
) -> Result<(), NoMemory>
    ensures { OnOk result (Updates K.eq map.old map.new key (Some value)) }
{
    map.insert(key, value)?;
    Ok(())
}

impl Left {
    fn of(alloc: Global, serials: &[u64]) -> Result<Left, NoMemory>
        ensures { IfOk result (λ l. IsLeft serials.now l) }
    {
        let mut counts = HashMap::new(alloc);
        for serial in serials {
            let count = count_of(&counts, *serial);
            put(&mut counts, *serial, count + 1)?;
        }
        Ok(Left {
            counts,
            size: serials.len(),
        })
    }

    /// Strikes a serial off, if it is there. Whether it was there.
    fn strike(&mut self, serial: u64) -> Result<bool, NoMemory>
        ensures { IfOk result (λ b. (ns : List ℕ) → IsLeft ns self.old → Struck b ns serial self.new) }
    {
        let count = count_of(&self.counts, serial);
        if count == 0 {
            return Ok(false);
        }
        put(&mut self.counts, serial, count - 1)?;
        self.size = self.size.saturating_sub(1);
        Ok(true)
    }
}

fn is_end(closing: bool, deeds: &[Deed<'_>]) -> bool
    ensures { result ≡ ends closing (all_shown deeds.now) }
{
    if closing {
        deeds.len() == 1 && matches!(deeds[0], Deed::End)
    } else {
        deeds.is_empty()
    }
}

/// Whether each serial is spent once, in any order, and nothing else is done, but for the agent's end at a
/// closing.
pub(crate) fn are_spent(
    alloc: Global,
    closing: bool,
    serials: &[u64],
    deeds: &[Deed<'_>],
) -> Result<bool, NoMemory>
    ensures { IfOk result (λ b. b ≡ spends closing serials.now (all_shown deeds.now)) }
{
    let mut left = Left::of(alloc, serials)?;
    for i in 0..deeds.len() {
        if left.size == 0 {
            return Ok(is_end(closing, &deeds[i..]));
        }
        let Deed::Spend { serial } = deeds[i] else {
            return Ok(false);
        };
        let there = left.strike(serial)?;
        if !there {
            return Ok(false);
        }
    }
    Ok(left.size == 0 && !closing)
}
