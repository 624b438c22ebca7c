//! Which ways are told.

ghost use Rattle.std.specs.Prelude.{◌≡◌, ◌≤◌, ◌++◌, ◌∷◌, ◌||◌, ◌&&◌, [], IfOk, OnOk, if◌then◌else◌};
ghost use Rattle.std.specs.List.{AllByRecursion};
ghost use Rattle.es_value.specs.Ids.{is_in};
ghost use Rattle.es_mark.specs.Ways.{sources};
ghost use Rattle.es_why.specs.Flags.{is_set, Sets};
ghost use Rattle.es_why.specs.Kept.{ways_for};

use crate::flags::Flags;
use es_mark::{Step, Way};
use es_value::{Id, NoMemory};
use std::alloc::Global;

/// The ways to what the set has, and to what these come from, in their order. A way comes after those
/// that it comes from, so they are gone through from the last to the first.
pub(crate) fn ways_for(
    alloc: Global,
    told: &Flags,
    ways: &[Way],
    made: u32,
) -> Result<Vec<Way>, NoMemory>
    requires { AllByRecursion (λ w. w.value ≤ made) ways.now }
    ensures { IfOk result (λ ws. ws.items ≡ ways_for (is_set told.now) ways.now) }
{
    let mut needed = Flags::new(alloc, made)?;
    let mut chosen = Vec::new(alloc);
    for after in 0..ways.len() {
        let way = &ways[ways.len() - 1 - after];
        let tells = is_told(told, &needed, way.value);
        choose(tells, way, &mut needed, &mut chosen)?;
    }
    chosen.reverse();
    Ok(chosen)
}

/// Whether the identity is told, or a later way that is told comes from it.
fn is_told(told: &Flags, needed: &Flags, id: Id) -> bool
    ensures { result ≡ (is_set told.now id || is_set needed.now id) }
{
    told.has(id) || needed.has(id)
}

/// Where it is told, adds the way, and what it comes from to what is needed.
fn choose(tells: bool, way: &Way, needed: &mut Flags, chosen: &mut Vec<Way>) -> Result<(), NoMemory>
    ensures chosen { OnOk result (chosen.new.items ≡ chosen.old.items ++ (if tells then way.now ∷ [] else [])) }
    ensures needed { OnOk result (Sets (λ i. tells && is_in (sources way.now.step) i) needed.old needed.new) }
{
    if !tells {
        return Ok(());
    }
    add_sources(&way.step, needed);
    push_copy(chosen, way)
}

/// Adds what the step comes from.
fn add_sources(step: &Step, needed: &mut Flags)
    ensures { Sets (is_in (sources step.now)) needed.old needed.new }
{
    match step {
        Step::Variable(_) | Step::Kept | Step::Registry | Step::Held(_) => {}
        Step::Property(object, _) => needed.add(*object),
        Step::Entry(map, key) => {
            needed.add(*map);
            needed.add(*key);
        }
    }
}

/// Puts a copy of the item last. It fails where the list cannot grow.
fn push_copy<T: Copy>(list: &mut Vec<T>, item: &T) -> Result<(), NoMemory>
    ensures { OnOk result (list.new.items ≡ list.old.items ++ item.now ∷ []) }
{
    list.push(*item)?;
    Ok(())
}
