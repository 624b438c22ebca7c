//! What the pieces found is marked, in order of the pieces.

ghost use Rattle.std.specs.Prelude.{◌≡◌, ◌<◌, ◌≤◌, ◌∷◌, [], OnOk, length, slice_range};
ghost use Rattle.std.specs.List.{AllByRecursion, flat_map};
ghost use Rattle.es_mark.specs.Listed.{IsAdded};
ghost use Rattle.es_mark.specs.Steps.{IsStep};
ghost use Rattle.es_mark.specs.Waiting.{waiting_for};
ghost use Rattle.es_parmark.specs.Pairs.{HasPairs};

use crate::expanding::Part;
use es_mark::{Reached, Waiting};
use es_value::{Id, NoMemory};

/// Marks the identities of each part.
pub(crate) fn add_parts(parts: &[Part], reached: &mut Reached) -> Result<(), NoMemory>
    requires { AllByRecursion (λ i. i < length reached.old.marks) (flat_map (λ p. p.ids.items) parts.now) }
    ensures added { OnOk result (IsAdded (flat_map (λ p. p.ids.items) parts.now) reached.old.order.items reached.new.order.items) }
    ensures room { OnOk result (length reached.new.marks ≡ length reached.old.marks) }
{
    for part in parts {
        reached.add_all(part.ids.as_slice())?;
    }
    Ok(())
}

/// Marks the value of each part's entry whose map is marked, and lets the others wait for their maps.
pub(crate) fn enter_parts(
    parts: &[Part],
    reached: &mut Reached,
    waiting: &mut Waiting,
) -> Result<(), NoMemory>
    requires { AllByRecursion (λ p. p.1 < length reached.old.marks) (flat_map (λ p. p.pairs.items) parts.now) }
    ensures step { OnOk result (IsStep (HasPairs (flat_map (λ p. p.pairs.items) parts.now)) reached.old.order.items waiting.old reached.new.order.items waiting.new) }
    ensures room { OnOk result (length reached.new.marks ≡ length reached.old.marks) }
{
    for part in parts {
        enter_pairs(part.pairs.as_slice(), reached, waiting)?;
    }
    Ok(())
}

/// Marks the second of each pair whose first is marked, and lets the others wait.
fn enter_pairs(
    pairs: &[(Id, Id)],
    reached: &mut Reached,
    waiting: &mut Waiting,
) -> Result<(), NoMemory>
    requires { AllByRecursion (λ p. p.1 < length reached.old.marks) pairs.now }
    ensures step { OnOk result (IsStep (HasPairs pairs.now) reached.old.order.items waiting.old reached.new.order.items waiting.new) }
    ensures room { OnOk result (length reached.new.marks ≡ length reached.old.marks) }
{
    for pair in pairs {
        enter_pair(pair, reached, waiting)?;
    }
    Ok(())
}

/// Marks the second if the first is marked, and lets it wait for the first otherwise. One that is marked
/// already need not wait.
fn enter_pair(pair: &(Id, Id), reached: &mut Reached, waiting: &mut Waiting) -> Result<(), NoMemory>
    requires { pair.now.1 < length reached.old.marks }
    ensures step { OnOk result (IsStep (HasPairs (pair.now ∷ [])) reached.old.order.items waiting.old reached.new.order.items waiting.new) }
    ensures room { OnOk result (length reached.new.marks ≡ length reached.old.marks) }
{
    if reached.marks.has(pair.0) {
        return reached.add(pair.1);
    }
    if reached.marks.has(pair.1) {
        return Ok(());
    }
    waiting.add(pair.0, pair.1)
}

/// Marks what waited for the identities between these places of the list.
pub(crate) fn release(
    from: usize,
    to: usize,
    reached: &mut Reached,
    waiting: &Waiting,
) -> Result<(), NoMemory>
    requires fit { AllByRecursion (λ m. AllByRecursion (λ i. i < length reached.old.marks) (waiting_for waiting.now m)) reached.old.order.items }
    requires from { from ≤ to }
    requires to { to ≤ length reached.old.order.items }
    ensures added { OnOk result (IsAdded (flat_map (waiting_for waiting.now) (slice_range reached.old.order.items from to)) reached.old.order.items reached.new.order.items) }
    ensures room { OnOk result (length reached.new.marks ≡ length reached.old.marks) }
{
    if waiting.is_empty() {
        return Ok(());
    }
    for at in from..to {
        let id = reached.order[at];
        reached.add_all(waiting.at(id))?;
    }
    Ok(())
}
