//! Which cells have a token, and taking them out.

ghost use Rattle.std.specs.Prelude.{◌≡◌, ℕ, ◌==◌, ◌&&◌, false, nat_eq, slice_get, if◌then◌else◌};
ghost use Rattle.std.specs.List.{list_any};
ghost use Rattle.std.specs.Option.{option_map};
ghost use Rattle.es_value.specs.Ids.{is_in};
ghost use Rattle.es_registry.specs.Places.{waits};
ghost use Rattle.es_registry.specs.Slots.{passes_at, has_token, unregistered_by, changed_if};

use crate::cells::Cells;
use crate::slot::Slot;
use crate::waiting::{self, Waiting};
use es_value::Id;

/// Whether the cell at one of these places is in the registry and has the token.
pub(crate) fn any_has_token(slots: &[Slot], places: &[usize], registry: Id, token: Id) -> bool
    ensures { result ≡ list_any (passes_at (has_token registry token) slots.now) places.now }
{
    places
        .iter()
        .any(|place| has_token_at(slots, *place, registry, token))
}

/// Whether the cell at a place is in the registry and has the token.
fn has_token_at(slots: &[Slot], place: usize, registry: Id, token: Id) -> bool
    ensures { result ≡ passes_at (has_token registry token) slots.now place }
{
    slots
        .get(place)
        .is_some_and(|slot| slot.has_token(registry, token))
}

/// Takes the cells at these places out that are in the registry and have the token.
pub(crate) fn take_out(
    cells: &mut Cells,
    waiting: &mut Waiting,
    places: &[usize],
    registry: Id,
    token: Id,
)
    ensures cells { (k : ℕ) → slice_get cells.new.all k ≡ option_map (changed_if (unregistered_by registry token) (is_in places.now k)) (slice_get cells.old.all k) }
    ensures waiting { (q k : ℕ) → waits waiting.new q k ≡ (if passes_at (has_token registry token) cells.old.all k && (nat_eq registry q && is_in places.now k) then false else waits waiting.old q k) }
{
    for place in places {
        take_out_at(cells, waiting, *place, registry, token);
    }
}

/// Takes the cell at a place out if it is in the registry and has the token.
fn take_out_at(cells: &mut Cells, waiting: &mut Waiting, place: usize, registry: Id, token: Id)
    ensures cells { (k : ℕ) → slice_get cells.new.all k ≡ option_map (changed_if (unregistered_by registry token) (place == k)) (slice_get cells.old.all k) }
    ensures waiting { (q k : ℕ) → waits waiting.new q k ≡ (if passes_at (has_token registry token) cells.old.all k && (nat_eq registry q && place == k) then false else waits waiting.old q k) }
{
    if !has_token_at(cells.all(), place, registry, token) {
        return;
    }
    cells.unregister(place);
    waiting::remove(waiting, registry, place);
}
