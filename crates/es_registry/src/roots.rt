//! What a collection must not empty on account of registries and their cells.

ghost use Rattle.std.specs.Prelude.{◌≡◌, ◌++◌, OnOk, map, slice_get};
ghost use Rattle.std.specs.List.{flat_map};
ghost use Rattle.std.specs.Option.{option_and_then, option_to_list};
ghost use Rattle.es_registry.specs.Slots.{held_identity};

use crate::slot::Slot;
use es_value::{Id, NoMemory};
use std::collections::HashMap;

/// Adds the registries.
pub(crate) fn add_registries(
    callbacks: &HashMap<Id, usize>,
    found: &mut Vec<Id>,
) -> Result<(), NoMemory>
    ensures { OnOk result (found.new.items ≡ found.old.items ++ map (λ e. e.0) callbacks.now.entries) }
{
    for (registry, _) in callbacks {
        found.push(*registry)?;
    }
    Ok(())
}

/// Adds the identities that cells at these places hold.
pub(crate) fn add_held(
    slots: &[Slot],
    places: &[usize],
    found: &mut Vec<Id>,
) -> Result<(), NoMemory>
    ensures { OnOk result (found.new.items ≡ found.old.items ++ flat_map (λ k. option_to_list (option_and_then held_identity (slice_get slots.now k))) places.now) }
{
    for place in places {
        add(found, held_at(slots, *place))?;
    }
    Ok(())
}

/// The identity that the cell at a place holds.
pub(crate) fn held_at(slots: &[Slot], place: usize) -> Option<Id>
    ensures { result ≡ option_and_then held_identity (slice_get slots.now place) }
{
    match slots.get(place) {
        Some(slot) => slot.held(),
        None => None,
    }
}

/// Adds the identity, if there is one.
fn add(found: &mut Vec<Id>, id: Option<Id>) -> Result<(), NoMemory>
    ensures { OnOk result (found.new.items ≡ found.old.items ++ option_to_list id) }
{
    match id {
        Some(id) => {
            found.push(id)?;
            Ok(())
        }
        None => Ok(()),
    }
}
