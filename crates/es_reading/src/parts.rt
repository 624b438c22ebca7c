//! The parts of a JSON value. A part that is not there reads as an empty one: the shape of a plan's
//! value is tested before its parts are read.

ghost use Rattle.std.specs.Prelude.{◌≡◌, ◌==◌, nat_le, map, option_map};
ghost use Rattle.serde_json.specs.View.{view, items_of, items_view, members_view};
ghost use Rattle.serde_json.specs.Events.{items_len, members_len};
ghost use Rattle.es_reading.specs.Parts.{items_in, members_in, text_in};

use crate::part::Seen;
use serde_json::{Map, Value};
use std::alloc::Global;

/// The items of an array, and none of any other value.
pub(crate) fn items(value: Option<&Value>) -> &[Value]
    ensures { items_view result.now ≡ items_in (option_map (λ v. view v.now) value.entry) }
{
    match value {
        Some(Value::Array(list)) => list.as_slice(),
        _ => &[],
    }
}

/// The items of an array, which loses them, and none of any other value.
pub fn taken_items(alloc: Global, value: Option<&mut Value>) -> Vec<Value>
    ensures { items_view result.items ≡ items_in (option_map (λ v. view v.now) value.entry) }
{
    match value {
        Some(value) => match value.take() {
            Value::Array(list) => list,
            _ => Vec::new(alloc),
        },
        None => Vec::new(alloc),
    }
}

/// The bytes of a text, and none of any other value.
pub(crate) fn text(value: Option<&Value>) -> &str
    ensures { result.now ≡ text_in (option_map (λ v. view v.now) value.entry) }
{
    match value {
        Some(Value::String(text)) => text.as_str(),
        _ => "",
    }
}

/// Whether an array has at most so many items.
pub(crate) fn has_at_most(list: &[Value], most: usize) -> bool
    ensures { result ≡ nat_le (items_len (items_view list.now)) most }
{
    list.len() <= most
}

/// Whether an array has exactly so many items.
pub(crate) fn has_exactly<V: Seen>(list: &[V], count: usize) -> bool
    ensures { result ≡ (items_len (items_of (map V.shown list.now)) == count) }
{
    list.len() == count
}

/// How many members an object has, and 0 for any other value.
pub fn member_count(value: Option<&Value>) -> usize
    ensures { result ≡ members_len (members_in (option_map (λ v. view v.now) value.entry)) }
{
    match value {
        Some(Value::Object(members)) => count_of(members),
        _ => 0,
    }
}

fn count_of(members: &Map<String, Value>) -> usize
    ensures { result ≡ members_len (members_view members.now.entries) }
{
    members.len()
}

/// Whether an object has at most so many members.
pub(crate) fn has_at_most_members(value: Option<&Value>, most: usize) -> bool
    ensures { result
        ≡ nat_le (members_len (members_in (option_map (λ v. view v.now) value.entry))) most }
{
    member_count(value) <= most
}
