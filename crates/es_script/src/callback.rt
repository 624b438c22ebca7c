//! Callbacks, from their tokens.

ghost use Rattle.std.specs.Prelude.{◌≡◌, IfOk, OnOk, map, true, IsTrue};
ghost use Rattle.std.specs.BTreeMap.{insert_entry, values};
ghost use Rattle.es_reading.specs.Reading.{said};
ghost use Rattle.es_script.specs.Taking.{Took};
ghost use Rattle.es_script.specs.Drafts.{IsCallback, AreCallbacks};

use crate::command::run_in;
use crate::marks;
use crate::quit::Quit;
use es_event::{Callback, Sequence};
use es_reading::{KnownNames, Part, Place, Scope};
use es_value::{MOST_CALLBACKS, Name};
use json::Reader;
use std::alloc::Global;
use std::collections::BTreeMap;

/// The object of callbacks that comes next. They come in any order, and are kept by rising byte order of
/// their names; of a name that comes twice the last counts.
pub(crate) fn callbacks_in<'a>(
    names: &mut KnownNames,
    scope: &Scope,
    reader: &mut Reader<'a>,
    parts: &mut Vec<Part<'a>>,
    agent: usize,
) -> Result<Sequence<Callback>, Quit>
    ensures { IfOk result (λ cs. Took 3 (AreCallbacks (said scope.now) agent) reader.old cs reader.new) }
{
    marks::open_object(reader)?;
    let mut callbacks = BTreeMap::new(names.allocator());
    'callbacks: while let Some(key) = reader.next_key()? {
        let callback = callback_in(names, scope, reader, parts, agent, key)?;
        put(&mut callbacks, key, callback)?;
    }
    let callbacks = in_order(names.allocator(), callbacks)?;
    if callbacks.as_slice().len() > MOST_CALLBACKS {
        return Err(Quit::Unusual);
    }
    Ok(callbacks)
}

/// The callback with this name, whose commands come next.
fn callback_in<'a>(
    names: &mut KnownNames,
    scope: &Scope,
    reader: &mut Reader<'a>,
    parts: &mut Vec<Part<'a>>,
    agent: usize,
    name: &str,
) -> Result<Callback, Quit>
    ensures { IfOk result (λ c. Took 2 (IsCallback (said scope.now) agent name.now) reader.old c reader.new) }
{
    let name = names.read(name)?;
    let run = run_in(names, scope, reader, parts, Place::Callback(agent, 1))?;
    let catches = Sequence::new(names.allocator());
    Ok(Callback { name, run, catches })
}

/// Puts an entry into a map, in the place of one with the same key.
fn put<K: Ord + Drop, V: Drop>(map: &mut BTreeMap<K, V>, key: K, value: V) -> Result<(), Quit>
    ensures { OnOk result (map.new.entries ≡ insert_entry K.cmp map.old.entries key value) }
{
    map.insert(key, value)?;
    Ok(())
}

/// The callbacks by rising keys.
fn in_order(alloc: Global, callbacks: BTreeMap<&str, Callback>) -> Result<Sequence<Callback>, Quit>
    ensures { IfOk result (λ cs. cs ≡ values callbacks.entry) }
{
    let all: Vec<Callback> = callbacks.into_values().collect(alloc)?;
    Ok(Sequence::from_vec(all))
}

/// Whether these are the callbacks' names, in order.
pub(crate) fn are_named(callbacks: &[Callback], names: &[Name]) -> bool
    ensures { IsTrue result → map (λ c. c.name) callbacks.now ≡ names.now }
{
    if callbacks.len() != names.len() {
        return false;
    }
    for index in 0..names.len() {
        if callbacks[index].name != names[index] {
            return false;
        }
    }
    true
}
