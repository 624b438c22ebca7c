//! What is around an object or a symbol: its properties, the entries under it, the WeakSets that have it, and
//! its target where it is a WeakRef.

ghost use Rattle.std.specs.Prelude.{◌≡◌, ◌++◌, ℕ, List, false, IfOk, OnOk};
ghost use Rattle.std.specs.Io.KnownBytes.{Appends};
ghost use Rattle.std.specs.List.{flat_map, range_with_len};
ghost use Rattle.std.specs.Option.{option_and_then};
ghost use Rattle.es_event.specs.Identities.{identity, is_gone, made};
ghost use Rattle.es_event.specs.Properties.{keys as keys_said};
ghost use Rattle.es_event.specs.WeakRefs.{target as target_said};
ghost use Rattle.es_why.specs.Picture.{around, entry_at, if_some, property_at, set_at, AreEntries, AreSets, IsAround, IsAroundAt, IsAroundEach};
ghost use Rattle.es_why.specs.Lines.{weak_line};

use crate::edge::{write_entry, write_property, write_weak};
use es_record::AgentRecord;
use es_value::{Id, Name, NoMemory, Value};
use std::alloc::Global;
use std::io;
use std::io::{ErrorKind, Write};

/// What an agent's record says of an object or a symbol, in so far as it takes a list.
#[derive(Drop)]
struct Around {
    /// The keys of its properties.
    keys: Vec<Name>,
    /// The WeakMaps that have an entry under it, each with the entry's value.
    entries: Vec<(Id, Value)>,
    /// The WeakSets that have it.
    sets: Vec<Id>,
}

/// Writes what is around each object and symbol that is there. It takes memory for what is around one of
/// them.
pub(crate) fn write_around_each<W: Write>(
    alloc: Global,
    agent: &AgentRecord,
    writer: &mut W,
) -> Result<(), io::Error>
    ensures { OnOk result ((text : List ℕ) × IsAroundEach agent.now.history (range_with_len 1 (made agent.now.history)) text × Appends (W.contents writer.old) (W.contents writer.new) text) }
{
    for before in 0..agent.identities() {
        let id = Id::of(before + 1);
        write_around_at(alloc, agent, id, writer)?;
    }
    Ok(())
}

fn write_around_at<W: Write>(
    alloc: Global,
    agent: &AgentRecord,
    id: Id,
    writer: &mut W,
) -> Result<(), io::Error>
    ensures { OnOk result ((text : List ℕ) × IsAroundAt agent.now.history id text × Appends (W.contents writer.old) (W.contents writer.new) text) }
{
    if !agent.is_there(id) {
        return Ok(());
    }
    write_around(alloc, agent, id, writer)
}

fn write_around<W: Write>(
    alloc: Global,
    agent: &AgentRecord,
    id: Id,
    writer: &mut W,
) -> Result<(), io::Error>
    requires { is_gone agent.now.history id ≡ false }
    ensures { OnOk result ((text : List ℕ) × IsAround agent.now.history id text × Appends (W.contents writer.old) (W.contents writer.new) text) }
{
    match around_of(alloc, agent, id) {
        Ok(around) => write_lists(
            agent,
            id,
            around.keys.as_slice(),
            around.entries.as_slice(),
            around.sets.as_slice(),
            writer,
        ),
        Err(NoMemory) => Err(io::Error::from(ErrorKind::OutOfMemory)),
    }
}

/// What the record says of an object or a symbol that is there.
fn around_of(alloc: Global, agent: &AgentRecord, id: Id) -> Result<Around, NoMemory>
    requires { is_gone agent.now.history id ≡ false }
    ensures keys { IfOk result (λ a. a.keys.items ≡ keys_said agent.now.history id) }
    ensures entries { IfOk result (λ a. AreEntries agent.now.history id a.entries.items) }
    ensures sets { IfOk result (λ a. AreSets agent.now.history id a.sets.items) }
{
    let keys = agent.keys_of_object(id)?;
    let entries = entries_of(alloc, agent, id)?;
    let sets = sets_of(alloc, agent, id)?;
    Ok(Around {
        keys,
        entries,
        sets,
    })
}

fn entries_of(alloc: Global, agent: &AgentRecord, key: Id) -> Result<Vec<(Id, Value)>, NoMemory>
    ensures { IfOk result (λ es. AreEntries agent.now.history key es.items) }
{
    let mut entries = Vec::new(alloc);
    agent.entries_under(key, &mut entries)?;
    Ok(entries)
}

fn sets_of(alloc: Global, agent: &AgentRecord, member: Id) -> Result<Vec<Id>, NoMemory>
    ensures { IfOk result (λ ss. AreSets agent.now.history member ss.items) }
{
    let mut sets = Vec::new(alloc);
    agent.sets_with(member, &mut sets)?;
    Ok(sets)
}

fn write_lists<W: Write>(
    agent: &AgentRecord,
    id: Id,
    keys: &[Name],
    entries: &[(Id, Value)],
    sets: &[Id],
    writer: &mut W,
) -> Result<(), io::Error>
    requires here { is_gone agent.now.history id ≡ false }
    requires keys { keys.now ≡ keys_said agent.now.history id }
    ensures { OnOk result (Appends (W.contents writer.old) (W.contents writer.new) (around agent.now.history id entries.now sets.now)) }
{
    write_properties(agent, id, keys, writer)?;
    write_entries(id, entries, writer)?;
    write_sets(id, sets, writer)?;
    write_weakref(agent, id, writer)
}

fn write_properties<W: Write>(
    agent: &AgentRecord,
    object: Id,
    keys: &[Name],
    writer: &mut W,
) -> Result<(), io::Error>
    requires { is_gone agent.now.history object ≡ false }
    ensures { OnOk result (Appends (W.contents writer.old) (W.contents writer.new) (flat_map (property_at agent.now.history object) keys.now)) }
{
    for key in keys {
        write_property_at(agent, object, key, writer)?;
    }
    Ok(())
}

fn write_property_at<W: Write>(
    agent: &AgentRecord,
    object: Id,
    key: &Name,
    writer: &mut W,
) -> Result<(), io::Error>
    requires { is_gone agent.now.history object ≡ false }
    ensures { OnOk result (Appends (W.contents writer.old) (W.contents writer.new) (property_at agent.now.history object key.now)) }
{
    match agent.property(object, key) {
        Some(value) => write_property(object, key, value.identity(), writer),
        None => Ok(()),
    }
}

fn write_entries<W: Write>(
    key: Id,
    entries: &[(Id, Value)],
    writer: &mut W,
) -> Result<(), io::Error>
    ensures { OnOk result (Appends (W.contents writer.old) (W.contents writer.new) (flat_map (entry_at key) entries.now)) }
{
    for entry in entries {
        write_entry(entry.0, key, entry.1.identity(), writer)?;
    }
    Ok(())
}

fn write_sets<W: Write>(member: Id, sets: &[Id], writer: &mut W) -> Result<(), io::Error>
    ensures { OnOk result (Appends (W.contents writer.old) (W.contents writer.new) (flat_map (set_at member) sets.now)) }
{
    for set in sets {
        write_weak(*set, Some(member), writer)?;
    }
    Ok(())
}

/// Writes the target of a WeakRef, if it is one and its target is not emptied.
fn write_weakref<W: Write>(
    agent: &AgentRecord,
    weakref: Id,
    writer: &mut W,
) -> Result<(), io::Error>
    requires { is_gone agent.now.history weakref ≡ false }
    ensures { OnOk result (Appends (W.contents writer.old) (W.contents writer.new) (if_some (weak_line weakref) (option_and_then identity (target_said agent.now.history weakref)))) }
{
    match agent.target(weakref) {
        Some(target) => write_weak(weakref, target.identity(), writer),
        None => Ok(()),
    }
}
