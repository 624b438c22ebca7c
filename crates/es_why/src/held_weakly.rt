//! What is held weakly.

ghost use Rattle.std.specs.Prelude.{◌≡◌, ◌<◌, false, IfOk, OnOk};
ghost use Rattle.std.specs.Option.{option_and_then};
ghost use Rattle.es_event.specs.Identities.{identity, made, is_gone};
ghost use Rattle.es_event.specs.WeakRefs.{target};
ghost use Rattle.es_event.specs.Registrations.{registered};
ghost use Rattle.es_record.specs.Leading.{registration_said};
ghost use Rattle.es_why.specs.Flags.{Sets};
ghost use Rattle.es_why.specs.Weakly.{target_of, is_watched, TellsEntry, TellsMember, Passed, AreFlagged};

use crate::flags::Flags;
use es_record::AgentRecord;
use es_value::{Id, NoMemory, Value};
use std::alloc::Global;

/// All that WeakRefs, WeakMaps, WeakSets and FinalizationRegistries that are there hold weakly: targets,
/// keys, members and tokens. It fails for want of memory alone.
pub(crate) fn held_weakly(alloc: Global, agent: &AgentRecord) -> Result<Flags, NoMemory>
    ensures { IfOk result (AreFlagged agent.now.history) }
{
    let _ = agent.history();
    let mut flags = Flags::new(alloc, agent.identities())?;
    pass_identities(alloc, agent, &mut flags)?;
    pass_registrations(agent, &mut flags);
    Ok(flags)
}

/// Adds the target of each WeakRef, and each key of an entry and each member.
fn pass_identities(alloc: Global, agent: &AgentRecord, flags: &mut Flags) -> Result<(), NoMemory>
    requires { Passed agent.now.history 0 0 flags.old }
    ensures { OnOk result (Passed agent.now.history (made agent.now.history) 0 flags.new) }
{
    let _ = agent.history();
    let mut entries = Vec::new(alloc);
    let mut sets = Vec::new(alloc);
    for before in 0..agent.identities() {
        let id = Id::of(before + 1);
        flags.add_if(target_of(agent, id));
        flags.add_where(id, has_entry(agent, id, &mut entries)?);
        flags.add_where(id, is_member(agent, id, &mut sets)?);
    }
    Ok(())
}

/// The identity of the target of the WeakRef, if it is one that is there.
fn target_of(agent: &AgentRecord, weakref: Id) -> Option<Id>
    ensures { result ≡ target_of agent.now.history weakref }
{
    if agent.is_there(weakref) {
        target_there(agent, weakref)
    } else {
        None
    }
}

/// The identity of the target of what is there.
fn target_there(agent: &AgentRecord, weakref: Id) -> Option<Id>
    requires { is_gone agent.now.history weakref ≡ false }
    ensures { result ≡ option_and_then identity (target agent.now.history weakref) }
{
    match agent.target(weakref) {
        Some(target) => target.identity(),
        None => None,
    }
}

/// Whether a WeakMap has an entry under this key; `entries` is room for them.
fn has_entry(agent: &AgentRecord, key: Id, entries: &mut Vec<(Id, Value)>) -> Result<bool, NoMemory>
    ensures { IfOk result (TellsEntry agent.now.history key) }
{
    let _ = agent.history();
    entries.clear();
    agent.entries_under(key, entries)?;
    Ok(!entries.is_empty())
}

/// Whether a WeakSet has this member; `sets` is room for them.
fn is_member(agent: &AgentRecord, member: Id, sets: &mut Vec<Id>) -> Result<bool, NoMemory>
    ensures { IfOk result (TellsMember agent.now.history member) }
{
    let _ = agent.history();
    sets.clear();
    agent.sets_with(member, sets)?;
    Ok(!sets.is_empty())
}

/// Adds the target and the token of each registration whose cell is in its registry.
fn pass_registrations(agent: &AgentRecord, flags: &mut Flags)
    requires { Passed agent.now.history (made agent.now.history) 0 flags.old }
    ensures { Passed agent.now.history (made agent.now.history) (registered agent.now.history) flags.new }
{
    let _ = agent.history();
    for before in 0..agent.registered() {
        pass_registration(agent, before + 1, flags);
    }
}

/// Adds the target and the token of the registration, if its cell is in its registry.
fn pass_registration(agent: &AgentRecord, registration: usize, flags: &mut Flags)
    requires { 0 < registration }
    ensures { Sets (is_watched (registration_said agent.now.history registration)) flags.old flags.new }
{
    if let Some(kept) = agent.registration(registration) {
        flags.add_if(kept.target);
        flags.add_if(kept.token);
    }
}
