//! The values that stay, each with what keeps it.

ghost use Rattle.std.specs.Prelude.{◌≡◌, ◌<◌, ◌++◌, ◌∷◌, [], true, false, length, map, IfOk, OnOk};
ghost use Rattle.std.specs.List.{AllByRecursion};
ghost use Rattle.es_event.specs.Identities.{is_gone};
ghost use Rattle.es_event.specs.Properties.{keys as keys_said};
ghost use Rattle.es_mark.specs.declared.kept.Reason.TheVariants.{Variable as ByVariable, Property as ByProperty};
ghost use Rattle.es_why.specs.Chosen.{AreKeysOf};
ghost use Rattle.es_why.specs.Kept.{at_place, reason_of, kept_by, AreKept};
ghost use Rattle.es_why.specs.Leads.{LeadsTo, AreReasons};

use crate::held_weakly::held_weakly;
use crate::keys_read::KeysRead;
use crate::reasons::{Reasons, find_reasons};
use crate::telling::ways_for;
use es_mark::{Kept, Reason, Step, Way};
use es_record::AgentRecord;
use es_value::{Id, Name, NoMemory};
use std::alloc::Global;

/// The values that the agent reaches, each with what keeps it, after those that its way comes from: all of
/// them, or those that are held weakly with all that lies on their ways. It fails for want of memory alone.
pub fn kept_values(alloc: Global, agent: &AgentRecord, all: bool) -> Result<Vec<Kept>, NoMemory>
    ensures { IfOk result (λ ks. AreKept agent.now all ks.items) }
{
    let reasons = find_reasons(alloc, agent)?;
    if all {
        all_kept(alloc, agent, &reasons)
    } else {
        weakly_kept(alloc, agent, &reasons)
    }
}

/// All of them.
fn all_kept(alloc: Global, agent: &AgentRecord, reasons: &Reasons) -> Result<Vec<Kept>, NoMemory>
    requires { AreReasons agent.now reasons.now.names.items reasons.now.ways.list.items }
    ensures { IfOk result (λ ks. AreKept agent.now true ks.items) }
{
    let ways = reasons.ways.list.as_slice();
    kept_by(alloc, agent, reasons.names.as_slice(), ways)
}

/// Those that are held weakly, with all that lies on their ways.
fn weakly_kept(alloc: Global, agent: &AgentRecord, reasons: &Reasons) -> Result<Vec<Kept>, NoMemory>
    requires { AreReasons agent.now reasons.now.names.items reasons.now.ways.list.items }
    ensures { IfOk result (λ ks. AreKept agent.now false ks.items) }
{
    let _ = agent.history();
    let told = held_weakly(alloc, agent)?;
    let ways = reasons.ways.list.as_slice();
    let chosen = ways_for(alloc, &told, ways, agent.identities())?;
    kept_by(alloc, agent, reasons.names.as_slice(), chosen.as_slice())
}

/// The values of these ways, each with what keeps it.
fn kept_by(
    alloc: Global,
    agent: &AgentRecord,
    names: &[Name],
    ways: &[Way],
) -> Result<Vec<Kept>, NoMemory>
    requires { AllByRecursion (λ w. LeadsTo agent.now names.now w.step w.value) ways.now }
    ensures { IfOk result (λ ks. ks.items ≡ map (kept_by agent.now.history names.now) ways.now) }
{
    let mut kept = Vec::new(alloc);
    let mut read = KeysRead::new(alloc);
    for way in ways {
        add(agent, names, way, &mut read, &mut kept)?;
    }
    Ok(kept)
}

/// Adds the value of the way with what keeps it.
fn add(
    agent: &AgentRecord,
    names: &[Name],
    way: &Way,
    read: &mut KeysRead,
    kept: &mut Vec<Kept>,
) -> Result<(), NoMemory>
    requires led { LeadsTo agent.now names.now way.now.step way.now.value }
    requires read { AreKeysOf agent.now.history read.old.object read.old.keys.items }
    ensures kept { OnOk result (kept.new.items ≡ kept.old.items ++ kept_by agent.now.history names.now way.now ∷ []) }
    ensures read { OnOk result (AreKeysOf agent.now.history read.new.object read.new.keys.items) }
{
    let reason = reason_of(agent, names, way, read)?;
    let value = way.value;
    kept.push(Kept { value, reason })?;
    Ok(())
}

/// The last step of the way in the words of the plan.
fn reason_of(
    agent: &AgentRecord,
    names: &[Name],
    way: &Way,
    read: &mut KeysRead,
) -> Result<Reason, NoMemory>
    requires led { LeadsTo agent.now names.now way.now.step way.now.value }
    requires read { AreKeysOf agent.now.history read.old.object read.old.keys.items }
    ensures said { IfOk result (λ r. r ≡ reason_of agent.now.history names.now way.now.step) }
    ensures read { OnOk result (AreKeysOf agent.now.history read.new.object read.new.keys.items) }
{
    match &way.step {
        Step::Variable(place) => by_variable(names, *place),
        Step::Kept => Ok(Reason::KeptAlive),
        Step::Registry => Ok(Reason::Registry),
        Step::Held(registration) => Ok(Reason::Registration(*registration)),
        Step::Property(object, place) => by_property(agent, *object, *place, read),
        Step::Entry(map, key) => Ok(Reason::Entry(*map, *key)),
    }
}

/// The variable whose name has this place.
fn by_variable(names: &[Name], place: usize) -> Result<Reason, NoMemory>
    requires { place < length names.now }
    ensures { IfOk result (λ r. r ≡ ByVariable (at_place names.now place)) }
{
    Ok(Reason::Variable(names[place].copy()?))
}

/// The property of the object whose key has this place.
fn by_property(
    agent: &AgentRecord,
    object: Id,
    place: usize,
    read: &mut KeysRead,
) -> Result<Reason, NoMemory>
    requires here { is_gone agent.now.history object ≡ false }
    requires within { place < length (keys_said agent.now.history object) }
    requires read { AreKeysOf agent.now.history read.old.object read.old.keys.items }
    ensures said { IfOk result (λ r. r ≡ ByProperty object (at_place (keys_said agent.now.history object) place)) }
    ensures read { OnOk result (AreKeysOf agent.now.history read.new.object read.new.keys.items) }
{
    read.read(agent, object)?;
    Ok(Reason::Property(object, read.keys[place].copy()?))
}
