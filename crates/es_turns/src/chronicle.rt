//! Who writes what each turn tells.

ghost use Rattle.std.specs.Prelude.{◌≡◌, ◌++◌, ◌<◌, ◌≤◌, ◌^◌, ℕ, [], List, Some, length, slice_get, slice_set, IfOk, OnOk};
ghost use Rattle.std.specs.List.{AllByRecursion};
ghost use Rattle.es_record.specs.AgentView.{AgentView};
ghost use Rattle.es_cluster.specs.State.{cores, names_of as names_said};
ghost use Rattle.es_cluster.specs.Turns.{Takes};
ghost use Rattle.es_trace.specs.Keeping.{Keeps};
ghost use Rattle.es_turns.specs.Told.{IsMoveTold, told_from};
ghost use Rattle.es_turns.specs.Known.{Expects, Grows, HaveScribes, IsUnbegun, Knows, Says, Tells, so_far};

use crate::blocks::Blocks;
use crate::ledger::tell_events;
use crate::newest::tell_newest;
use es_agent::AgentCore;
use es_cluster::{ClusterCore, Member, Planned, Progress, Watcher};
use es_event::LedgerEvent;
use es_options::View;
use es_trace::Scribe;
use es_value::{Name, NoMemory};
use std::alloc::Global;

/// Who writes what each turn tells: for each agent where its events led it, what is known of the ledger's blocks, and
/// how many of its events are written.
#[derive(Drop)]
pub(crate) struct Chronicle {
    alloc: Global,
    view: View,
    names: Vec<Name>,
    scribes: Vec<Scribe>,
    blocks: Blocks,
    written: usize,
    pub(crate) text: Vec<u8>,
}

impl Chronicle {
    /// Of a cluster before its first event.
    pub(crate) fn new<L: Planned>(
        alloc: Global,
        view: View,
        cluster: &ClusterCore<L>,
    ) -> Result<Chronicle, NoMemory>
        requires { IsUnbegun cluster.now }
        ensures knows { IfOk result (Knows cluster.now) }
        ensures view { IfOk result (λ w. w.view ≡ view) }
        ensures text { IfOk result (λ w. w.text.items ≡ []) }
    {
        let names = names_of(alloc, cluster.members())?;
        let scribes = scribes_of(alloc, names.as_slice(), cluster.members())?;
        Ok(Chronicle {
            alloc,
            view,
            names,
            scribes,
            blocks: Blocks::new(alloc),
            written: 0,
            text: Vec::new(alloc),
        })
    }

    /// Writes what the event tells that the agent got, if it moved.
    fn write_moved<L: Planned>(
        &mut self,
        progress: Progress,
        number: usize,
        agent: &AgentCore<L>,
    ) -> Result<(), NoMemory>
        requires { number < length self.old.scribes.items }
        ensures same { (self.new.view ≡ self.old.view) × (self.new.names.items ≡ self.old.names.items) × (self.new.written ≡ self.old.written) × (self.new.blocks ≡ self.old.blocks) }
        ensures scribes { OnOk result ((bs : List AgentView) (b : AgentView) → slice_get bs number ≡ Some b → HaveScribes self.old.names.items bs self.old.scribes.items → Takes progress b agent.now → HaveScribes self.old.names.items (slice_set bs number agent.now) self.new.scribes.items) }
        ensures text { OnOk result ((bs : List AgentView) (b : AgentView) → slice_get bs number ≡ Some b → HaveScribes self.old.names.items bs self.old.scribes.items → Takes progress b agent.now → Grows self.old.text.items self.new.text.items (IsMoveTold self.old.view self.old.names.items progress (Some agent.now))) }
    {
        match progress {
            Progress::Moved => tell_newest(
                self.alloc,
                self.view,
                self.names.as_slice(),
                agent,
                &mut self.scribes[number],
                &mut self.text,
            ),
            Progress::Waiting | Progress::Ended => Ok(()),
        }
    }

    /// Writes what the ledger's events tell that are not written yet.
    pub(crate) fn write_added<L: Planned>(
        &mut self,
        cluster: &ClusterCore<L>,
    ) -> Result<(), NoMemory>
        requires written { self.old.written ≤ length cluster.now.ledger.history }
        requires blocks { Says (so_far self.old.written cluster.now.ledger.history) self.old.blocks }
        ensures same { (self.new.view ≡ self.old.view) × (self.new.names.items ≡ self.old.names.items) × (self.new.scribes.items ≡ self.old.scribes.items) }
        ensures written { OnOk result (self.new.written ≡ length cluster.now.ledger.history) }
        ensures blocks { OnOk result (Says cluster.now.ledger.history self.new.blocks) }
        ensures text { OnOk result (self.new.text.items ≡ self.old.text.items ++ told_from self.old.view.form self.old.names.items self.old.written cluster.now.ledger.history) }
    {
        let events = cluster.ledger();
        let count = count_of(events);
        let rest = &events[self.written..];
        self.blocks.note(rest)?;
        let released = self.blocks.released(self.alloc, rest, cluster)?;
        self.written = count;
        tell_events(
            self.alloc,
            self.view.form,
            self.names.as_slice(),
            rest,
            released.as_slice(),
            &mut self.text,
        )
    }
}

impl Watcher for Chronicle {
    ghost knows = { Knows };

    ghost expects = { Expects };

    ghost tells = { Tells };

    fn turning<L: Planned>(
        &mut self,
        _cluster: &ClusterCore<L>,
        _agent: usize,
    ) -> Result<(), NoMemory> {
        Ok(())
    }

    fn turned<L: Planned>(
        &mut self,
        cluster: &ClusterCore<L>,
        agent: usize,
        progress: Progress,
    ) -> Result<(), NoMemory> {
        self.write_moved(progress, agent, cluster.agent(agent))?;
        self.write_added(cluster)
    }
}

/// How many events these are.
fn count_of(events: &[LedgerEvent]) -> usize
    ensures value { result ≡ length events.now }
    ensures small { result < 2 ^ 64 }
{
    events.len()
}

/// The names of agents.
fn names_of<L: Planned>(alloc: Global, members: &[Member<L>]) -> Result<Vec<Name>, NoMemory>
    ensures { IfOk result (λ names. names.items ≡ names_said (cores members.now)) }
{
    let mut names = Vec::new(alloc);
    for member in members {
        names.push(member.core().plan().name.copy()?)?;
    }
    Ok(names)
}

/// A scribe for each agent, before its first event.
fn scribes_of<L: Planned>(
    alloc: Global,
    names: &[Name],
    members: &[Member<L>],
) -> Result<Vec<Scribe>, NoMemory>
    requires { AllByRecursion (λ b. b.history ≡ []) (cores members.now) }
    ensures { IfOk result (λ scribes. HaveScribes names.now (cores members.now) scribes.items) }
{
    let mut scribes = Vec::new(alloc);
    for member in members {
        let Ok(scribe) = Scribe::new(alloc, names, member.core().plan()) else {
            return Err(NoMemory);
        };
        scribes.push(scribe)?;
    }
    Ok(scribes)
}
