//! The helpers that mark for a run.

ghost use Rattle.std.specs.Prelude.{◌≡◌, ◌<◌, ◌≤◌, IfOk};
ghost use Rattle.es_record.specs.Graph.{AreMarksOf, AreLateMarks};
ghost use Rattle.es_rules.specs.Needs.{need, asks_late_marks};
ghost use Rattle.es_cluster.specs.Turned.{AreAskedFor, AsksMarks};

use crate::marked::{Marked, Pending};
use es_agent::AgentCore;
use es_cluster::{Member, Planned};
use es_mark::Marks;
use es_parmark::{Snapshot, mark_more, mark_parallel, mark_with};
use es_value::NoMemory;
use std::alloc::Global;
use std::sync::Arc;
use std::thread::{Scope, Threads};

/// How many helpers mark what an agent reaches, 1 to 8, and where their memory comes from.
#[derive(Clone, Copy)]
pub(crate) struct Helpers {
    alloc: Global,
    number: u8,
    ghost some: { 0 < number },
    ghost most: { number ≤ 8 },
}

impl Helpers {
    /// So many helpers, but at least 1 and at most 8.
    pub(crate) fn new(alloc: Global, asked: u8) -> Helpers {
        Helpers {
            alloc,
            number: asked.clamp(1, 8),
        }
    }

    /// Marks the copy in a thread of its own, with the run's helpers.
    pub(crate) fn begin<'s, E, R: Threads + Sync>(
        &self,
        rt: &'s R,
        scope: &Scope<'s, E>,
        copy: Arc<Snapshot>,
    ) -> Result<Pending, NoMemory> {
        Pending::begin(rt, self.alloc, scope, copy, self.number)
    }

    /// The marks for the agent's next event, which empties. The helpers read the agent itself, which
    /// nobody changes meanwhile, since its lock is held; or, to finish a later collection, its copy, where
    /// the marking that is under way is not of this copy.
    pub(crate) fn marks<L: Planned + Sync, R: Threads + Sync>(
        &self,
        rt: &R,
        member: &Member<L>,
        open: &mut Option<Pending>,
    ) -> Result<Marks, NoMemory>
        requires { AsksMarks (need member.now.core) }
        ensures { IfOk result (AreAskedFor (need member.now.core) member.now.core) }
    {
        if member.core().record().is_open() {
            self.finished(rt, member.core(), open.take())
        } else {
            self.collected(rt, member)
        }
    }

    /// The marks of the copy of the open later collection, with what derefs gave since: those that a thread
    /// found, where they are of an equal copy, and else made anew.
    #[inline(never)]
    fn finished<L: Planned + Sync, R: Threads + Sync>(
        &self,
        rt: &R,
        core: &AgentCore<L>,
        open: Option<Pending>,
    ) -> Result<Marks, NoMemory>
        requires { need core.now ≡ asks_late_marks }
        ensures { IfOk result (AreLateMarks core.now) }
    {
        let later = core.later();
        let derefed = core.derefed();
        if let Some(pending) = open {
            let Marked { snapshot, marks } = pending.join(rt)?;
            if snapshot.same(later) {
                return mark_more(self.alloc, later, &marks, derefed);
            }
        }
        let marks = mark_parallel(rt, self.alloc, later, self.number)?;
        mark_more(self.alloc, later, &marks, derefed)
    }

    /// The agent's marks. One helper is the agent's own marker.
    fn collected<L: Planned + Sync, R: Threads + Sync>(
        &self,
        rt: &R,
        member: &Member<L>,
    ) -> Result<Marks, NoMemory>
        ensures own { IfOk result (AreMarksOf member.now.core) }
    {
        if self.number == 1 {
            return member.core().marks();
        }
        mark_with(rt, self.alloc, member.core(), self.number)
    }
}
