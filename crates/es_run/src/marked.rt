//! A copy with its marks, and a thread that finds them while the agent goes on.

ghost use Rattle.std.specs.Prelude.{◌<◌, ◌≤◌};
ghost use Rattle.std.specs.Arc.{arc_value};
ghost use Rattle.std.specs.Thread.{IsSync};
ghost use Rattle.std.proofs.Props.{props};
ghost use Rattle.es_parmark.specs.Snapshot.{AreMarksOf};

use es_mark::Marks;
use es_parmark::{Snapshot, mark_parallel};
use es_value::NoMemory;
use std::alloc::Global;
use std::sync::Arc;
use std::thread::{JoinHandle, Scope, Threads};

/// A copy and its marks.
#[derive(Drop)]
pub(crate) struct Marked {
    pub(crate) snapshot: Arc<Snapshot>,
    pub(crate) marks: Marks,
    ghost own: { AreMarksOf (arc_value snapshot) marks } by { Prim.hlevel props },
}

impl Marked {
    /// The copy with its marks, found with so many helpers. It takes no lock.
    fn of<R: Threads + Sync>(
        rt: &R,
        alloc: Global,
        snapshot: Arc<Snapshot>,
        helpers: u8,
    ) -> Result<Marked, NoMemory>
        requires { (0 < helpers) × (helpers ≤ 8) }
    {
        let marks = mark_parallel(rt, alloc, &snapshot, helpers)?;
        Ok(Marked { snapshot, marks })
    }
}

/// A marking that is under way in a thread of its own, which takes no lock. Whoever has it waits for its end.
#[derive(Drop)]
pub(crate) struct Pending {
    handle: JoinHandle<Result<Marked, NoMemory>>,
}

impl Pending {
    /// Begins it. A thread that cannot be made counts as a refused growth.
    pub(crate) fn begin<'s, E, R: Threads + Sync>(
        rt: &'s R,
        alloc: Global,
        scope: &Scope<'s, E>,
        snapshot: Arc<Snapshot>,
        helpers: u8,
    ) -> Result<Pending, NoMemory>
        requires { (0 < helpers) × (helpers ≤ 8) }
    {
        let marking = move || -> Result<Marked, NoMemory>
            requires { IsSync R.row × (0 < helpers) × (helpers ≤ 8) }
        { Marked::of(rt, alloc, snapshot, helpers) };
        match scope.spawn(marking) {
            Ok(handle) => Ok(Pending { handle }),
            Err(_) => Err(NoMemory),
        }
    }

    /// Waits for its end.
    pub(crate) fn join<R: Threads>(self, rt: &R) -> Result<Marked, NoMemory> {
        let Pending { handle } = self;
        handle.join(rt)
    }
}
