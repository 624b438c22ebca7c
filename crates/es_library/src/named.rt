//! A cluster behind a pointer, whose run has a name.

ghost use Rattle.std.specs.Prelude.{◌≡◌};
ghost use Rattle.atomic_table.specs.Seated.{TableId, table_id_coded};
ghost use Rattle.es_cluster.specs.State.{ClusterView};
ghost use Rattle.es_event.specs.declared.plan.Plan.{Plan};
ghost use Rattle.es_library.specs.Rows.{kept_row, undropped};
ghost use Rattle.std_alloc.specs.Box.Ownership.{box_owns};
ghost use Rattle.std_heap.specs.contracts.GlobalAllocator.TheImpl.{ghosts};

use crate::pointer::Pointer;
use es_cluster::{ClusterCore, Planned};
use std::alloc::Global;
use std::marker::Model;
use std::mem::ManuallyDrop;

/// The pointer of a cluster's box. `L` stands for the name of its run, and nothing of that type lies there. The type
/// asks nothing of `L`, so a call can choose which table and which plan `L` has: those that are known of this
/// cluster.
pub(crate) struct Named<L> {
    pub(crate) to: *mut L,
    pub(crate) alloc: Global,
    pub(crate) ghost table: { TableId } by { table_id_coded },
    pub(crate) ghost plan: { Plan },
    pub(crate) ghost value: { ClusterView },
}

impl<L> Model for Named<L> {
    ghost also_owns = { λ k. box_owns (ghosts.dealloc_token k.alloc) (kept_row L.row k.table k.plan) k.to (undropped k.value) };
}

impl<L: Planned> Named<L> {
    /// The cluster behind this pointer.
    pub(crate) fn of(pointer: Pointer<ManuallyDrop<ClusterCore<L>>, Global>) -> Named<L>
        ensures value { undropped result.value ≡ pointer.value }
        ensures table { result.table ≡ L.table }
        ensures plan { result.plan ≡ L.plan }
    {
        let Pointer { to, alloc } = pointer;
        Named {
            to: to as *mut L,
            alloc,
        }
    }

    /// The pointer of the cluster.
    pub(crate) fn pointer(self) -> Pointer<ManuallyDrop<ClusterCore<L>>, Global>
        requires table { self.table ≡ L.table }
        requires plan { self.plan ≡ L.plan }
        ensures { result.value ≡ undropped self.value }
    {
        let Named { to, alloc } = self;
        Pointer {
            to: to as *mut ManuallyDrop<ClusterCore<L>>,
            alloc,
        }
    }
}
