//! A cluster that C keeps.

ghost use Rattle.std.specs.Prelude.{◌≡◌, cond, true};
ghost use base.Fml.{ftrue};
ghost use Rattle.atomic_table.specs.Seated.{TableId, table_id_coded};
ghost use Rattle.es_cluster.specs.State.{ClusterView};
ghost use Rattle.es_event.specs.declared.plan.Plan.{Plan};
ghost use Rattle.es_library.specs.Rows.{kept_row, run_row, undropped};
ghost use Rattle.std_alloc.specs.Box.Ownership.{box_owns};
ghost use Rattle.std_heap.specs.contracts.GlobalAllocator.TheImpl.{ghosts};

use crate::named::Named;
use std::alloc::Global;
use std::marker::{Brand, Model};

/// A cluster that is kept, where it is filled. C begins with one of zeros, which is not filled and owns nothing;
/// `struct clusterrun_cluster` of clusterrun.h.
///
/// Contracts know the table of its ledger and its plan, which name its run: a call gives them to the type `L` of the
/// functions that it calls.
#[repr(C)]
#[derive(Drop)]
pub struct Held {
    filled: bool,
    at: *mut u8,
    alloc: Global,
    pub(crate) ghost table: { TableId } by { table_id_coded },
    pub(crate) ghost plan: { Plan },
    pub(crate) ghost value: { ClusterView },
}

impl Model for Held {
    ghost also_owns = { λ k. cond k.filled (box_owns (ghosts.dealloc_token k.alloc) (kept_row run_row k.table k.plan) k.at (undropped k.value)) ftrue };
}

impl Held {
    /// This cluster, kept.
    pub(crate) fn full(named: Named<Brand>) -> Held
        ensures filled { result.filled ≡ true }
        ensures value { result.value ≡ named.value }
        ensures name { (result.table ≡ named.table) × (result.plan ≡ named.plan) }
    {
        let Named { to, alloc } = named;
        Held {
            filled: true,
            at: to as *mut u8,
            alloc,
        }
    }

    /// The cluster that is kept.
    pub(crate) fn named(self) -> Named<Brand>
        requires { self.filled ≡ true }
        ensures value { result.value ≡ self.value }
        ensures name { (result.table ≡ self.table) × (result.plan ≡ self.plan) }
    {
        let Held {
            filled: _,
            at,
            alloc,
        } = self;
        Named {
            to: at as *mut Brand,
            alloc,
        }
    }
}
