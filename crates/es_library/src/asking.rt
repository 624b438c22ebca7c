//! What a cluster that is kept is asked for: what an agent said, how many tickets there are, and its end.

ghost use Rattle.std.specs.Prelude.{◌≡◌, true, false};
ghost use Rattle.es_cluster.specs.State.{plans};
ghost use Rattle.es_library.specs.Clusters.{CountsAll, Says};
ghost use Rattle.es_library.specs.Keeps.{IsKept, IsNotKept};
ghost use Rattle.es_script.specs.Grammar.{no_callback_collects};
ghost use Rattle.es_turns.specs.Answer.{IsReportOfRest};

use crate::keeping::put;
use crate::kept::Kept;
use crate::named::Named;
use crate::pointer::Pointer;
use crate::reply::{DONE, NO_MEMORY, hand_over};
use crate::stepping::NO_AGENT;
use es_cluster::{ClusterCore, Planned};
use es_turns::{report_of_rest, write_lines_from};
use std::alloc::Global;
use std::mem::ManuallyDrop;

/// All tickets of a cluster, counted at one moment; `struct clusterrun_counts` of clusterrun.h.
#[repr(C)]
#[derive(Clone, Copy)]
pub struct Counts {
    /// How many shared blocks were made.
    pub blocks: u64,
    /// How many of them are released.
    pub released: u64,
    /// How many tickets agents hold.
    pub in_agents: u64,
    /// How many tickets lie in messages that were not taken.
    pub in_ports: u64,
}

/// Hands over the lines that a report has of an agent's events from this number on. Answers the status. The
/// cluster goes on to be kept.
pub(crate) fn say_named<L: Planned>(
    alloc: Global,
    named: Named<L>,
    agent: usize,
    from: usize,
    out: &mut [u8],
    length: &mut usize,
    events: &mut usize,
) -> (Named<L>, u32)
    requires table { named.table ≡ L.table }
    requires plan { named.plan ≡ L.plan }
    ensures name { (result.0.table ≡ named.table) × (result.0.plan ≡ named.plan) }
    ensures same { result.0.value ≡ named.value }
    ensures says { Says agent from named.value out.old out.new length.new events.new result.1 }
{
    let held = named.pointer().boxed_again();
    let status = say(alloc, &held, agent, from, out, length, events);
    (Named::of(Pointer::of(held)), status)
}

fn say<L: Planned>(
    alloc: Global,
    cluster: &ClusterCore<L>,
    agent: usize,
    from: usize,
    out: &mut [u8],
    length: &mut usize,
    events: &mut usize,
) -> u32
    ensures { Says agent from cluster.now out.old out.new length.new events.new result }
{
    *length = 0;
    *events = 0;
    if agent >= cluster.agents() {
        return NO_AGENT;
    }
    let core = cluster.agent(agent);
    match write_lines_from(alloc, core, from) {
        Ok(text) => {
            hand_over(text.as_slice(), out, length);
            *events = core.history().len();
            DONE
        }
        Err(_) => NO_MEMORY,
    }
}

/// Counts all tickets. Answers the status. The cluster goes on to be kept.
pub(crate) fn count_named<L: Planned>(named: Named<L>, counts: &mut Counts) -> (Named<L>, u32)
    requires table { named.table ≡ L.table }
    requires plan { named.plan ≡ L.plan }
    ensures name { (result.0.table ≡ named.table) × (result.0.plan ≡ named.plan) }
    ensures same { result.0.value ≡ named.value }
    ensures counts { CountsAll named.value counts.old counts.new result.1 }
{
    let mut held = named.pointer().boxed_again();
    let status = count(&mut held, counts);
    (Named::of(Pointer::of(held)), status)
}

fn count<L: Planned>(cluster: &mut ClusterCore<L>, counts: &mut Counts) -> u32
    ensures same { cluster.new ≡ cluster.old }
    ensures counts { CountsAll cluster.old counts.old counts.new result }
{
    match cluster.audit() {
        Ok(audit) => {
            *counts = Counts {
                blocks: audit.blocks,
                released: audit.released,
                in_agents: audit.in_agents,
                in_ports: audit.in_ports,
            };
            DONE
        }
        Err(_) => NO_MEMORY,
    }
}

/// Runs what is left of a cluster by turns and keeps the report, or nothing where there is no memory. Answers
/// whether there was. The cluster is used up: every ticket is spent.
pub(crate) fn end_named<L: Planned>(
    alloc: Global,
    named: Named<L>,
    answer: &mut Kept,
    length: &mut usize,
) -> bool
    requires table { named.table ≡ L.table }
    requires plan { named.plan ≡ L.plan }
    requires plans { plans named.value.agents ≡ named.plan.agents }
    requires quiet { no_callback_collects named.plan ≡ true }
    requires empty { answer.old.filled ≡ false }
    ensures told { result ≡ true → (text : _) × IsReportOfRest named.plan named.value text × IsKept text answer.new length.new }
    ensures nothing { result ≡ false → IsNotKept answer.old answer.new length.new }
{
    let held = named.pointer().boxed_again();
    let cluster = ManuallyDrop::into_inner(Box::into_inner(held));
    match report_of_rest(alloc, cluster) {
        Ok(text) => put(alloc, text, answer, length),
        Err(_) => {
            *length = 0;
            false
        }
    }
}
