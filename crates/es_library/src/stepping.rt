//! A cluster that is kept: it begins, its agents move, and it is given up.

ghost use Rattle.std.specs.Prelude.{◌≡◌, ◌<◌, true, false, length, IfSome};
ghost use Rattle.es_cluster.specs.State.{first_state, plans};
ghost use Rattle.es_event.specs.Others.{all_name_others};
ghost use Rattle.es_library.specs.Clusters.{Begins, IsHeld, Steps};
ghost use Rattle.es_script.specs.Grammar.{no_callback_collects};

use crate::held::Held;
use crate::named::Named;
use crate::pointer::Pointer;
use crate::reply::{DONE, NO_MEMORY, REFUSED, TOO_LONG, tell};
use es_cluster::{ClusterCore, Planned, Progress};
use es_event::Plan;
use es_ticket::Opened;
use es_turns::{TurnsFault, plan_of};
use std::alloc::Global;
use std::marker::Brand;
use std::mem::ManuallyDrop;

/// The answer to a turn in which the agent has one event more.
const MOVED: u32 = 0;

/// The answer to a turn of an agent that waits on for a message, or sleeps at a word.
const WAITS: u32 = 1;

/// The answer to a turn of an agent that has ended.
const ENDED: u32 = 2;

/// The answer where there is no such agent.
pub(crate) const NO_AGENT: u32 = 4;

/// Keeps the cluster of a plan, before the first event of any agent, or hands over the text of the plan's first
/// fault. Answers the status.
pub(crate) fn begin(
    alloc: Global,
    plan: &[u8],
    cluster: &mut Held,
    agents: &mut usize,
    out: &mut [u8],
    length: &mut usize,
) -> u32
    requires empty { cluster.old.filled ≡ false }
    ensures { Begins plan.now cluster.old cluster.new agents.new out.old out.new length.new result }
{
    *agents = 0;
    *length = 0;
    match plan_of(alloc, plan) {
        Ok(plan) => {
            let count = plan.agents.as_slice().len();
            if seat(alloc, plan, cluster) {
                *agents = count;
                DONE
            } else {
                NO_MEMORY
            }
        }
        Err(TurnsFault::Script(fault)) => {
            if tell(alloc, fault, out, length) {
                REFUSED
            } else {
                NO_MEMORY
            }
        }
        Err(TurnsFault::NoMemory) => NO_MEMORY,
        Err(TurnsFault::TooLong) => TOO_LONG,
    }
}

/// Keeps the cluster of a plan, or nothing where there is no memory for it. Answers whether there was.
fn seat(alloc: Global, plan: Plan, cluster: &mut Held) -> bool
    requires empty { cluster.old.filled ≡ false }
    requires few { length plan.agents < 9 }
    requires others { all_name_others plan ≡ true }
    requires quiet { no_callback_collects plan ≡ true }
    ensures plan { result ≡ true → cluster.new.plan ≡ plan }
    ensures first { result ≡ true → cluster.new.value ≡ first_state plan }
    ensures held { result ≡ true → IsHeld cluster.new }
    ensures nothing { result ≡ false → cluster.new ≡ cluster.old }
{
    let Ok(opened) = Opened::new(alloc) else {
        return false;
    };
    match first_named::<Brand>(alloc, opened, plan) {
        Some(named) => {
            *cluster = Held::full(named);
            true
        }
        None => false,
    }
}

/// The cluster of a plan, before the first event of any agent, behind a pointer.
fn first_named<L: Planned>(alloc: Global, opened: Opened, plan: Plan) -> Option<Named<L>>
    requires name { opened ≡ L.table }
    requires planned { plan ≡ L.plan }
    requires few { length plan.agents < 9 }
    requires others { all_name_others plan ≡ true }
    ensures { IfSome result (λ n. (n.table ≡ opened) × (n.plan ≡ plan) × (n.value ≡ first_state plan)) }
{
    let Ok(cluster) = ClusterCore::<L>::new(alloc, opened, plan) else {
        return None;
    };
    match Box::new(alloc, unsafe { ManuallyDrop::new_unchecked(cluster) }) {
        Ok(held) => Some(Named::of(Pointer::of(held))),
        Err(failed) => {
            ManuallyDrop::into_inner(failed.value).abandon();
            None
        }
    }
}

/// One turn of an agent. Answers what it came to. The cluster goes on to be kept.
pub(crate) fn step_named<L: Planned>(named: Named<L>, agent: usize) -> (Named<L>, u32)
    requires table { named.table ≡ L.table }
    requires plan { named.plan ≡ L.plan }
    ensures name { (result.0.table ≡ named.table) × (result.0.plan ≡ named.plan) }
    ensures plans { plans result.0.value.agents ≡ plans named.value.agents }
    ensures steps { Steps agent named.value result.0.value result.1 }
{
    let mut held = named.pointer().boxed_again();
    let answer = step(&mut held, agent);
    (Named::of(Pointer::of(held)), answer)
}

fn step<L: Planned>(cluster: &mut ClusterCore<L>, agent: usize) -> u32
    ensures plans { plans cluster.new.agents ≡ plans cluster.old.agents }
    ensures steps { Steps agent cluster.old cluster.new result }
{
    if agent >= cluster.agents() {
        return NO_AGENT;
    }
    match cluster.step(agent) {
        Ok(Progress::Moved) => MOVED,
        Ok(Progress::Waiting) => WAITS,
        Ok(Progress::Ended) => ENDED,
        Err(_) => NO_MEMORY,
    }
}

/// Gives a cluster up: every ticket is spent. It takes no memory.
pub(crate) fn give_up_named<L: Planned>(named: Named<L>)
    requires table { named.table ≡ L.table }
    requires plan { named.plan ≡ L.plan }
{
    let held = named.pointer().boxed_again();
    ManuallyDrop::into_inner(Box::into_inner(held)).abandon();
}
