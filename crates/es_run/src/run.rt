//! Runs of a plan in threads: the first agent's is the caller's, and each other agent has one of its own.

ghost use Rattle.std.specs.Prelude.{◌≡◌, ◌<◌, ◌≤◌, [], true, length, vec_len, vec_capacity, IfOk, OnErr};
ghost use Rattle.es_event.specs.Others.{all_name_others};
ghost use Rattle.es_report.specs.Counts.{IsCountsOf};
ghost use Rattle.es_outcome.specs.Outcomes.{IsClusterOutcome};

use crate::cluster::Cluster;
use crate::gate::Gate;
use crate::helpers::Helpers;
use crate::serving::run_all;
use es_cluster::{ClusterCore, Member, Parts, Planned};
use es_event::{Outcome, Plan};
use es_outcome::{Counted, RunStop, abandon, outcome_of};
use es_ticket::Opened;
use es_value::NoMemory;
use std::alloc::Global;
use std::marker::Brand;
use std::sync::{Condvar, Mutex, Wait};
use std::thread::Threads;

/// Runs a plan, the first agent in the caller's thread and each other in one of its own, until all have
/// ended. Each agent posts to other agents alone, and waits for messages of other agents alone. So many
/// helpers mark what an agent reaches, at least 1 and at most 8. However many they are, what the run came to
/// is an outcome of the plan; a plan with a race has several.
pub fn run_threads<G: Gate + Sync, R: Threads + Wait + Sync>(
    rt: &R,
    alloc: Global,
    plan: Plan,
    helpers: u8,
    gate: &G,
) -> Result<Outcome, RunStop>
    requires few { length plan.agents < 9 }
    requires others { all_name_others plan ≡ true }
    ensures { IfOk result (λ o. IsClusterOutcome plan o) }
{
    let (outcome, _) = run_watched(rt, alloc, plan, helpers, 0, gate)?;
    Ok(outcome)
}

/// The same, with a watcher that makes so many audits beside the agents. How many it counted is answered
/// beside the outcome: as many as were asked for, since a watch that is cut short ends the run.
pub fn run_watched<G: Gate + Sync, R: Threads + Wait + Sync>(
    rt: &R,
    alloc: Global,
    plan: Plan,
    helpers: u8,
    watch: u32,
    gate: &G,
) -> Result<(Outcome, u32), RunStop>
    requires few { length plan.agents < 9 }
    requires others { all_name_others plan ≡ true }
    ensures outcome { IfOk result (λ r. IsClusterOutcome plan r.0) }
    ensures audits { IfOk result (λ r. r.1 ≡ watch) }
{
    let (counted, audits) = run_counted(rt, alloc, plan, helpers, watch, gate)?;
    Ok((counted.outcome, audits))
}

/// The same, with the totals that a report has.
pub fn run_counted<G: Gate + Sync, R: Threads + Wait + Sync>(
    rt: &R,
    alloc: Global,
    plan: Plan,
    helpers: u8,
    watch: u32,
    gate: &G,
) -> Result<(Counted, u32), RunStop>
    requires few { length plan.agents < 9 }
    requires others { all_name_others plan ≡ true }
    ensures outcome { IfOk result (λ r. IsClusterOutcome plan r.0.outcome) }
    ensures counts { IfOk result (λ r. IsCountsOf r.0.outcome r.0.counts) }
    ensures audits { IfOk result (λ r. r.1 ≡ watch) }
{
    let opened = Opened::new(alloc)?;
    let helpers = Helpers::new(alloc, helpers);
    run_in::<Brand, G, R>(rt, alloc, opened, plan, &helpers, watch, gate)
}

/// The run of the plan that L names.
fn run_in<L: Planned + Send + Sync, G: Gate + Sync, R: Threads + Wait + Sync>(
    rt: &R,
    alloc: Global,
    opened: Opened,
    plan: Plan,
    helpers: &Helpers,
    watch: u32,
    gate: &G,
) -> Result<(Counted, u32), RunStop>
    requires name { opened ≡ L.table }
    requires planned { plan ≡ L.plan }
    requires few { length plan.agents < 9 }
    requires others { all_name_others plan ≡ true }
    ensures outcome { IfOk result (λ r. IsClusterOutcome L.plan r.0.outcome) }
    ensures counts { IfOk result (λ r. IsCountsOf r.0.outcome r.0.counts) }
    ensures audits { IfOk result (λ r. r.1 ≡ watch) }
{
    let Parts {
        mut members,
        ledger,
        names,
        histories,
    } = ClusterCore::<L>::new(alloc, opened, plan)?.into_parts();
    let agents = match lock_all(alloc, &mut members) {
        Ok(agents) => agents,
        Err(error) => {
            abandon(Parts {
                members,
                ledger,
                names,
                histories,
            });
            return Err(error.into());
        }
    };
    let cluster = Cluster {
        agents,
        ledger: Mutex::new(ledger),
        arrived: Condvar::new(),
    };
    let made = run_all(rt, alloc, &cluster, helpers, watch, gate);
    let Cluster {
        agents,
        ledger,
        arrived: _,
    } = cluster;
    unlock_all(agents, &mut members);
    let parts = Parts {
        members,
        ledger: ledger.into_inner(),
        names,
        histories,
    };
    match made {
        Some(audits) if audits == watch => {
            let counted = outcome_of(rt, alloc, parts)?;
            Ok((counted, audits))
        }
        _ => {
            abandon(parts);
            Err(RunStop::NoMemory)
        }
    }
}

/// Puts each agent under a lock of its own, and leaves their place empty. Where there is no memory
/// nothing has changed.
fn lock_all<L: Planned>(
    alloc: Global,
    members: &mut Vec<Member<L>>,
) -> Result<Vec<Mutex<Member<L>>>, NoMemory>
    ensures locks { IfOk result (λ locks. vec_len locks ≡ vec_len members.old) }
    ensures place { IfOk result (λ locks. (members.new.items ≡ []) × (vec_len locks ≤ vec_capacity members.new)) }
    ensures err { OnErr result (members.new ≡ members.old) }
{
    let mut locks = Vec::with_capacity(alloc, members.len())?;
    members.reverse();
    for _ in 0..members.len() {
        let Some(member) = members.pop() else {
            unreachable!()
        };
        locks.push_reserved(Mutex::new(member));
    }
    Ok(locks)
}

/// Takes the agents out of their locks, and back to their place. It takes no memory.
fn unlock_all<L: Planned>(mut locks: Vec<Mutex<Member<L>>>, members: &mut Vec<Member<L>>)
    requires { (members.old.items ≡ []) × (vec_len locks ≤ vec_capacity members.old) }
    ensures { vec_len members.new ≡ vec_len locks }
{
    locks.reverse();
    for _ in 0..locks.len() {
        let Some(lock) = locks.pop() else {
            unreachable!()
        };
        members.push_reserved(lock.into_inner());
    }
    locks.destroy_empty();
}
