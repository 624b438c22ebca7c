//! The cluster of a plan, run to its end by turns, and its trace.

ghost use Rattle.std.specs.Prelude.{◌≡◌, ◌<◌, true, length, IfOk, IfErr};
ghost use Rattle.es_cluster.specs.Moves.{cleans_quietly};
ghost use Rattle.es_event.specs.Others.{all_name_others};
ghost use Rattle.es_script.specs.Grammar.{no_callback_collects};
ghost use Rattle.es_turns.specs.Failing.{IsFaultOf};
ghost use Rattle.es_turns.specs.Known.{IsUnbegun};
ghost use Rattle.es_turns.specs.Told.{IsTraceFrom};
ghost use Rattle.es_turns.specs.Tracing.{IsTraceByTurns, IsTraceOf};

use crate::answer::plan_of;
use crate::chronicle::Chronicle;
use crate::fault::TurnsFault;
use es_cluster::{ClusterCore, Planned};
use es_event::Plan;
use es_options::View;
use es_ticket::Opened;
use es_value::NoMemory;
use std::alloc::Global;
use std::marker::Brand;

/// The trace of the plan that the bytes stand for, whose agents run by turns in this thread, as this view shows it.
///
/// Fails with the first fault of the bytes, where they stand for no plan; where there are more of them than a plan
/// has at most (`LONGEST_PLAN`), before it looks at any; and where there is no memory.
pub fn trace_of(alloc: Global, bytes: &[u8], view: View) -> Result<Vec<u8>, TurnsFault>
    ensures trace { IfOk result (λ text. IsTraceOf view bytes.now text.items) }
    ensures fault { IfErr result (IsFaultOf bytes.now) }
{
    let plan = plan_of(alloc, bytes)?;
    Ok(trace_by_turns(alloc, plan, view)?)
}

/// The trace of a plan whose agents run by turns in this thread: what each turn tells, in the order of the turns,
/// and then what there is to tell of the messages that nobody took, as this view shows it. Fails where there is no
/// memory.
pub fn trace_by_turns(alloc: Global, plan: Plan, view: View) -> Result<Vec<u8>, NoMemory>
    requires few { length plan.agents < 9 }
    requires others { all_name_others plan ≡ true }
    requires quiet { no_callback_collects plan ≡ true }
    ensures { IfOk result (λ text. IsTraceByTurns view plan text.items) }
{
    let opened = Opened::new(alloc)?;
    trace_cluster::<Brand>(alloc, opened, plan, view)
}

/// The same over the ledger's table `opened`, under the run's name.
fn trace_cluster<L: Planned>(
    alloc: Global,
    opened: Opened,
    plan: Plan,
    view: View,
) -> Result<Vec<u8>, NoMemory>
    requires name { opened ≡ L.table }
    requires planned { plan ≡ L.plan }
    requires few { length plan.agents < 9 }
    requires others { all_name_others plan ≡ true }
    requires quiet { no_callback_collects plan ≡ true }
    ensures { IfOk result (λ text. IsTraceByTurns view plan text.items) }
{
    let mut cluster = ClusterCore::<L>::new(alloc, opened, plan)?;
    let text = run_and_trace(alloc, &mut cluster, view);
    cluster.abandon();
    text
}

/// Runs all agents to their ends, and gives the trace of what happened.
fn run_and_trace<L: Planned>(
    alloc: Global,
    cluster: &mut ClusterCore<L>,
    view: View,
) -> Result<Vec<u8>, NoMemory>
    requires quiet { cleans_quietly cluster.old ≡ true }
    requires first { IsUnbegun cluster.old }
    ensures { IfOk result (λ text. IsTraceFrom view cluster.old text.items) }
{
    let mut chronicle = Chronicle::new(alloc, view, cluster)?;
    cluster.run_turns_watched(&mut chronicle)?;
    chronicle.write_added(cluster)?;
    Ok(chronicle.text)
}
