//! The cluster of a plan, run to its end by turns.

ghost use Rattle.std.specs.Prelude.{◌≡◌, ◌<◌, false, true, length, map, IfOk, OnOk};
ghost use Rattle.es_cluster.specs.Moves.{RunsToEnd, all_over, cleans_quietly};
ghost use Rattle.es_cluster.specs.State.{plans};
ghost use Rattle.es_event.specs.Others.{all_name_others};
ghost use Rattle.es_report.specs.Counts.{IsCountsOf};
ghost use Rattle.es_report.specs.Tallies.{end_tally};
ghost use Rattle.es_outcome.specs.Outcomes.{IsClusterOutcome};
ghost use Rattle.es_script.specs.Grammar.{no_callback_collects};
ghost use Rattle.es_turns.specs.Answer.{EndsByTurns, IsByTurns};

use es_cluster::{ClusterCore, Planned};
use es_event::Plan;
use es_outcome::{Counted, tallies_of};
use es_registry::Tally;
use es_report::Counts;
use es_ticket::Opened;
use es_value::NoMemory;
use std::alloc::Global;
use std::marker::Brand;

/// Runs the agents of a plan to their ends by turns, in this thread: the lowest-numbered agent that can
/// move moves, by one whole job with its cleanup jobs (ECMA-262, Agents, leaves the order of agents to the
/// host). Fails where there is no memory.
pub fn run_by_turns(alloc: Global, plan: Plan) -> Result<Counted, NoMemory>
    requires few { length plan.agents < 9 }
    requires others { all_name_others plan ≡ true }
    requires quiet { no_callback_collects plan ≡ true }
    ensures outcome { IfOk result (λ r. IsClusterOutcome plan r.outcome) }
    ensures turns { IfOk result (λ r. IsByTurns plan r.outcome) }
    ensures counts { IfOk result (λ r. IsCountsOf r.outcome r.counts) }
{
    let opened = Opened::new(alloc)?;
    run_cluster::<Brand>(alloc, opened, plan)
}

/// The same over the ledger's table `opened`, under the run's name.
fn run_cluster<L: Planned>(alloc: Global, opened: Opened, plan: Plan) -> Result<Counted, NoMemory>
    requires name { opened ≡ L.table }
    requires planned { plan ≡ L.plan }
    requires few { length plan.agents < 9 }
    requires others { all_name_others plan ≡ true }
    requires quiet { no_callback_collects plan ≡ true }
    ensures outcome { IfOk result (λ r. IsClusterOutcome plan r.outcome) }
    ensures turns { IfOk result (λ r. IsByTurns plan r.outcome) }
    ensures counts { IfOk result (λ r. IsCountsOf r.outcome r.counts) }
{
    let cluster = ClusterCore::<L>::new(alloc, opened, plan)?;
    end_cluster(alloc, cluster)
}

/// Runs what is left of a cluster by turns to the ends of all agents, however far they are. It is used up.
pub(crate) fn end_cluster<L: Planned>(
    alloc: Global,
    mut cluster: ClusterCore<L>,
) -> Result<Counted, NoMemory>
    requires quiet { cleans_quietly cluster ≡ true }
    requires plans { plans cluster.agents ≡ L.plan.agents }
    ensures outcome { IfOk result (λ r. IsClusterOutcome L.plan r.outcome) }
    ensures turns { IfOk result (λ r. EndsByTurns cluster r.outcome) }
    ensures counts { IfOk result (λ r. IsCountsOf r.outcome r.counts) }
{
    match run_to_end(alloc, &mut cluster) {
        Ok(tallies) => {
            let Some(outcome) = cluster.end() else {
                unreachable!()
            };
            let counts = Counts::of_ended(&outcome, tallies);
            Ok(Counted { outcome, counts })
        }
        Err(error) => {
            cluster.abandon();
            Err(error)
        }
    }
}

/// Runs all agents to their ends, and gives the totals of their registrations.
fn run_to_end<L: Planned>(
    alloc: Global,
    cluster: &mut ClusterCore<L>,
) -> Result<Vec<Tally>, NoMemory>
    requires { cleans_quietly cluster.old ≡ true }
    ensures over { OnOk result ((all_over cluster.new ≡ true) × (cluster.new.failed ≡ false)) }
    ensures runs { OnOk result (RunsToEnd cluster.old cluster.new) }
    ensures plans { plans cluster.new.agents ≡ plans cluster.old.agents }
    ensures number { OnOk result (length cluster.new.agents ≡ cluster.new.ledger.agents) }
    ensures tallies { IfOk result (λ ts. ts.items ≡ map (λ b. end_tally b.history) cluster.new.agents) }
{
    cluster.run_turns()?;
    // It tells that the ledger's agents are as many.
    let _ = cluster.agents();
    tallies_of(alloc, cluster.members())
}
