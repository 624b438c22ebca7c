//! A cluster whose agents someone else moves: what an agent said, and what is left of the run.

ghost use Rattle.std.specs.Prelude.{◌≡◌, true, IfOk};
ghost use Rattle.es_cluster.specs.Moves.{cleans_quietly};
ghost use Rattle.es_cluster.specs.State.{plans};
ghost use Rattle.es_turns.specs.Answer.{IsReportOfRest};
ghost use Rattle.es_turns.specs.Lines.{lines_from};

use crate::answer::report_of;
use crate::by_turns::end_cluster;
use es_agent::AgentCore;
use es_cluster::{ClusterCore, Planned};
use es_report::write_lines;
use es_value::NoMemory;
use std::alloc::Global;

/// The lines that a report has of an agent's events from this number on; its oldest event has the number 0.
pub fn write_lines_from<L: Planned>(
    alloc: Global,
    agent: &AgentCore<L>,
    from: usize,
) -> Result<Vec<u8>, NoMemory>
    ensures { IfOk result (λ text. text.items ≡ lines_from from agent.now.history) }
{
    let events = agent.history();
    let mut text = Vec::new(alloc);
    match write_lines(&events[from.min(events.len())..], &mut text) {
        Ok(()) => Ok(text),
        Err(_) => Err(NoMemory),
    }
}

/// The report of a cluster of which what is left, however far its agents are, is run by turns. It is used up:
/// all its tickets are spent, where there is no memory too.
pub fn report_of_rest<L: Planned>(
    alloc: Global,
    cluster: ClusterCore<L>,
) -> Result<Vec<u8>, NoMemory>
    requires quiet { cleans_quietly cluster ≡ true }
    requires plans { plans cluster.agents ≡ L.plan.agents }
    ensures { IfOk result (λ text. IsReportOfRest L.plan cluster text.items) }
{
    let counted = end_cluster(alloc, cluster)?;
    let text = report_of(alloc, &counted)?;
    Ok(text)
}
