//! The turns of a cluster, with audits, and its end.

ghost use Rattle.std.specs.Prelude.{◌≡◌, ◌<◌, length, true};
ghost use Rattle.es_cluster.specs.Moves.{cleans_quietly};
ghost use Rattle.es_cluster.specs.State.{plans};
ghost use Rattle.es_event.specs.Others.{all_name_others};
ghost use Rattle.es_script.specs.Grammar.{no_callback_collects};

use crate::fault::Fault;
use es_cluster::{Audit, ClusterCore, Planned, Progress, matches};
use es_event::Plan;
use es_report::write_lines;
use es_ticket::Opened;
use std::io::Write;
use std::thread::Threads;

/// Plays the turns of a cluster, with an audit after each, and then the moves that are left.
pub(crate) fn play_cluster<L: Planned, H: AllocGlobal + Threads + Sync, W: Write>(
    rt: &H,
    opened: Opened,
    plan: Plan,
    turns: &[u8],
    writer: &mut W,
) -> Result<(), Fault>
    requires name { opened ≡ L.table }
    requires planned { plan ≡ L.plan }
    requires few { length plan.agents < 9 }
    requires others { all_name_others plan ≡ true }
    requires quiet { no_callback_collects plan ≡ true }
{
    let mut cluster = ClusterCore::<L>::new(rt.alloc(), opened, plan)?;
    match play_all(&mut cluster, turns, writer) {
        Ok(()) => end(rt, cluster, writer),
        Err(fault) => {
            cluster.abandon();
            Err(fault)
        }
    }
}

/// Plays each turn, and then the moves that are left.
fn play_all<L: Planned, W: Write>(
    cluster: &mut ClusterCore<L>,
    turns: &[u8],
    writer: &mut W,
) -> Result<(), Fault>
    requires { cleans_quietly cluster.old ≡ true }
{
    for digit in turns {
        let agent = digit.wrapping_sub(b'0') as usize;
        if agent < cluster.agents() {
            play_one(cluster, agent, writer)?;
        }
    }
    cluster.run_turns()?;
    for agent in 0..cluster.agents() {
        writeln!(writer, "agent {agent}")?;
        write_lines(cluster.agent(agent).history(), writer)?;
    }
    write_audit(&cluster.audit()?, writer)
}

/// One turn, the agent's newest line where it moved, and an audit.
fn play_one<L: Planned, W: Write>(
    cluster: &mut ClusterCore<L>,
    agent: usize,
    writer: &mut W,
) -> Result<(), Fault>
    requires { agent < length cluster.old.agents }
    ensures plans { plans cluster.new.agents ≡ plans cluster.old.agents }
{
    let progress = cluster.step(agent)?;
    writeln!(writer, "{agent} {progress:?}")?;
    if progress == Progress::Moved {
        let history = cluster.agent(agent).history();
        if let Some(last) = history.len().checked_sub(1) {
            write_lines(&history[last..], writer)?;
        }
    }
    write_audit(&cluster.audit()?, writer)
}

/// The blocks, how many of them are released, the tickets in agents and in messages, and those of
/// each block.
fn write_audit<W: Write>(audit: &Audit, writer: &mut W) -> Result<(), Fault> {
    write!(
        writer,
        "audit {} {} {} {}:",
        audit.blocks, audit.released, audit.in_agents, audit.in_ports
    )?;
    for count in audit.counts.as_slice() {
        write!(writer, " {count}")?;
    }
    Ok(writeln!(writer)?)
}

/// Whether the histories match, once all agents have ended.
fn end<L: Planned, H: AllocGlobal + Threads + Sync, W: Write>(
    rt: &H,
    cluster: ClusterCore<L>,
    writer: &mut W,
) -> Result<(), Fault> {
    match cluster.end() {
        Some(outcome) => {
            let histories = outcome.histories.as_slice();
            let matching = matches(rt, rt.alloc(), histories, outcome.ledger.as_slice())?;
            Ok(writeln!(writer, "matches {matching}")?)
        }
        None => Ok(writeln!(writer, "has not ended")?),
    }
}
