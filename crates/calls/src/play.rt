//! Turns, and the end.

ghost use Rattle.std.specs.Prelude.{◌≡◌, ◌<◌, [], length};

use crate::cluster::play_cluster;
use crate::fault::Fault;
use crate::player::Player;
use crate::repeats::Calls;
use crate::seating::{give_up, seat_all};
use crate::telling::{write_agents, write_audit, write_left, write_newest};
use es_cluster::{Planned, Progress, end_all};
use es_event::{AgentPlan, Plan};
use es_ledger::LedgerCore;
use es_script::read_plan;
use es_ticket::{LedgerName, Opened, Stake};
use std::alloc::Global;
use std::io::{BufWriter, Read, Write};
use std::marker::Brand;
use std::rt::Runtime;
use std::thread::Threads;
use std::{env, io};

/// Plays the plan on standard input by the turns that the first word lists: the number of an agent, one
/// digit, for each. Where the second word is `cluster`, they are those of a cluster, with an audit after
/// each; with another all is given up where a call finds no memory.
pub(crate) fn play_words<H: Runtime + AllocGlobal + Threads + Sync>(rt: &H) -> Result<(), Fault> {
    let alloc = rt.alloc();
    let words: Vec<String> = env::args(rt)?.collect(alloc)?;
    let Some(turns) = words.get(1) else {
        return Err(Fault::Words);
    };
    let text = io::read_to_string(alloc, rt.reader())?;
    let plan = read_plan(alloc, text.as_bytes())?;
    let opened = Opened::new(alloc)?;
    let mut output = BufWriter::new(alloc, io::writer(rt))?;
    match words.get(2) {
        Some(word) if word.as_str() == "cluster" => {
            play_cluster::<Brand, _, _>(rt, opened, plan, turns.as_bytes(), &mut output)?;
        }
        second => {
            let calls = Calls::new(second.is_none());
            play_plan::<Brand, _>(alloc, opened, plan, turns.as_bytes(), calls, &mut output)?;
        }
    }
    Ok(output.flush()?)
}

fn play_plan<L: Planned, W: Write>(
    alloc: Global,
    opened: Opened,
    plan: Plan,
    turns: &[u8],
    calls: Calls,
    writer: &mut W,
) -> Result<(), Fault>
    requires name { opened ≡ L.table }
    requires few { length plan.agents < 9 }
{
    let plans = plan.agents.into_vec();
    let count = plans.len();
    let (mut ledger, stakes) = LedgerCore::<L>::new(alloc, opened, count)?;
    let told = play_agents(alloc, plans, stakes, &mut ledger, turns, calls, writer);
    end_all(&mut ledger, count);
    ledger.drain();
    let left = if told.is_ok() {
        write_left(&ledger, writer)
    } else {
        Ok(())
    };
    let _ = ledger.into_history();
    let calls = told?;
    left?;
    Ok(writeln!(writer, "again {} {:?}", calls.again, calls.last)?)
}

/// The turns of the agents with these plans, who are given up in the end, however far they are.
fn play_agents<L: LedgerName, W: Write>(
    alloc: Global,
    plans: Vec<AgentPlan>,
    stakes: Vec<Stake<L>>,
    ledger: &mut LedgerCore<L>,
    turns: &[u8],
    mut calls: Calls,
    writer: &mut W,
) -> Result<Calls, Fault>
    requires { ledger.old.history ≡ [] }
    ensures { ledger.new.agents ≡ ledger.old.agents }
{
    match seat_all(alloc, plans, stakes, ledger) {
        Ok(mut players) => {
            let told = play_all(&mut players, ledger, turns, &mut calls, writer);
            give_up(players, ledger);
            told?;
            Ok(calls)
        }
        Err(players) => {
            give_up(players, ledger);
            Err(Fault::NoMemory)
        }
    }
}

/// Plays each turn, up to one that finds no memory, and tells what all agents said.
fn play_all<L: LedgerName, W: Write>(
    players: &mut Vec<Player<L>>,
    ledger: &mut LedgerCore<L>,
    turns: &[u8],
    calls: &mut Calls,
    writer: &mut W,
) -> Result<(), Fault>
    ensures { ledger.new.agents ≡ ledger.old.agents }
{
    for digit in turns {
        if !play_digit(players, *digit, ledger, calls, writer)? {
            return Ok(writeln!(writer, "no memory")?);
        }
    }
    write_agents(players.as_slice(), writer)
}

/// The turn of the agent with this digit, if there is one; whether there was memory for it.
fn play_digit<L: LedgerName, W: Write>(
    players: &mut Vec<Player<L>>,
    digit: u8,
    ledger: &mut LedgerCore<L>,
    calls: &mut Calls,
    writer: &mut W,
) -> Result<bool, Fault>
    ensures { ledger.new.agents ≡ ledger.old.agents }
{
    let agent = digit.wrapping_sub(b'0') as usize;
    if agent >= players.len() {
        return Ok(true);
    }
    play_one(players, agent, ledger, calls, writer)
}

/// One turn, the agent's newest line where it moved, and an audit; whether there was memory for it.
fn play_one<L: LedgerName, W: Write>(
    players: &mut Vec<Player<L>>,
    agent: usize,
    ledger: &mut LedgerCore<L>,
    calls: &mut Calls,
    writer: &mut W,
) -> Result<bool, Fault>
    requires { agent < length players.old.items }
    ensures { ledger.new.agents ≡ ledger.old.agents }
{
    let Ok(progress) = players[agent].turn(ledger, calls) else {
        return Ok(false);
    };
    writeln!(writer, "{agent} {progress:?}")?;
    if progress == Progress::Moved {
        write_newest(&players[agent], writer)?;
    }
    write_audit(players.as_slice(), ledger, writer)?;
    Ok(true)
}
