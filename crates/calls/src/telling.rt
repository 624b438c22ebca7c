//! What is told of agents and blocks.

use crate::fault::Fault;
use crate::player::Player;
use es_event::LedgerEvent;
use es_ledger::LedgerCore;
use es_report::write_lines;
use es_ticket::LedgerName;
use std::io::Write;

/// How many blocks were made.
fn blocks_made(history: &[LedgerEvent]) -> u64 {
    let mut count: u64 = 0;
    for event in history {
        if let LedgerEvent::Opened { .. } = event {
            count = count.saturating_add(1);
        }
    }
    count
}

/// How many tickets there are of each block, each number after a space.
fn write_counts<L: LedgerName, W: Write>(
    ledger: &LedgerCore<L>,
    writer: &mut W,
) -> Result<(), Fault> {
    for block in 0..blocks_made(ledger.history()) {
        write!(writer, " {}", ledger.count(block + 1))?;
    }
    Ok(writeln!(writer)?)
}

/// The blocks, how many of them are released, the tickets in agents and in messages, and those of each
/// block.
pub(crate) fn write_audit<L: LedgerName, W: Write>(
    players: &[Player<L>],
    ledger: &LedgerCore<L>,
    writer: &mut W,
) -> Result<(), Fault> {
    let blocks = blocks_made(ledger.history());
    let mut released: u64 = 0;
    let mut tickets: u64 = 0;
    for block in 0..blocks {
        let count = ledger.count(block + 1);
        tickets = tickets.saturating_add(count);
        if count == 0 {
            released = released.saturating_add(1);
        }
    }
    let mut in_agents: u64 = 0;
    for player in players {
        in_agents = in_agents.saturating_add(player.core().ticket_count() as u64);
    }
    let in_ports = tickets.saturating_sub(in_agents);
    write!(writer, "audit {blocks} {released} {in_agents} {in_ports}:")?;
    write_counts(ledger, writer)
}

/// The tickets of each block that are left.
pub(crate) fn write_left<L: LedgerName, W: Write>(
    ledger: &LedgerCore<L>,
    writer: &mut W,
) -> Result<(), Fault> {
    write!(writer, "left:")?;
    write_counts(ledger, writer)
}

/// The newest line of an agent, where its newest event has one.
pub(crate) fn write_newest<L: LedgerName, W: Write>(
    player: &Player<L>,
    writer: &mut W,
) -> Result<(), Fault> {
    let history = player.core().history();
    if let Some(last) = history.len().checked_sub(1) {
        write_lines(&history[last..], writer)?;
    }
    Ok(())
}

/// All lines of each agent.
pub(crate) fn write_agents<L: LedgerName, W: Write>(
    players: &[Player<L>],
    writer: &mut W,
) -> Result<(), Fault> {
    for player in players {
        writeln!(writer, "agent {}", player.core().number())?;
        write_lines(player.core().history(), writer)?;
    }
    Ok(())
}
