//! The rows of the ledger.

ghost use Rattle.std.specs.Prelude.{◌≡◌, ◌++◌, codes, decimal, IfOk, OnOk};
ghost use Rattle.std.specs.List.{flat_map};
ghost use Rattle.std.specs.Io.KnownBytes.{Appends};
ghost use Rattle.es_trace.specs.Commands.{name_at as name_said};
ghost use Rattle.es_trace.specs.Ledger.{act_text, change_text, ledger_row, ledger_rows, ledger_text, message_text, released_row, word_text};

use crate::names::width_of;
use crate::naming::name_at;
use crate::row::{empty_text, label_of, write_row};
use crate::told::{tells, write_told};
use es_event::{Act, Change, LedgerEvent};
use es_value::Name;
use std::alloc::Global;
use std::io;
use std::io::Write;

/// Writes the rows of a ledger under the name `-`: one for each of its events, the oldest first, and one for each of
/// the blocks, which these events released. `names` are those of all agents, in the plan's order.
///
/// It takes memory for the text of a row. Fails where there is none, and where the writer fails; then some rows may
/// be written.
pub fn write_ledger<W: Write>(
    alloc: Global,
    names: &[Name],
    events: &[LedgerEvent],
    blocks: &[u64],
    writer: &mut W,
) -> Result<(), io::Error>
    ensures { OnOk result (Appends (W.contents writer.old) (W.contents writer.new) (ledger_rows names.now events.now blocks.now)) }
{
    let label = label_of(alloc, "-", width_of(names))?;
    let label = label.as_slice();
    write_events(alloc, names, label, events, writer)?;
    write_blocks(alloc, label, blocks, writer)
}

fn write_events<W: Write>(
    alloc: Global,
    names: &[Name],
    label: &[u8],
    events: &[LedgerEvent],
    writer: &mut W,
) -> Result<(), io::Error>
    ensures { OnOk result (Appends (W.contents writer.old) (W.contents writer.new) (flat_map (ledger_row names.now label.now) events.now)) }
{
    for event in events {
        write_ledger_row(alloc, names, label, event, writer)?;
    }
    Ok(())
}

fn write_ledger_row<W: Write>(
    alloc: Global,
    names: &[Name],
    label: &[u8],
    event: &LedgerEvent,
    writer: &mut W,
) -> Result<(), io::Error>
    ensures { OnOk result (Appends (W.contents writer.old) (W.contents writer.new) (ledger_row names.now label.now event.now)) }
{
    let text = text_of(alloc, names, event)?;
    write_row(label, text, tells(event), writer)?;
    write_told(names, event, writer)
}

fn write_blocks<W: Write>(
    alloc: Global,
    label: &[u8],
    blocks: &[u64],
    writer: &mut W,
) -> Result<(), io::Error>
    ensures { OnOk result (Appends (W.contents writer.old) (W.contents writer.new) (flat_map (released_row label.now) blocks.now)) }
{
    for block in blocks {
        write_released(alloc, label, *block, writer)?;
    }
    Ok(())
}

fn write_released<W: Write>(
    alloc: Global,
    label: &[u8],
    block: u64,
    writer: &mut W,
) -> Result<(), io::Error>
    ensures { OnOk result (Appends (W.contents writer.old) (W.contents writer.new) (released_row label.now block)) }
{
    let text = released_text(alloc, block)?;
    write_row(label, text, false, writer)
}

fn released_text(alloc: Global, block: u64) -> Result<Vec<u8>, io::Error>
    ensures { IfOk result (λ t. t.items ≡ codes "block " ++ (decimal block ++ codes " released")) }
{
    let mut text = empty_text(alloc)?;
    write!(text, "block {block} released")?;
    Ok(text)
}

fn text_of(alloc: Global, names: &[Name], event: &LedgerEvent) -> Result<Vec<u8>, io::Error>
    ensures { IfOk result (λ t. t.items ≡ ledger_text names.now event.now) }
{
    let mut text = empty_text(alloc)?;
    write_event(names, event, &mut text)?;
    Ok(text)
}

fn write_event<W: Write>(
    names: &[Name],
    event: &LedgerEvent,
    writer: &mut W,
) -> Result<(), io::Error>
    ensures { OnOk result (Appends (W.contents writer.old) (W.contents writer.new) (ledger_text names.now event.now)) }
{
    match event {
        LedgerEvent::Opened { block, .. } => write!(writer, "block {block} opened"),
        LedgerEvent::Posted {
            sender,
            receiver,
            ..
        } => write_message(names, *sender, *receiver, " posted", writer),
        LedgerEvent::Taken { sender, receiver } => {
            write_message(names, *sender, *receiver, " taken", writer)
        }
        LedgerEvent::Spent { serial } => write!(writer, "ticket {serial} spent"),
        LedgerEvent::Accessed {
            serial,
            index,
            change,
            ..
        } => write_change(*index, *serial, *change, writer),
        LedgerEvent::Acted { agent, act } => write_act(names, *agent, *act, writer),
        LedgerEvent::Drained { sender, receiver } => {
            write_message(names, *sender, *receiver, " drained", writer)
        }
    }
}

/// Writes what an agent did that changes no block, ticket, word or port.
fn write_act<W: Write>(
    names: &[Name],
    agent: usize,
    act: Act,
    writer: &mut W,
) -> Result<(), io::Error>
    ensures { OnOk result (Appends (W.contents writer.old) (W.contents writer.new) (act_text names.now agent act)) }
{
    match act {
        Act::Waiting { sender } => write_wait(names, agent, sender, " waits for ", writer),
        Act::Passed { sender } => write_wait(names, agent, sender, " waits no more for ", writer),
        Act::Ended => write_deed(names, agent, " ended", writer),
        Act::Slept { serial, index, .. } => write_sleep(names, agent, serial, index, writer),
        Act::Notified { serial, index, .. } => write_word(index, serial, " notified", writer),
        Act::Woke | Act::TimedOut => write_deed(names, agent, " wakes", writer),
    }
}

/// Writes what was done to the word at an index through the ticket of a serial.
fn write_change<W: Write>(
    index: usize,
    serial: u64,
    change: Change,
    writer: &mut W,
) -> Result<(), io::Error>
    ensures { OnOk result (Appends (W.contents writer.old) (W.contents writer.new) (word_text index serial (change_text change))) }
{
    match change {
        Change::Keep => write_word(index, serial, " loaded", writer),
        Change::Write(_) => write_word(index, serial, " stored", writer),
        Change::Add(_) => write_word(index, serial, " added to", writer),
    }
}

fn write_message<W: Write>(
    names: &[Name],
    sender: usize,
    receiver: usize,
    what: &str,
    writer: &mut W,
) -> Result<(), io::Error>
    ensures { OnOk result (Appends (W.contents writer.old) (W.contents writer.new) (message_text names.now sender receiver what.now)) }
{
    let sender = name_at(names, sender);
    let receiver = name_at(names, receiver);
    write!(writer, "message {sender} to {receiver}{what}")
}

fn write_word<W: Write>(
    index: usize,
    serial: u64,
    what: &str,
    writer: &mut W,
) -> Result<(), io::Error>
    ensures { OnOk result (Appends (W.contents writer.old) (W.contents writer.new) (word_text index serial what.now)) }
{
    write!(writer, "word {index}{what} by ticket {serial}")
}

fn write_wait<W: Write>(
    names: &[Name],
    agent: usize,
    sender: usize,
    what: &str,
    writer: &mut W,
) -> Result<(), io::Error>
    ensures { OnOk result (Appends (W.contents writer.old) (W.contents writer.new) (name_said names.now agent ++ (what.now ++ name_said names.now sender))) }
{
    let agent = name_at(names, agent);
    let sender = name_at(names, sender);
    write!(writer, "{agent}{what}{sender}")
}

fn write_sleep<W: Write>(
    names: &[Name],
    agent: usize,
    serial: u64,
    index: usize,
    writer: &mut W,
) -> Result<(), io::Error>
    ensures { OnOk result (Appends (W.contents writer.old) (W.contents writer.new) (name_said names.now agent ++ (codes " sleeps at word " ++ (decimal index ++ (codes " by ticket " ++ decimal serial))))) }
{
    let agent = name_at(names, agent);
    write!(writer, "{agent} sleeps at word {index} by ticket {serial}")
}

/// Writes what an agent did, of which its name is all that there is to tell.
fn write_deed<W: Write>(
    names: &[Name],
    agent: usize,
    what: &str,
    writer: &mut W,
) -> Result<(), io::Error>
    ensures { OnOk result (Appends (W.contents writer.old) (W.contents writer.new) (name_said names.now agent ++ what.now)) }
{
    let agent = name_at(names, agent);
    write!(writer, "{agent}{what}")
}
