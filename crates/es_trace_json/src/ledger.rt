//! The lines of the ledger.

ghost use Rattle.std.specs.Prelude.{◌≡◌, ◌++◌, codes, decimal, OnOk};
ghost use Rattle.std.specs.List.{flat_map};
ghost use Rattle.std.specs.Io.KnownBytes.{Appends};
ghost use Rattle.es_value.specs.Printed.{quoted};
ghost use Rattle.es_trace_json.specs.Ledger.{act_members, body_json, change_members, ends_json, ledger_line, ledger_lines, ledger_members, name_json, place_json, released_line};

use crate::member::write_agent;
use crate::value::{write_quoted, write_value};
use es_event::{Act, Body, Change, LedgerEvent};
use es_trace::name_at;
use es_value::Name;
use std::io;
use std::io::Write;

/// Writes the lines of these events of the ledger, the oldest first, and of the blocks that were released by them.
/// `names` are those of all agents, in the plan's order.
///
/// It takes no memory. Where the writer fails, it answers that error; then a part of the lines may be written.
pub fn write_ledger_lines<W: Write>(
    names: &[Name],
    events: &[LedgerEvent],
    blocks: &[u64],
    writer: &mut W,
) -> Result<(), io::Error>
    ensures { OnOk result (Appends (W.contents writer.old) (W.contents writer.new) (ledger_lines names.now events.now blocks.now)) }
{
    write_events(names, events, writer)?;
    write_released(blocks, writer)
}

fn write_events<W: Write>(
    names: &[Name],
    events: &[LedgerEvent],
    writer: &mut W,
) -> Result<(), io::Error>
    ensures { OnOk result (Appends (W.contents writer.old) (W.contents writer.new) (flat_map (ledger_line names.now) events.now)) }
{
    for event in events {
        write_line(names, event, writer)?;
    }
    Ok(())
}

fn write_released<W: Write>(blocks: &[u64], writer: &mut W) -> Result<(), io::Error>
    ensures { OnOk result (Appends (W.contents writer.old) (W.contents writer.new) (flat_map released_line blocks.now)) }
{
    for block in blocks {
        write_block(*block, writer)?;
    }
    Ok(())
}

fn write_block<W: Write>(block: u64, writer: &mut W) -> Result<(), io::Error>
    ensures { OnOk result (Appends (W.contents writer.old) (W.contents writer.new) (released_line block)) }
{
    writeln!(writer, "{{\"ledger\":\"released\",\"block\":{block}}}")
}

fn write_line<W: Write>(
    names: &[Name],
    event: &LedgerEvent,
    writer: &mut W,
) -> Result<(), io::Error>
    ensures { OnOk result (Appends (W.contents writer.old) (W.contents writer.new) (ledger_line names.now event.now)) }
{
    writer.write_all(b"{\"ledger\":")?;
    write_members(names, event, writer)?;
    writer.write_all(b"}\n")
}

/// Writes the name of the event and the members that follow.
fn write_members<W: Write>(
    names: &[Name],
    event: &LedgerEvent,
    writer: &mut W,
) -> Result<(), io::Error>
    ensures { OnOk result (Appends (W.contents writer.old) (W.contents writer.new) (ledger_members names.now event.now)) }
{
    match event {
        LedgerEvent::Opened {
            block,
            words,
            serial,
            agent,
        } => write_opened(names, *block, *words, *serial, *agent, writer),
        LedgerEvent::Posted {
            sender,
            receiver,
            body,
        } => write_posted(names, *sender, *receiver, body, writer),
        LedgerEvent::Taken { sender, receiver } => {
            write_message("taken", names, *sender, *receiver, writer)
        }
        LedgerEvent::Spent { serial } => write_spent(*serial, writer),
        LedgerEvent::Accessed {
            serial,
            index,
            change,
            old,
        } => write_change(*serial, *index, *old, *change, writer),
        LedgerEvent::Acted { agent, act } => write_act(names, *agent, *act, writer),
        LedgerEvent::Drained { sender, receiver } => {
            write_message("drained", names, *sender, *receiver, writer)
        }
    }
}

/// Writes what an agent did that changes no block, ticket, word or port.
fn write_act<W: Write>(
    names: &[Name],
    agent: usize,
    act: Act,
    writer: &mut W,
) -> Result<(), io::Error>
    ensures { OnOk result (Appends (W.contents writer.old) (W.contents writer.new) (act_members names.now agent act)) }
{
    match act {
        Act::Waiting { sender } => write_wait("waiting", names, agent, sender, writer),
        Act::Passed { sender } => write_wait("passed", names, agent, sender, writer),
        Act::Ended => write_deed("ended", names, agent, writer),
        Act::Slept {
            serial,
            index,
            word,
        } => write_sleep(names, agent, serial, index, word, writer),
        Act::Notified {
            serial,
            index,
            taken,
            ..
        } => write_notify(serial, index, taken, writer),
        Act::Woke => write_deed("woke", names, agent, writer),
        Act::TimedOut => write_deed("timed out", names, agent, writer),
    }
}

/// Writes what was done to a word, over the old one.
fn write_change<W: Write>(
    serial: u64,
    index: usize,
    old: u32,
    change: Change,
    writer: &mut W,
) -> Result<(), io::Error>
    ensures { OnOk result (Appends (W.contents writer.old) (W.contents writer.new) (change_members serial index old change)) }
{
    match change {
        Change::Keep => write_word("loaded", serial, index, old, writer),
        Change::Write(word) => write_word("stored", serial, index, word, writer),
        Change::Add(addend) => write_added(serial, index, old, addend, writer),
    }
}

fn write_opened<W: Write>(
    names: &[Name],
    block: u64,
    words: u32,
    serial: u64,
    agent: usize,
    writer: &mut W,
) -> Result<(), io::Error>
    ensures { OnOk result (Appends (W.contents writer.old) (W.contents writer.new) (codes "\"opened\",\"block\":" ++ (decimal block ++ (codes ",\"words\":" ++ (decimal words ++ (codes ",\"ticket\":" ++ (decimal serial ++ (codes ",\"agent\":" ++ name_json names.now agent)))))))) }
{
    let agent = name_at(names, agent);
    write!(
        writer,
        "\"opened\",\"block\":{block},\"words\":{words},\"ticket\":{serial},\"agent\":\"{agent}\""
    )
}

fn write_posted<W: Write>(
    names: &[Name],
    sender: usize,
    receiver: usize,
    body: &Body,
    writer: &mut W,
) -> Result<(), io::Error>
    ensures { OnOk result (Appends (W.contents writer.old) (W.contents writer.new) (codes "\"posted\"" ++ (ends_json names.now sender receiver ++ (codes ",\"carries\":" ++ body_json body.now)))) }
{
    writer.write_all(b"\"posted\"")?;
    write_ends(names, sender, receiver, writer)?;
    writer.write_all(b",\"carries\":")?;
    write_body(body, writer)
}

/// Writes what a message carries.
fn write_body<W: Write>(body: &Body, writer: &mut W) -> Result<(), io::Error>
    ensures { OnOk result (Appends (W.contents writer.old) (W.contents writer.new) (body_json body.now)) }
{
    match body {
        Body::Plain(value) => write_value(value, writer),
        Body::Block { block, serial } => {
            write!(writer, "{{\"block\":{block},\"ticket\":{serial}}}")
        }
    }
}

/// Writes what became of a message.
fn write_message<W: Write>(
    what: &str,
    names: &[Name],
    sender: usize,
    receiver: usize,
    writer: &mut W,
) -> Result<(), io::Error>
    ensures { OnOk result (Appends (W.contents writer.old) (W.contents writer.new) (quoted what.now ++ ends_json names.now sender receiver)) }
{
    write_quoted(what, writer)?;
    write_ends(names, sender, receiver, writer)
}

/// Writes the agents at the two ends of a message.
fn write_ends<W: Write>(
    names: &[Name],
    sender: usize,
    receiver: usize,
    writer: &mut W,
) -> Result<(), io::Error>
    ensures { OnOk result (Appends (W.contents writer.old) (W.contents writer.new) (ends_json names.now sender receiver)) }
{
    write_agent("sender", names, sender, writer)?;
    write_agent("receiver", names, receiver, writer)
}

fn write_spent<W: Write>(serial: u64, writer: &mut W) -> Result<(), io::Error>
    ensures { OnOk result (Appends (W.contents writer.old) (W.contents writer.new) (codes "\"spent\",\"ticket\":" ++ decimal serial)) }
{
    write!(writer, "\"spent\",\"ticket\":{serial}")
}

/// Writes what was done to a word through a ticket, and the word.
fn write_word<W: Write>(
    what: &str,
    serial: u64,
    index: usize,
    word: u32,
    writer: &mut W,
) -> Result<(), io::Error>
    ensures { OnOk result (Appends (W.contents writer.old) (W.contents writer.new) (quoted what.now ++ (place_json serial index ++ (codes ",\"word\":" ++ decimal word)))) }
{
    write_quoted(what, writer)?;
    write_place(serial, index, writer)?;
    write!(writer, ",\"word\":{word}")
}

fn write_added<W: Write>(
    serial: u64,
    index: usize,
    old: u32,
    addend: u32,
    writer: &mut W,
) -> Result<(), io::Error>
    ensures { OnOk result (Appends (W.contents writer.old) (W.contents writer.new) (codes "\"added\"" ++ (place_json serial index ++ (codes ",\"old\":" ++ (decimal old ++ (codes ",\"addend\":" ++ decimal addend)))))) }
{
    writer.write_all(b"\"added\"")?;
    write_place(serial, index, writer)?;
    write!(writer, ",\"old\":{old},\"addend\":{addend}")
}

/// Writes where a word is, and through which ticket it was reached.
fn write_place<W: Write>(serial: u64, index: usize, writer: &mut W) -> Result<(), io::Error>
    ensures { OnOk result (Appends (W.contents writer.old) (W.contents writer.new) (place_json serial index)) }
{
    write!(writer, ",\"ticket\":{serial},\"index\":{index}")
}

/// Writes that an agent waits for a sender, or waits no more.
fn write_wait<W: Write>(
    what: &str,
    names: &[Name],
    agent: usize,
    sender: usize,
    writer: &mut W,
) -> Result<(), io::Error>
    ensures { OnOk result (Appends (W.contents writer.old) (W.contents writer.new) (quoted what.now ++ (codes ",\"agent\":" ++ (name_json names.now agent ++ (codes ",\"sender\":" ++ name_json names.now sender))))) }
{
    write_quoted(what, writer)?;
    write_agent("agent", names, agent, writer)?;
    write_agent("sender", names, sender, writer)
}

/// Writes that an agent went to sleep at a word, and the word that it read there.
fn write_sleep<W: Write>(
    names: &[Name],
    agent: usize,
    serial: u64,
    index: usize,
    word: u32,
    writer: &mut W,
) -> Result<(), io::Error>
    ensures { OnOk result (Appends (W.contents writer.old) (W.contents writer.new) (codes "\"slept\",\"agent\":" ++ (name_json names.now agent ++ (place_json serial index ++ (codes ",\"word\":" ++ decimal word))))) }
{
    writer.write_all(b"\"slept\"")?;
    write_agent("agent", names, agent, writer)?;
    write_place(serial, index, writer)?;
    write!(writer, ",\"word\":{word}")
}

/// Writes that agents at a word were notified, and how many.
fn write_notify<W: Write>(
    serial: u64,
    index: usize,
    taken: usize,
    writer: &mut W,
) -> Result<(), io::Error>
    ensures { OnOk result (Appends (W.contents writer.old) (W.contents writer.new) (codes "\"notified\"" ++ (place_json serial index ++ (codes ",\"woken\":" ++ decimal taken)))) }
{
    writer.write_all(b"\"notified\"")?;
    write_place(serial, index, writer)?;
    write!(writer, ",\"woken\":{taken}")
}

/// Writes what an agent did, of which its name is all that there is to tell.
fn write_deed<W: Write>(
    what: &str,
    names: &[Name],
    agent: usize,
    writer: &mut W,
) -> Result<(), io::Error>
    ensures { OnOk result (Appends (W.contents writer.old) (W.contents writer.new) (quoted what.now ++ (codes ",\"agent\":" ++ name_json names.now agent))) }
{
    write_quoted(what, writer)?;
    write_agent("agent", names, agent, writer)
}
