//! The lines of a ledger's table, by serial.

ghost use Rattle.std.specs.Prelude.{◌≡◌, ℕ, OnOk, Some};
ghost use Rattle.std.specs.Option.{option_and_then, option_map};
ghost use Rattle.std.specs.HashMap.{Updates};
ghost use Rattle.es_event.specs.Ledger.{by_agent};
ghost use Rattle.es_match.specs.LedgerPass.{body_of, line_after, line_in, move_line, post_line, put_line};

use es_event::{Body, Entry, Holder, LedgerEvent, Row};
use es_value::NoMemory;
use std::collections::HashMap;
use std::hash::Hash;

/// For each serial its line.
pub(crate) type Lines = HashMap<u64, Entry>;

/// The agent that holds the ticket of the serial.
pub(crate) fn holder(lines: &Lines, serial: u64) -> Option<usize>
    ensures { result ≡ option_map (λ p. p.0) (option_and_then by_agent (line_in lines.now serial)) }
{
    match lines.get(&serial) {
        Some(entry) => agent_of(entry),
        None => None,
    }
}

fn agent_of(entry: &Entry) -> Option<usize>
    ensures { result ≡ option_map (λ p. p.0) (by_agent entry.now) }
{
    match entry.holder {
        Holder::Agent(agent) => Some(agent),
        Holder::Port { .. } | Holder::Nobody => None,
    }
}

/// Puts a value under a key.
pub(crate) fn put<K: Eq + Hash + Drop, V: Drop>(
    map: &mut HashMap<K, V>,
    key: K,
    value: V,
) -> Result<(), NoMemory>
    ensures { OnOk result (Updates K.eq map.old map.new key (Some value)) }
{
    map.insert(key, value)?;
    Ok(())
}

/// Puts a line into the table; where the serial has one, that one stays.
fn add(lines: &mut Lines, entry: Entry) -> Result<(), NoMemory>
    ensures { OnOk result ((q : ℕ) → line_in lines.new q ≡ put_line entry q (line_in lines.old q)) }
{
    if lines.contains_key(&entry.row.serial) {
        return Ok(());
    }
    put(lines, entry.row.serial, entry)
}

/// Hands the ticket of the serial, if there is one, to another holder.
fn hand(lines: &mut Lines, serial: u64, holder: Holder) -> Result<(), NoMemory>
    ensures { OnOk result ((q : ℕ) → line_in lines.new q ≡ move_line serial holder q (line_in lines.old q)) }
{
    match lines.get(&serial) {
        Some(entry) => {
            let row = entry.row;
            put(lines, serial, Entry { row, holder })
        }
        None => Ok(()),
    }
}

fn add_posted(
    lines: &mut Lines,
    sender: usize,
    receiver: usize,
    body: &Body,
    words: u32,
) -> Result<(), NoMemory>
    ensures { OnOk result ((q : ℕ) → line_in lines.new q ≡ post_line words sender receiver body.now q (line_in lines.old q)) }
{
    match body {
        Body::Plain(_) => Ok(()),
        Body::Block { block, serial } => add(
            lines,
            Entry {
                row: Row {
                    serial: *serial,
                    block: *block,
                    words,
                },
                holder: Holder::Port { sender, receiver },
            },
        ),
    }
}

/// The table after an event that takes this message, or posts a block of so many words.
pub(crate) fn note(
    lines: &mut Lines,
    event: &LedgerEvent,
    taken: Option<&Body>,
    posted: u32,
) -> Result<(), NoMemory>
    ensures { OnOk result ((q : ℕ) → line_in lines.new q ≡ line_after (body_of taken.entry) posted event.now q (line_in lines.old q)) }
{
    match event {
        LedgerEvent::Opened {
            block,
            words,
            serial,
            agent,
        } => add(
            lines,
            Entry {
                row: Row {
                    serial: *serial,
                    block: *block,
                    words: *words,
                },
                holder: Holder::Agent(*agent),
            },
        ),
        LedgerEvent::Posted {
            sender,
            receiver,
            body,
        } => add_posted(lines, *sender, *receiver, body, posted),
        LedgerEvent::Taken { receiver, .. } => match taken {
            Some(Body::Block { serial, .. }) => hand(lines, *serial, Holder::Agent(*receiver)),
            _ => Ok(()),
        },
        LedgerEvent::Spent { serial } => hand(lines, *serial, Holder::Nobody),
        LedgerEvent::Accessed { .. } | LedgerEvent::Acted { .. } | LedgerEvent::Drained { .. } =>
            Ok(()),
    }
}
