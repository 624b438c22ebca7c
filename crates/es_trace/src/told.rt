//! What an event of the ledger tells besides.

ghost use Rattle.std.specs.Prelude.{◌≡◌, ◌++◌, codes, decimal, OnOk};
ghost use Rattle.std.specs.Io.KnownBytes.{Appends};
ghost use Rattle.es_value.specs.Printed.{value_text};
ghost use Rattle.es_trace.specs.Commands.{name_at as name_said};
ghost use Rattle.es_trace.specs.Ledger.{act_tells as act_tells_said, body_text, tells as tells_said, told_act, told_of, told_text};

use crate::naming::name_at;
use es_event::{Act, Body, Change, LedgerEvent};
use es_value::{Name, Value, write_value};
use std::io;
use std::io::Write;

/// Whether the event tells something besides.
pub(crate) fn tells(event: &LedgerEvent) -> bool
    ensures { result ≡ tells_said event.now }
{
    match event {
        LedgerEvent::Opened { .. } | LedgerEvent::Posted { .. } | LedgerEvent::Accessed { .. } =>
            true,
        LedgerEvent::Acted { act, .. } => act_tells(*act),
        LedgerEvent::Taken { .. } | LedgerEvent::Spent { .. } | LedgerEvent::Drained { .. } =>
            false,
    }
}

/// Whether what an agent did tells something besides.
fn act_tells(act: Act) -> bool
    ensures { result ≡ act_tells_said act }
{
    match act {
        Act::Slept { .. } | Act::Notified { .. } | Act::Woke | Act::TimedOut => true,
        Act::Waiting { .. } | Act::Passed { .. } | Act::Ended => false,
    }
}

/// Writes what the event tells besides, with its line end, if it tells something.
pub(crate) fn write_told<W: Write>(
    names: &[Name],
    event: &LedgerEvent,
    writer: &mut W,
) -> Result<(), io::Error>
    ensures { OnOk result (Appends (W.contents writer.old) (W.contents writer.new) (told_text names.now event.now)) }
{
    match event {
        LedgerEvent::Opened {
            words,
            serial,
            agent,
            ..
        } => write_ticket(names, *serial, *agent, *words, writer),
        LedgerEvent::Posted { body, .. } => write_body(body, writer),
        LedgerEvent::Accessed { change, old, .. } => write_word(*change, *old, writer),
        LedgerEvent::Acted { act, .. } => write_act(*act, writer),
        LedgerEvent::Taken { .. } | LedgerEvent::Spent { .. } | LedgerEvent::Drained { .. } => {
            Ok(())
        }
    }
}

/// Writes the word that a sleeping agent read, how many agents a notify took, or the text that a wait gives.
fn write_act<W: Write>(act: Act, writer: &mut W) -> Result<(), io::Error>
    ensures { OnOk result (Appends (W.contents writer.old) (W.contents writer.new) (told_act act)) }
{
    match act {
        Act::Slept { word, .. } => writeln!(writer, "{word}"),
        Act::Notified { taken, .. } => writeln!(writer, "{taken}"),
        Act::Woke => writer.write_all(b"\"ok\"\n"),
        Act::TimedOut => writer.write_all(b"\"timed-out\"\n"),
        Act::Waiting { .. } | Act::Passed { .. } | Act::Ended => Ok(()),
    }
}

fn write_ticket<W: Write>(
    names: &[Name],
    serial: u64,
    agent: usize,
    words: u32,
    writer: &mut W,
) -> Result<(), io::Error>
    ensures { OnOk result (Appends (W.contents writer.old) (W.contents writer.new) (codes "ticket " ++ (decimal serial ++ (codes " of " ++ (name_said names.now agent ++ (codes ", words " ++ (decimal words ++ codes "\n"))))))) }
{
    let agent = name_at(names, agent);
    writeln!(writer, "ticket {serial} of {agent}, words {words}")
}

fn write_body<W: Write>(body: &Body, writer: &mut W) -> Result<(), io::Error>
    ensures { OnOk result (Appends (W.contents writer.old) (W.contents writer.new) (body_text body.now)) }
{
    match body {
        Body::Plain(value) => write_plain(value, writer),
        Body::Block { block, serial } => writeln!(writer, "block {block}, ticket {serial}"),
    }
}

fn write_plain<W: Write>(value: &Value, writer: &mut W) -> Result<(), io::Error>
    ensures { OnOk result (Appends (W.contents writer.old) (W.contents writer.new) (value_text value.now ++ codes "\n")) }
{
    write_value(value, writer)?;
    writer.write_all(b"\n")
}

/// Writes the word that was read or written, or the one that was there and what was added to it.
fn write_word<W: Write>(change: Change, old: u32, writer: &mut W) -> Result<(), io::Error>
    ensures { OnOk result (Appends (W.contents writer.old) (W.contents writer.new) (told_of change old)) }
{
    match change {
        Change::Keep => writeln!(writer, "{old}"),
        Change::Write(word) => writeln!(writer, "{word}"),
        Change::Add(addend) => writeln!(writer, "{old} + {addend}"),
    }
}
