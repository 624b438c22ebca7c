//! Reports of long histories, whose lines are made beside each other.

ghost use Rattle.std.specs.Prelude.{◌≡◌, ◌<◌, ℕ, [], length, slice_index_or, IfOk, OnOk};
ghost use Rattle.std.specs.Io.KnownBytes.{Appends};
ghost use Rattle.es_event.specs.Report.{agent_text, agents_text, report};
ghost use Rattle.es_report.specs.Counts.{IsCountsOf};
ghost use Rattle.es_report.specs.Tallies.{AreTallies};

use crate::agent::write_agent;
use crate::cluster::write_counts;
use crate::counts::Counts;
use crate::report::write_report_counted;
use es_event::{Event, Outcome, Sequence};
use es_registry::Tally;
use es_value::{Name, NoMemory};
use std::alloc::Global;
use std::io::{BufWriter, Write};
use std::thread::Threads;
use std::{io, thread};

/// How many events a history has at least whose lines are made in a thread of its own.
const MANY: usize = 10_000;

/// Writes the report of a run whose totals were counted before, as `write_report_counted` does. Where several
/// histories have names and one of them is long, the lines of each agent are made in a thread of its own where one
/// can be made, and take memory until they are written; those for which there is none are written at once.
pub fn write_report_beside<R: Threads + Sync, W: Write>(
    rt: &R,
    alloc: Global,
    outcome: &Outcome,
    counts: &Counts,
    writer: &mut W,
) -> Result<(), io::Error>
    requires { IsCountsOf outcome.now counts.now }
    ensures { OnOk result (Appends (W.contents writer.old) (W.contents writer.new) (report outcome.now)) }
{
    let names = outcome.names.as_slice();
    let histories = outcome.histories.as_slice();
    if names.len() == histories.len() && are_long(histories) {
        if let Ok(texts) = texts_of(rt, alloc, names, histories, counts.tallies()) {
            write_texts(names, histories, counts.tallies(), &texts, writer)?;
            return write_counts(counts, writer);
        }
    }
    write_report_counted(outcome, counts, writer)
}

/// Whether one of several histories is long.
fn are_long(histories: &[Sequence<Event>]) -> bool {
    histories.len() > 1
        && histories
            .iter()
            .any(|history| history.as_slice().len() >= MANY)
}

/// The lines of each agent, where there is memory for them.
fn texts_of<R: Threads + Sync>(
    rt: &R,
    alloc: Global,
    names: &[Name],
    histories: &[Sequence<Event>],
    tallies: &[Tally],
) -> Result<Vec<Result<Vec<u8>, NoMemory>>, NoMemory>
    requires size { length names.now ≡ length histories.now }
    requires tallies { AreTallies histories.now tallies.now }
    ensures size { IfOk result (λ v. length v.items ≡ length histories.now) }
    ensures each { IfOk result (λ v. (i : ℕ) (d : _) → i < length histories.now → IfOk (slice_index_or v.items i d) (λ t. t.items ≡ agent_text (slice_index_or names.now i []) (slice_index_or histories.now i []))) }
{
    let texts = thread::map_indices(
        rt,
        alloc,
        histories.len(),
        &|i| { text_at(alloc, names, histories, tallies, i) },
    )?;
    Ok(texts)
}

/// The lines of the agent at a place.
fn text_at(
    alloc: Global,
    names: &[Name],
    histories: &[Sequence<Event>],
    tallies: &[Tally],
    place: usize,
) -> Result<Vec<u8>, NoMemory>
    requires inside { place < length histories.now }
    requires size { length names.now ≡ length histories.now }
    requires tallies { AreTallies histories.now tallies.now }
    ensures { IfOk result (λ t. t.items ≡ agent_text (slice_index_or names.now place []) (slice_index_or histories.now place [])) }
{
    // a piece of a line costs less in a buffer than in a list
    let Ok(mut writer) = BufWriter::new(alloc, Vec::new(alloc)) else {
        return Err(NoMemory);
    };
    if write_at(names, histories, tallies, place, &mut writer).is_err() {
        return Err(NoMemory);
    }
    match writer.into_inner() {
        Ok(text) => Ok(text),
        Err(_) => Err(NoMemory),
    }
}

/// Writes the lines of the agent at a place.
fn write_at<W: Write>(
    names: &[Name],
    histories: &[Sequence<Event>],
    tallies: &[Tally],
    place: usize,
    writer: &mut W,
) -> Result<(), io::Error>
    requires inside { place < length histories.now }
    requires size { length names.now ≡ length histories.now }
    requires tallies { AreTallies histories.now tallies.now }
    ensures { OnOk result (Appends (W.contents writer.old) (W.contents writer.new) (agent_text (slice_index_or names.now place []) (slice_index_or histories.now place []))) }
{
    write_agent(&names[place], &histories[place], &tallies[place], writer)
}

/// Writes the lines of agents, those for which there was memory as they were made.
fn write_texts<W: Write>(
    names: &[Name],
    histories: &[Sequence<Event>],
    tallies: &[Tally],
    texts: &[Result<Vec<u8>, NoMemory>],
    writer: &mut W,
) -> Result<(), io::Error>
    requires size { (length names.now ≡ length histories.now) × (length texts.now ≡ length histories.now) }
    requires tallies { AreTallies histories.now tallies.now }
    requires each { (i : ℕ) (d : _) → i < length histories.now → IfOk (slice_index_or texts.now i d) (λ t. t.items ≡ agent_text (slice_index_or names.now i []) (slice_index_or histories.now i [])) }
    ensures { OnOk result (Appends (W.contents writer.old) (W.contents writer.new) (agents_text names.now histories.now)) }
{
    for i in 0..histories.len() {
        write_text(names, histories, tallies, i, &texts[i], writer)?;
    }
    Ok(())
}

/// Writes the lines of the agent at a place, which were made if there was memory.
fn write_text<W: Write>(
    names: &[Name],
    histories: &[Sequence<Event>],
    tallies: &[Tally],
    place: usize,
    text: &Result<Vec<u8>, NoMemory>,
    writer: &mut W,
) -> Result<(), io::Error>
    requires inside { place < length histories.now }
    requires size { length names.now ≡ length histories.now }
    requires tallies { AreTallies histories.now tallies.now }
    requires made { IfOk text.now (λ t. t.items ≡ agent_text (slice_index_or names.now place []) (slice_index_or histories.now place [])) }
    ensures { OnOk result (Appends (W.contents writer.old) (W.contents writer.new) (agent_text (slice_index_or names.now place []) (slice_index_or histories.now place []))) }
{
    match text {
        Ok(text) => writer.write_all(text.as_slice()),
        Err(_) => write_at(names, histories, tallies, place, writer),
    }
}
