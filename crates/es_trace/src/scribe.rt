//! The rows of an agent, one event after the other.

ghost use Rattle.std.specs.Prelude.{◌≡◌, ◌∷◌, [], ℕ, List, IfOk, OnOk};
ghost use Rattle.std.specs.List.{flat_map};
ghost use Rattle.std.specs.Option.{option_copied};
ghost use Rattle.std.specs.Io.KnownBytes.{Appends};
ghost use Rattle.es_event.specs.declared.plan.AgentPlan.{AgentPlan as PlanSaid};
ghost use Rattle.es_event.specs.History.{History};
ghost use Rattle.es_trace.specs.Columns.{label as label_said, widest};
ghost use Rattle.es_trace.specs.Events.{at_hand as at_hand_said, emptied_row, emptied_rows, event_rows, rows_after};
ghost use Rattle.es_trace.specs.Keeping.{Keeps};
ghost use Rattle.es_trace.specs.Kept.{kept_rows};

use crate::answer::{answers, write_answer};
use crate::callbacks::Callbacks;
use crate::event::text_of;
use crate::kept::write_kept_rows;
use crate::names::width_of;
use crate::place::Place;
use crate::row::{id_text, label_of, write_row};
use es_event::{AgentPlan, Command, Event};
use es_mark::Kept;
use es_value::{Id, Name};
use std::alloc::Global;
use std::io;
use std::io::Write;

/// Who writes the rows of one agent, one event after the other: the agent's name in its column, and where the
/// events led the agent in its plan.
#[derive(Drop)]
pub struct Scribe {
    label: Vec<u8>,
    place: Place,
    callbacks: Callbacks,
}

impl Scribe {
    /// Before the first event of an agent with this plan. `names` are those of all agents, in the plan's order; the
    /// longest says how wide their column is. It takes memory for the agent's name.
    pub fn new(alloc: Global, names: &[Name], plan: &AgentPlan) -> Result<Scribe, io::Error>
        ensures { IfOk result (Keeps names.now plan.now []) }
    {
        Ok(Scribe {
            label: label_of(alloc, plan.name.as_str(), width_of(names))?,
            place: Place::start(),
            callbacks: Callbacks::new(alloc),
        })
    }

    /// Writes the rows of the agent's next event: the command as the plan has it and what it answered, and a row for
    /// each object and symbol that it empties.
    ///
    /// It takes memory for the text of an event, and where a FinalizationRegistry is made. Fails where there is
    /// none, and where the writer fails; then a part of the rows may be written, and no more should be.
    pub fn write<W: Write>(
        &mut self,
        alloc: Global,
        names: &[Name],
        plan: &AgentPlan,
        event: &Event,
        writer: &mut W,
    ) -> Result<(), io::Error>
        ensures rows { OnOk result ((h : History) → Keeps names.now plan.now h self.old → Appends (W.contents writer.old) (W.contents writer.new) (rows_after names.now plan.now h event.now)) }
        ensures keeps { OnOk result ((h : History) → Keeps names.now plan.now h self.old → Keeps names.now plan.now (event.now ∷ h) self.new) }
    {
        let at_hand = self.place.at_hand(plan);
        write_rows(
            alloc,
            names,
            plan,
            self.label.as_slice(),
            at_hand,
            event,
            writer,
        )?;
        self.follow(plan, event)
    }

    /// Writes a row for each of these values, in their order: its number, and what keeps it.
    ///
    /// It takes memory for the text of a row. Fails where there is none, and where the writer fails; then some rows
    /// may be written.
    pub fn write_kept<W: Write>(
        &self,
        alloc: Global,
        kept: &[Kept],
        writer: &mut W,
    ) -> Result<(), io::Error>
        ensures { OnOk result ((names : List (List ℕ)) (plan : PlanSaid) (h : History) → Keeps names plan h self.now → Appends (W.contents writer.old) (W.contents writer.new) (kept_rows (label_said (widest 1 names) plan.name) kept.now)) }
    {
        write_kept_rows(alloc, self.label.as_slice(), kept, writer)
    }

    /// The next command of the job or the callback that runs, if one is left. `plan` is the agent's.
    pub fn at_hand<'a>(&self, plan: &'a AgentPlan) -> Option<&'a Command>
        ensures { (names : List (List ℕ)) (h : History) → Keeps names plan.now h self.now → option_copied result ≡ at_hand_said plan.now h }
    {
        self.place.at_hand(plan)
    }

    /// Takes note of the agent's next event, as `write` does, and writes nothing. `plan` is the agent's.
    ///
    /// It takes memory where a FinalizationRegistry is made, and fails where there is none.
    pub fn follow(&mut self, plan: &AgentPlan, event: &Event) -> Result<(), io::Error>
        ensures { OnOk result ((names : List (List ℕ)) (h : History) → Keeps names plan.now h self.old → Keeps names plan.now (event.now ∷ h) self.new) }
    {
        let callback = self.callbacks.of(self.place.registry());
        self.place = self.place.after(plan, event, callback);
        self.callbacks.note(event)
    }
}

/// Writes the rows of an event, where this command was at hand.
fn write_rows<W: Write>(
    alloc: Global,
    names: &[Name],
    plan: &AgentPlan,
    label: &[u8],
    at_hand: Option<&Command>,
    event: &Event,
    writer: &mut W,
) -> Result<(), io::Error>
    ensures { OnOk result (Appends (W.contents writer.old) (W.contents writer.new) (event_rows names.now plan.now label.now (option_copied at_hand.entry) event.now)) }
{
    let text = text_of(alloc, names, plan, at_hand, event)?;
    write_row(label, text, answers(event), writer)?;
    write_answer(event, writer)?;
    write_emptied(alloc, label, event, writer)
}

/// Writes a row for each object and symbol that the event empties.
fn write_emptied<W: Write>(
    alloc: Global,
    label: &[u8],
    event: &Event,
    writer: &mut W,
) -> Result<(), io::Error>
    ensures { OnOk result (Appends (W.contents writer.old) (W.contents writer.new) (emptied_rows label.now event.now)) }
{
    match event {
        Event::Emptied { ids } => write_ids(alloc, label, ids.as_slice(), writer),
        Event::Did(_)
        | Event::Taken { .. }
        | Event::JobBegun { .. }
        | Event::CleanupBegun { .. }
        | Event::Received { .. }
        | Event::Refused { .. }
        | Event::JobEnded
        | Event::Skipped { .. }
        | Event::Closed => Ok(()),
    }
}

fn write_ids<W: Write>(
    alloc: Global,
    label: &[u8],
    ids: &[Id],
    writer: &mut W,
) -> Result<(), io::Error>
    ensures { OnOk result (Appends (W.contents writer.old) (W.contents writer.new) (flat_map (emptied_row label.now) ids.now)) }
{
    for id in ids {
        write_id(alloc, label, *id, writer)?;
    }
    Ok(())
}

/// Writes the row of an object or a symbol that was emptied.
fn write_id<W: Write>(alloc: Global, label: &[u8], id: Id, writer: &mut W) -> Result<(), io::Error>
    ensures { OnOk result (Appends (W.contents writer.old) (W.contents writer.new) (emptied_row label.now id)) }
{
    let text = id_text(alloc, id)?;
    write_row(label, text, true, writer)?;
    writer.write_all(b"emptied\n")
}
