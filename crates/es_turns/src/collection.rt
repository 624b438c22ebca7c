//! What is told after an emptying.

ghost use Rattle.std.specs.Prelude.{ℕ, Bool, List, OnOk};
ghost use Rattle.es_event.specs.History.{History};
ghost use Rattle.es_trace.specs.Keeping.{Keeps};
ghost use Rattle.es_turns.specs.Known.{Grows};
ghost use Rattle.es_turns.specs.Told.{IsAfterTold, IsCollectionTold};

use es_event::Event;
use es_options::{Form, View};
use es_record::AgentRecord;
use es_trace::Scribe;
use es_trace_json::write_kept_lines;
use es_value::{Id, NoMemory};
use es_why::{kept_values, write_picture};
use std::alloc::Global;

/// Tells of what stays, if the agent's newest event is an emptying.
pub(crate) fn tell_after(
    alloc: Global,
    view: View,
    agent: &AgentRecord,
    event: &Event,
    scribe: &Scribe,
    text: &mut Vec<u8>,
) -> Result<(), NoMemory>
    ensures { OnOk result ((names : List (List ℕ)) (h : History) → Keeps names agent.now.plan h scribe.now → Grows text.old.items text.new.items (IsAfterTold view names agent.now event.now)) }
{
    match event {
        Event::Emptied { ids } => tell_collection(
            alloc,
            view.form,
            view.all,
            agent,
            ids.as_slice(),
            scribe,
            text,
        ),
        Event::JobBegun { .. }
        | Event::CleanupBegun { .. }
        | Event::Received { .. }
        | Event::Did(_)
        | Event::Refused { .. }
        | Event::Taken { .. }
        | Event::JobEnded
        | Event::Skipped { .. }
        | Event::Closed => Ok(()),
    }
}

/// Tells of what stays after the agent emptied these.
fn tell_collection(
    alloc: Global,
    form: Form,
    all: bool,
    agent: &AgentRecord,
    emptied: &[Id],
    scribe: &Scribe,
    text: &mut Vec<u8>,
) -> Result<(), NoMemory>
    ensures { OnOk result ((names : List (List ℕ)) (h : History) → Keeps names agent.now.plan h scribe.now → Grows text.old.items text.new.items (IsCollectionTold form all names agent.now emptied.now)) }
{
    match form {
        Form::Rows => tell_kept(alloc, all, agent, scribe, text),
        Form::Lines => tell_kept_lines(alloc, all, agent, text),
        Form::Pictures => draw(alloc, agent, emptied, text),
    }
}

fn tell_kept(
    alloc: Global,
    all: bool,
    agent: &AgentRecord,
    scribe: &Scribe,
    text: &mut Vec<u8>,
) -> Result<(), NoMemory>
    ensures { OnOk result ((names : List (List ℕ)) (h : History) (ids : List ℕ) → Keeps names agent.now.plan h scribe.now → Grows text.old.items text.new.items (IsCollectionTold Form.Rows all names agent.now ids)) }
{
    let kept = kept_values(alloc, agent, all)?;
    match scribe.write_kept(alloc, kept.as_slice(), text) {
        Ok(()) => Ok(()),
        Err(_) => Err(NoMemory),
    }
}

fn tell_kept_lines(
    alloc: Global,
    all: bool,
    agent: &AgentRecord,
    text: &mut Vec<u8>,
) -> Result<(), NoMemory>
    ensures { OnOk result ((names : List (List ℕ)) (ids : List ℕ) → Grows text.old.items text.new.items (IsCollectionTold Form.Lines all names agent.now ids)) }
{
    let kept = kept_values(alloc, agent, all)?;
    match write_kept_lines(&agent.plan().name, kept.as_slice(), text) {
        Ok(()) => Ok(()),
        Err(_) => Err(NoMemory),
    }
}

/// Draws the agent's heap after it emptied these.
fn draw(
    alloc: Global,
    agent: &AgentRecord,
    emptied: &[Id],
    text: &mut Vec<u8>,
) -> Result<(), NoMemory>
    ensures { OnOk result ((all : Bool) (names : List (List ℕ)) → Grows text.old.items text.new.items (IsCollectionTold Form.Pictures all names agent.now emptied.now)) }
{
    match write_picture(alloc, agent, emptied, text) {
        Ok(()) => Ok(()),
        Err(_) => Err(NoMemory),
    }
}
