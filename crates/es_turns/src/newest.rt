//! What is told of the newest event of an agent.

ghost use Rattle.std.specs.Prelude.{◌≡◌, ◌∷◌, ◌++◌, ℕ, List, OnOk};
ghost use Rattle.es_event.specs.History.{History};
ghost use Rattle.es_cluster.specs.Turned.{GrowsByOne};
ghost use Rattle.es_record.specs.AgentView.{AgentView};
ghost use Rattle.es_trace.specs.Keeping.{Keeps};
ghost use Rattle.es_turns.specs.Known.{Grows};
ghost use Rattle.es_turns.specs.Told.{IsNewestTold, event_told};

use crate::collection::tell_after;
use es_agent::AgentCore;
use es_cluster::Planned;
use es_event::{AgentPlan, Event};
use es_options::{Form, View};
use es_trace::Scribe;
use es_trace_json::write_event_line;
use es_value::{Name, NoMemory};
use std::alloc::Global;

/// Tells of the agent's newest event, and, where it emptied something, of what stays.
pub(crate) fn tell_newest<L: Planned>(
    alloc: Global,
    view: View,
    names: &[Name],
    agent: &AgentCore<L>,
    scribe: &mut Scribe,
    text: &mut Vec<u8>,
) -> Result<(), NoMemory>
    ensures keeps { OnOk result ((b : AgentView) → Keeps names.now b.plan b.history scribe.old → GrowsByOne b agent.now → Keeps names.now agent.now.plan agent.now.history scribe.new) }
    ensures text { OnOk result ((b : AgentView) → Keeps names.now b.plan b.history scribe.old → GrowsByOne b agent.now → Grows text.old.items text.new.items (IsNewestTold view names.now agent.now agent.now.history)) }
{
    let Some(event) = agent.history().last() else {
        return Ok(());
    };
    tell_event(alloc, view.form, names, agent.plan(), event, scribe, text)?;
    tell_after(alloc, view, agent.record(), event, scribe, text)
}

/// Tells of the event of an agent with this plan; the scribe follows it.
fn tell_event(
    alloc: Global,
    form: Form,
    names: &[Name],
    plan: &AgentPlan,
    event: &Event,
    scribe: &mut Scribe,
    text: &mut Vec<u8>,
) -> Result<(), NoMemory>
    ensures keeps { OnOk result ((h : History) → Keeps names.now plan.now h scribe.old → Keeps names.now plan.now (event.now ∷ h) scribe.new) }
    ensures text { OnOk result ((h : History) → Keeps names.now plan.now h scribe.old → text.new.items ≡ text.old.items ++ event_told form names.now plan.now h event.now) }
{
    match form {
        Form::Rows => tell_rows(alloc, names, plan, event, scribe, text),
        Form::Lines => tell_line(names, plan, event, scribe, text),
        Form::Pictures => follow(plan, event, scribe),
    }
}

fn tell_rows(
    alloc: Global,
    names: &[Name],
    plan: &AgentPlan,
    event: &Event,
    scribe: &mut Scribe,
    text: &mut Vec<u8>,
) -> Result<(), NoMemory>
    ensures keeps { OnOk result ((h : History) → Keeps names.now plan.now h scribe.old → Keeps names.now plan.now (event.now ∷ h) scribe.new) }
    ensures text { OnOk result ((h : History) → Keeps names.now plan.now h scribe.old → text.new.items ≡ text.old.items ++ event_told Form.Rows names.now plan.now h event.now) }
{
    match scribe.write(alloc, names, plan, event, text) {
        Ok(()) => Ok(()),
        Err(_) => Err(NoMemory),
    }
}

fn tell_line(
    names: &[Name],
    plan: &AgentPlan,
    event: &Event,
    scribe: &mut Scribe,
    text: &mut Vec<u8>,
) -> Result<(), NoMemory>
    ensures keeps { OnOk result ((h : History) → Keeps names.now plan.now h scribe.old → Keeps names.now plan.now (event.now ∷ h) scribe.new) }
    ensures text { OnOk result ((h : History) → Keeps names.now plan.now h scribe.old → text.new.items ≡ text.old.items ++ event_told Form.Lines names.now plan.now h event.now) }
{
    match write_event_line(names, plan, scribe.at_hand(plan), event, text) {
        Ok(()) => follow(plan, event, scribe),
        Err(_) => Err(NoMemory),
    }
}

fn follow(plan: &AgentPlan, event: &Event, scribe: &mut Scribe) -> Result<(), NoMemory>
    ensures { OnOk result ((names : List (List ℕ)) (h : History) → Keeps names plan.now h scribe.old → Keeps names plan.now (event.now ∷ h) scribe.new) }
{
    match scribe.follow(plan, event) {
        Ok(()) => Ok(()),
        Err(_) => Err(NoMemory),
    }
}
