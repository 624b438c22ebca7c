//! Whole plans.

ghost use Rattle.std.specs.Prelude.{◌≡◌, ◌<◌, ◌&&◌, length, nat_le, IfOk, Some, true, option_map, option_and_then};
ghost use Rattle.serde_json.specs.View.{view, items_view};
ghost use Rattle.serde_json.specs.Find.{as_number, as_i64};
ghost use Rattle.serde_json.specs.Events.{items_len};
ghost use Rattle.es_value.specs.Limits.{most_agents};
ghost use Rattle.es_event.specs.Others.{all_name_others};
ghost use Rattle.es_script.specs.Grammar.{no_callback_collects};
ghost use Rattle.es_script.specs.Fault.{Reads};
ghost use Rattle.es_reading.specs.Reading.{Gives};
ghost use Rattle.es_reading.specs.Versions.{version_of};
ghost use Rattle.es_script.specs.PlanRead.{plan_read, agents_checked};

use crate::by_tokens::quick_agents;
use crate::quit::Quit;
use crate::shape::has_plan_shape;
use es_event::{AgentPlan, Plan, Sequence};
use es_reading::{
    FaultCode, Place, ReadFault, Version, agents_of, check_names, fault_in, taken_items,
};
use es_value::MOST_AGENTS;
use serde_json::Value;
use std::alloc::Global;

/// Reads a plan from its JSON text in UTF-8.
///
/// It answers the plan that the text stands for, or else the first fault: no JSON, the whole shape,
/// the version, the number of agents, their names, and then agent by agent the limits, the callbacks
/// by rising names and the jobs in order, of each job first whose message it waits for, and then its
/// commands. It answers `NoMemory` where memory ends before that fault is reached.
///
/// A plan that is written as plans mostly are is read from the tokens of its text (es_script), every other
/// text by way of its JSON value.
pub fn read_plan(alloc: Global, bytes: &[u8]) -> Result<Plan, ReadFault>
    ensures reads { Reads bytes.now result }
    // There are at most eight agents.
    ensures few { IfOk result (λ p. length p.agents < 9) }
    // Each agent posts to other agents alone, and waits for messages of other agents alone.
    ensures others { IfOk result (λ p. all_name_others p ≡ true) }
    // Only jobs collect, at once or later.
    ensures harmless { IfOk result (λ p. no_callback_collects p ≡ true) }
{
    match quick_agents(alloc, bytes) {
        Ok(agents) => Ok(Plan { agents }),
        Err(Quit::NoMemory) => Err(ReadFault::NoMemory),
        Err(Quit::Unusual) => read_plan_by_value(alloc, bytes),
    }
}

/// Reads a plan as `read_plan` does, of each text by way of its JSON value: slower, and with less code below it
/// to compile. Answers and fails as `read_plan` does.
pub fn read_plan_by_value(alloc: Global, bytes: &[u8]) -> Result<Plan, ReadFault>
    ensures reads { Reads bytes.now result }
    ensures few { IfOk result (λ p. length p.agents < 9) }
    ensures others { IfOk result (λ p. all_name_others p ≡ true) }
    ensures harmless { IfOk result (λ p. no_callback_collects p ≡ true) }
{
    match Value::from_slice(alloc, bytes) {
        Ok(value) => plan_of(alloc, value),
        Err(error) if error.is_memory() => Err(ReadFault::NoMemory),
        Err(_) => Err(fault_in(Place::Whole, FaultCode::NotJson)),
    }
}

fn plan_of(alloc: Global, mut value: Value) -> Result<Plan, ReadFault>
    ensures { Gives (λ p. p) result (plan_read (view value)) }
{
    if !has_plan_shape(&value) {
        return Err(fault_in(Place::Whole, FaultCode::Shape));
    }
    let Some(version) = version_of(value.get("version")) else {
        return Err(fault_in(Place::Whole, FaultCode::Version));
    };
    let agents = taken_items(alloc, value.get_mut("agents"));
    let agents = checked_agents(alloc, version, agents)?;
    Ok(Plan { agents })
}

/// The version that a value is the number of.
fn version_of(value: Option<&Value>) -> Option<Version>
    ensures { result ≡ version_of (option_and_then as_i64 (option_and_then as_number (option_map (λ v. view v.now) value.entry))) }
{
    match value.and_then(Value::as_i64) {
        Some(number) => version_numbered(number),
        None => None,
    }
}

fn version_numbered(number: i64) -> Option<Version>
    ensures { result ≡ version_of (Some number) }
{
    if number == 1 {
        return Some(Version::One);
    }
    if number == 2 {
        return Some(Version::Two);
    }
    if number == 3 {
        return Some(Version::Three);
    }
    None
}

fn checked_agents(
    alloc: Global,
    version: Version,
    mut agents: Vec<Value>,
) -> Result<Sequence<AgentPlan>, ReadFault>
    ensures { Gives (λ s. s) result (agents_checked version (items_view agents.items)) }
{
    if !is_agent_count(agents.as_slice()) {
        return Err(fault_in(Place::Whole, FaultCode::AgentCount));
    }
    check_names(alloc, agents.as_slice())?;
    agents_of(alloc, version, agents.as_mut_slice())
}

/// Whether a plan may have so many agents.
fn is_agent_count(agents: &[Value]) -> bool
    ensures { result
        ≡ (nat_le 1 (items_len (items_view agents.now)) && nat_le (items_len (items_view agents.now)) most_agents) }
{
    (1..=MOST_AGENTS).contains(&agents.len())
}
