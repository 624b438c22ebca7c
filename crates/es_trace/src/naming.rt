//! The names of agents and callbacks.

ghost use Rattle.std.specs.Prelude.{◌≡◌};
ghost use Rattle.es_trace.specs.Commands.{callback_name as callback_said, name_at as name_said};

use es_event::AgentPlan;
use es_value::Name;

/// The name of an agent, counted from 0; nothing where there is no such agent.
pub fn name_at(names: &[Name], agent: usize) -> &str
    ensures { result.now ≡ name_said names.now agent }
{
    match names.get(agent) {
        Some(name) => name.as_str(),
        None => "",
    }
}

/// The name of a callback, counted from 1; nothing where there is no such callback.
pub(crate) fn callback_name(plan: &AgentPlan, callback: usize) -> &str
    ensures { result.now ≡ callback_said plan.now callback }
{
    match plan.callbacks.as_slice().get(callback.saturating_sub(1)) {
        Some(callback) => callback.name.as_str(),
        None => "",
    }
}
