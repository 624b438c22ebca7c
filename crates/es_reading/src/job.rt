//! Jobs of an agent.

ghost use Rattle.std.specs.Prelude.{◌≡◌, ◌∷◌, [], map, option_map};
ghost use Rattle.serde_json.specs.View.{view, items_of, items_view};
ghost use Rattle.es_reading.specs.Forms.{agent, name};
ghost use Rattle.es_reading.specs.Reading.{Gives, said, operands_read, on_read, job_read, jobs_read};

use crate::command::job_run;
use crate::fault::Spot;
use crate::known_names::KnownNames;
use crate::operand::AgentNumber;
use crate::operands::two;
use crate::part::Seen;
use crate::parts::{items, taken_items};
use crate::scope::Scope;
use crate::{Place, ReadFault};
use es_event::{Job, Sequence, SharedList};
use es_value::Name;
use serde_json::Value;

/// The jobs, in order.
pub(crate) fn jobs_of(
    names: &mut KnownNames,
    scope: &Scope,
    agent: usize,
    jobs: &mut [Value],
) -> Result<Sequence<Job>, ReadFault>
    ensures { Gives (λ s. s) result (jobs_read (said scope.now) agent 1 (items_view jobs.old)) }
{
    let mut all = Sequence::new(names.allocator());
    for (index, value) in jobs.iter_mut().enumerate() {
        let job = job_of(names, scope, value.take(), Place::Job(agent, index + 1))?;
        all.push(job)?;
    }
    Ok(all)
}

fn job_of(
    names: &mut KnownNames,
    scope: &Scope,
    mut value: Value,
    place: Place,
) -> Result<Job, ReadFault>
    ensures { Gives (λ j. j) result (job_read (said scope.now) place (view value)) }
{
    let on = on_of(names, scope, value.get("on"), Spot { place, command: 0 })?;
    let list = taken_items(names.allocator(), value.get_mut("run"));
    let (commands, catches) = job_run(names, scope, list, place)?.into_parts();
    let run = SharedList::of(commands)?;
    Ok(Job { on, run, catches })
}

/// The agent whose message a job waits for, and the variable for its value, where the job has `on`.
/// The shape says that they are two texts.
fn on_of(
    names: &mut KnownNames,
    scope: &Scope,
    value: Option<&Value>,
    spot: Spot,
) -> Result<Option<(usize, Name)>, ReadFault>
    ensures { Gives (λ on. on) result (on_read (said scope.now) spot (option_map (λ v. view v.now) value.entry)) }
{
    match value {
        Some(pair) => {
            let on = awaited_of(names, scope, items(Some(pair)), spot)?;
            Ok(Some(on))
        }
        None => Ok(None),
    }
}

/// The agent and the variable of the pair that `on` is. They are read as a command's operands are.
pub fn awaited_of<V: Seen>(
    names: &mut KnownNames,
    scope: &Scope,
    pair: &[V],
    spot: Spot,
) -> Result<(usize, Name), ReadFault>
    ensures { Gives (λ on. (on.0, (on.1, tt))) result
        (operands_read (said scope.now) spot (agent ∷ name ∷ []) (items_of (map V.shown pair.now))) }
{
    let (sender, variable) = two::<AgentNumber, Name, V>(names, scope, pair, spot)?;
    Ok((sender.0, variable))
}
