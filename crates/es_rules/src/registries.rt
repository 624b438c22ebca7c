//! What the commands of FinalizationRegistries come to, and what their cleanup jobs take.

ghost use Rattle.std.specs.Prelude.{◌≡◌, ◌∷◌, [], ℕ, false, IfOk};
ghost use Rattle.es_event.specs.Identities.{gone, has_identity_in};
ghost use Rattle.es_event.specs.Rules.{refuse_or, first_refusal, of_registry, of_held_weakly, of_other, of_token, finds_token_of};
ghost use Rattle.es_event.specs.Order.{due, clean, take_cell};
ghost use Rattle.es_record.specs.AgentView.{IsNext};
ghost use Rattle.es_rules.specs.Completion.{Completes};

use crate::operand::{held_weakly, other_than, token};
use crate::stop::Stop;
use es_event::{Answer, Event, Refusal};
use es_record::AgentRecord;
use es_registry::Cell;
use es_tables::Tag;
use es_value::{NoMemory, Value};

#[inline(never)]
pub(crate) fn register(
    agent: &AgentRecord,
    registry: &Value,
    target: &Value,
    held: &Value,
    token_given: &Value,
) -> Result<Answer, Stop>
    requires there { has_identity_in (gone agent.now.history) registry.now ≡ false }
    ensures { Completes (refuse_or (first_refusal (of_registry agent.now.history registry.now ∷ of_held_weakly target.now ∷ of_other target.now held.now ∷ of_token token_given.now ∷ [])) Answer.Nothing) result }
{
    agent.tagged(
        registry,
        Tag::FinalizationRegistry,
        Refusal::NotAFinalizationRegistry,
    )?;
    held_weakly(target)?;
    other_than(target, held)?;
    token(token_given)?;
    Ok(Answer::Nothing)
}

#[inline(never)]
pub(crate) fn unregister(
    agent: &AgentRecord,
    registry: &Value,
    token: &Value,
) -> Result<Answer, Stop>
    requires there { has_identity_in (gone agent.now.history) registry.now ≡ false }
    ensures { Completes (refuse_or (first_refusal (of_registry agent.now.history registry.now ∷ of_held_weakly token.now ∷ [])) (Answer.Gives (Value.Boolean (finds_token_of agent.now.history registry.now token.now)))) result }
{
    let registry = agent.tagged(
        registry,
        Tag::FinalizationRegistry,
        Refusal::NotAFinalizationRegistry,
    )?;
    held_weakly(token)?;
    Ok(Answer::Gives(Value::Boolean(agent.finds_token(registry, token))))
}

/// The beginning of the cleanup job that is due.
pub(crate) fn cleaning(agent: &AgentRecord) -> Result<Event, NoMemory>
    requires { (r : ℕ) × (due agent.now.plan agent.now.history ≡ clean r) }
    ensures { IfOk result (IsNext agent.now) }
{
    match agent.queued() {
        Some(registry) => Ok(Event::CleanupBegun { registry }),
        None => unreachable!(),
    }
}

/// The taking of the cell of this registration, which is due.
pub(crate) fn taking(agent: &AgentRecord, registration: usize) -> Result<Event, NoMemory>
    requires { due agent.now.plan agent.now.history ≡ take_cell registration }
    ensures { IfOk result (IsNext agent.now) }
{
    match agent.next_cell() {
        Some(cell) => taken(cell),
        None => unreachable!(),
    }
}

/// The taking of a cell.
fn taken(cell: &Cell) -> Result<Event, NoMemory>
    ensures { IfOk result (λ e. e ≡ Event.Taken cell.now.registration cell.now.held) }
{
    let held = cell.held.copy()?;
    Ok(Event::Taken {
        registration: cell.registration,
        held,
    })
}
