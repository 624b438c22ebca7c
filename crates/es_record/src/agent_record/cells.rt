//! The cells of an agent's FinalizationRegistries, and what its cleanup jobs take.

ghost use Rattle.std.specs.Prelude.{◌≡◌, ℕ, false, Some, None, is_some, slice_get, if◌then◌else◌};
ghost use Rattle.std.specs.Option.{option_copied, option_map_or, option_and_then};
ghost use Rattle.es_value.specs.declared.value.Value.{Value as HeldValue};
ghost use Rattle.es_event.specs.Jobs.{cleaning};
ghost use Rattle.es_value.specs.Values.{identity};
ghost use Rattle.es_event.specs.Registrations.{live, awaiting, unregistered, taken, callback as callback_said, first_awaiting, finds_token as finds_token_said, tally as tally_said};
ghost use Rattle.es_tables.specs.Registries.{again_at};
ghost use Rattle.es_event.specs.Order.{due_after, queue, is_cleaning_up};
ghost use Rattle.es_event.specs.Runs.{IsRunOver};
ghost use Rattle.es_event.specs.Due.{shown};
ghost use Rattle.es_event.specs.Later.{snapshot};
ghost use Rattle.es_record.specs.NextCell.{next_taken, FindsNextCell};

use super::AgentRecord;
use es_event::{Due, Event, Position};
use es_registry::{Cell, Tally};
use es_value::{Id, Value};

impl AgentRecord {
    /// How many registrations have each fate; together they are all that were made.
    pub fn tally(&self) -> Tally
        ensures live { result.live ≡ tally_said self.now.history live }
        ensures awaiting { result.awaiting ≡ tally_said self.now.history awaiting }
        ensures unregistered { result.unregistered ≡ tally_said self.now.history unregistered }
        ensures taken { result.taken ≡ tally_said self.now.history taken }
    {
        self.tables.tally()
    }

    /// Whether a cell in this registry has this token. What has no identity is no token.
    pub fn finds_token(&self, registry: Id, token: &Value) -> bool
        ensures { result ≡ option_map_or (finds_token_said self.now.history registry) (identity token.now) false }
    {
        match token.identity() {
            Some(token) => self.tables.finds_token(registry, token),
            None => false,
        }
    }

    /// What comes next in a cleanup job whose callback is done: the oldest cell that awaits it, or else
    /// its end.
    pub(super) fn due_cell(&self) -> Due<'_>
        ensures { shown (snapshot self.now.history) result ≡ due_after self.now.history (next_taken self.now.history) }
    {
        match self.next_cell() {
            Some(cell) => Due::Take(cell.registration),
            None => Due::EndJob,
        }
    }

    /// The registry whose cleanup job is to run next, if there is one.
    pub fn queued(&self) -> Option<Id>
        ensures { result ≡ slice_get (queue self.now.history) 0 }
    {
        self.tables.queued()
    }

    /// Whether a cleanup job is under way, or is due next.
    pub fn is_cleaning_up(&self) -> bool
        ensures said { result ≡ is_cleaning_up self.now.history }
        ensures run { IsRunOver self.now.over self.now.plan self.now.history }
    {
        match self.cursor.position {
            Position::Between => self.tables.queued().is_some(),
            Position::Cleaning(_) | Position::CleanupStopped(_) => true,
            Position::Handed | Position::Inside(_) | Position::Stopped | Position::Ended => false,
        }
    }

    /// The cell that the running cleanup job takes next, if one runs and there is one.
    pub fn next_cell(&self) -> Option<&Cell>
        ensures { FindsNextCell self.now.history (option_copied result) }
    {
        match self.cursor.position {
            Position::Cleaning(cleanup) => self.tables.awaiting(cleanup.registry),
            Position::CleanupStopped(registry) => self.tables.awaiting(registry),
            Position::Between
            | Position::Handed
            | Position::Inside(_)
            | Position::Stopped
            | Position::Ended => None,
        }
    }

    /// The registry that is queued again where the running job ends: that of a cleanup job that a
    /// refusal stopped, while cells of it still await theirs.
    pub(super) fn again(&self) -> Option<Id>
        ensures { result ≡ again_at self.now.history }
    {
        match self.cursor.position {
            Position::CleanupStopped(registry) => self.if_awaited(registry),
            _ => None,
        }
    }

    fn if_awaited(&self, registry: Id) -> Option<Id>
        ensures { result ≡ (if is_some (first_awaiting self.now.history registry) then Some registry else None) }
    {
        if self.tables.awaiting(registry).is_some() {
            Some(registry)
        } else {
            None
        }
    }

    /// The number of the callback of the registry whose cleanup job runs, where the event takes a cell.
    pub(super) fn callback_at(&self, event: &Event) -> Option<usize>
        ensures { (n : ℕ) (held : HeldValue) → event.now ≡ Event.Taken n held → option_and_then (callback_said self.now.history) (cleaning self.now.history) ≡ result }
    {
        match event {
            Event::Taken { .. } => self.callback(),
            Event::JobBegun { .. }
            | Event::CleanupBegun { .. }
            | Event::Received { .. }
            | Event::Did(_)
            | Event::Refused { .. }
            | Event::Emptied { .. }
            | Event::JobEnded
            | Event::Skipped { .. }
            | Event::Closed => None,
        }
    }

    /// The number of the callback of the registry whose cleanup job runs, if one does.
    fn callback(&self) -> Option<usize>
        ensures { result ≡ option_and_then (callback_said self.now.history) (cleaning self.now.history) }
    {
        match self.cursor.position {
            Position::Cleaning(cleanup) => self.tables.callback(cleanup.registry),
            Position::CleanupStopped(registry) => self.tables.callback(registry),
            Position::Between
            | Position::Handed
            | Position::Inside(_)
            | Position::Stopped
            | Position::Ended => None,
        }
    }
}
