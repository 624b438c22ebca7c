//! What leads to an agent's values, one step each, read from the tables.

ghost use Rattle.std.specs.Prelude.{◌≡◌, ◌<◌, ℕ, List, Some, true, is_some, IfOk, OnOk};
ghost use Rattle.std.specs.List.{IsDistinct};
ghost use Rattle.std.specs.Option.{option_copied};
ghost use Rattle.std.specs.Str.{bytes_eq};
ghost use Rattle.es_value.specs.Values.{identity};
ghost use Rattle.es_event.specs.Identities.{is_there};
ghost use Rattle.es_event.specs.Jobs.{receivers};
ghost use Rattle.es_event.specs.Variables.{var};
ghost use Rattle.es_event.specs.Properties.{has_key};
ghost use Rattle.es_event.specs.Registrations.{callback, registered};
ghost use Rattle.es_tables.specs.Tags.{tag_said};
ghost use Rattle.es_record.specs.Leading.{held_of, registration_said, AddsUnder, AddsSets};

use super::AgentRecord;
use es_registry::Registration;
use es_tables::Tag;
use es_value::{Id, Name, NoMemory, Value};

impl AgentRecord {
    /// The names of all variables that were assigned, in no order, none twice; every other one holds undefined.
    /// It fails for want of memory alone.
    pub fn assigned(&self) -> Result<Vec<Name>, NoMemory>
        ensures distinct { IfOk result (λ ns. IsDistinct bytes_eq ns.items) }
        ensures all { IfOk result (λ ns. (x : List ℕ) (i : ℕ) → identity (var (receivers self.now.plan.jobs) self.now.history x) ≡ Some i → has_key ns.items x ≡ true) }
    {
        self.tables.assigned(self.alloc)
    }

    /// Whether the identity was made and is not emptied.
    pub fn is_there(&self, id: Id) -> bool
        ensures { result ≡ is_there self.now.history id }
    {
        self.tables.tag(id).is_some()
    }

    /// What the identity is, none where it was not made or is emptied.
    pub fn tag(&self, id: Id) -> Option<Tag>
        ensures { result ≡ tag_said self.now.history id }
    {
        self.tables.tag(id)
    }

    /// Whether the identity is a FinalizationRegistry.
    pub fn is_registry(&self, id: Id) -> bool
        ensures { result ≡ is_some (callback self.now.history id) }
    {
        self.tables.callback(id).is_some()
    }

    /// How many registrations were made.
    pub fn registered(&self) -> usize
        ensures { result ≡ registered self.now.history }
    {
        self.tables.registered()
    }

    /// The identity that the cell of this registration holds, if the cell is in its registry.
    pub fn held_of(&self, registration: usize) -> Option<Id>
        requires { 0 < registration }
        ensures { result ≡ held_of self.now.history registration }
    {
        self.tables.held_at(registration - 1)
    }

    /// What is kept of this registration, if its cell is in its registry: its registry, its target unless
    /// that was emptied, its token, and what it holds.
    pub fn registration(&self, registration: usize) -> Option<&Registration>
        requires { 0 < registration }
        ensures { option_copied result ≡ registration_said self.now.history registration }
    {
        self.tables.registration_at(registration - 1)
    }

    /// Adds each WeakMap that has an entry with this key to `found`, once, with the entry's value; where there
    /// is no memory, nothing is said of `found`.
    pub fn entries_under(&self, key: Id, found: &mut Vec<(Id, Value)>) -> Result<(), NoMemory>
        ensures { OnOk result (AddsUnder self.now.history key found.old.items found.new.items) }
    {
        self.tables.entries_under(key, found)
    }

    /// Adds each WeakSet that has this member to `found`, once; where there is no memory, nothing is said of
    /// `found`.
    pub fn sets_with(&self, member: Id, found: &mut Vec<Id>) -> Result<(), NoMemory>
        ensures { OnOk result (AddsSets self.now.history member found.old.items found.new.items) }
    {
        self.tables.sets_with(member, found)
    }
}
