//! All that an agent keeps beside its history, as one value.

ghost use Rattle.std.specs.Prelude.{◌≡◌, ℕ, List, Option, None, Some, true, ◌<◌, ◌&&◌, ◌++◌, not, is_some, length, map, nat_eq, IfOk, OnOk, OnErr, codes, slice_get, unwrap_or};
ghost use Rattle.std.specs.List.{filter, list_any, range_with_len, IsDistinct};
ghost use Rattle.std.specs.Option.{option_copied, option_and_then};
ghost use Rattle.std.specs.Str.{bytes_eq};
ghost use Rattle.es_value.specs.declared.value.Value.TheVariants.{Undefined};
ghost use Rattle.es_mark.specs.Marks.{is_marked};
ghost use Rattle.es_props.specs.Heap.{has, property, keys, HasProperties};
ghost use Rattle.es_weakref.specs.WeakRefs.{target as target_of};
ghost use Rattle.es_event.specs.Commands.{assigns};
ghost use Rattle.es_event.specs.Variables.{gives_to};
ghost use Rattle.es_event.specs.Identities.{object_given};
ghost use Rattle.es_event.specs.Answers.{answer_said};
ghost use Rattle.es_tables.specs.Effects.{Advances, Changed, Takes};
ghost use Rattle.es_tables.specs.Changes.{table_change, table_change_by};
ghost use Rattle.es_ephemeron.specs.Ephemerons.{holders, record_at, records_at};
ghost use Rattle.es_registry.specs.Slots.{has_token, held_identity, registration_of, tally_of};
ghost use Rattle.es_registry.specs.Registries.{callback as callback_of, oldest};
ghost use Rattle.es_tables.specs.Found.{Adds, HasHeld, AddsEntries};
ghost use Rattle.es_props.specs.Variables.{said};
ghost use Rattle.es_tables.specs.Ready.{CanApply, HasRoom};
ghost use Rattle.es_tables.specs.Tables.{bound, IsNew, SameState, TablesView, Emptying};
ghost use Rattle.es_tables.specs.Tags.{tag_at};

use crate::assigned::{assigned_by, given_by, given_to};
use crate::changes::{aim, enter, join, keep, make, put, write};
use crate::growths::{reserve_born, reserve_entered, reserve_joined, reserve_put};
use crate::registries::{make_change, reserve_change};
use crate::table_change::{
    TableChange, is_assignment, is_still, object_given, table_change, table_change_by,
};
use crate::tags::{Tag, Tags};
use es_ephemeron::WeakTables;
use es_event::{AnswerRef, Command, Done, Event};
use es_mark::Marks;
use es_props::{Heap, Variables};
use es_registry::{Cell, Registration, Registries, Tally};
use es_value::{Id, Name, NoMemory, Value};
use es_weakref::WeakRefs;
use std::alloc::Global;
use std::marker::Model;

/// All that an agent keeps beside its history: its variables, its objects with their properties, its
/// WeakRefs with their targets and KeptAlive, the entries of its WeakMaps and the members of its
/// WeakSets, its FinalizationRegistries with their cells and the cleanup queue, and what each identity
/// is (ECMA-262, Agents). An event is applied in two steps: `reserve`
/// makes every growth, and `apply` can't fail.
#[derive(Drop)]
pub struct Tables {
    variables: Variables,
    heap: Heap,
    weakrefs: WeakRefs,
    weak: WeakTables,
    registries: Registries,
    tags: Tags,
}

impl Model for Tables {
    ghost use Rattle.es_tables.specs.Tables.{TablesView};

    ghost Value = { TablesView };

    ghost view = { λ t. record { variables = t.variables; heap = t.heap.all; rooms = t.heap.rooms; weakrefs = t.weakrefs; weak = t.weak; registries = t.registries; tags = t.tags } };
}

impl Tables {
    /// Nothing assigned, nothing made; it takes no memory.
    pub fn new(alloc: Global) -> Tables
        ensures { IsNew result }
    {
        Tables {
            variables: Variables::new(alloc),
            heap: Heap::new(alloc),
            weakrefs: WeakRefs::new(alloc),
            weak: WeakTables::new(alloc),
            registries: Registries::new(alloc),
            tags: Tags::new(alloc),
        }
    }

    /// The variable's value, copied: undefined until one is assigned.
    pub fn variable(&self, name: &Name) -> Result<Value, NoMemory>
        ensures { IfOk result (λ v. v ≡ bound self.now.variables name.now) }
    {
        self.variables.value(name)
    }

    /// The variable's value, or none where it was never assigned, and so is undefined.
    pub fn bound(&self, name: &Name) -> Option<&Value>
        ensures { unwrap_or (option_copied result) Undefined ≡ bound self.now.variables name.now }
    {
        self.variables.bound(name)
    }

    /// Whether the identity is an object that is there.
    pub fn has(&self, id: Id) -> bool
        ensures { result ≡ has self.now.heap id }
    {
        self.heap.has(id)
    }

    /// The value under a key of an object, if the object has it (OrdinaryGet).
    pub fn property(&self, object: Id, key: &Name) -> Option<&Value>
        ensures { option_copied result ≡ property self.now.heap object key.now }
    {
        self.heap.get(object, key)
    }

    /// The keys of an object, in order of creation (OrdinaryOwnPropertyKeys).
    pub fn keys(&self, object: Id) -> Result<Vec<Name>, NoMemory>
        ensures { IfOk result (λ ks. ks.items ≡ keys self.now.heap object) }
    {
        self.heap.keys(object)
    }

    /// The names of all variables that were assigned, in no order.
    pub fn assigned(&self, alloc: Global) -> Result<Vec<Name>, NoMemory>
        ensures names { IfOk result (λ ns. ns.items ≡ map (λ e. e.0) self.now.variables.entries) }
        ensures distinct { IfOk result (λ ns. IsDistinct bytes_eq ns.items) }
    {
        self.variables.names(alloc)
    }

    /// Adds the identities of what variables hold, of what is kept, of all registries and of what cells
    /// in their registries hold to `found`; where there is no memory, nothing is said of `found`.
    pub fn add_roots(&self, found: &mut Vec<Id>) -> Result<(), NoMemory>
        ensures { OnOk result (Adds (HasHeld self.now) found.old.items found.new.items) }
    {
        self.variables.add_identities(found)?;
        add_all(self.weakrefs.kept(), found)?;
        self.registries.roots(found)
    }

    /// Adds the identities of what an object's properties hold to `found`; where
    /// there is no memory, nothing is said of `found`.
    pub fn add_edges(&self, object: Id, found: &mut Vec<Id>) -> Result<(), NoMemory>
        ensures { OnOk result (Adds (HasProperties self.now.heap object) found.old.items found.new.items) }
    {
        self.heap.edges(object, found)
    }

    /// The target of a WeakRef, if it has not been emptied (WeakRefDeref).
    pub fn target(&self, weakref: Id) -> Option<Id>
        ensures { result ≡ target_of self.now.weakrefs weakref }
    {
        self.weakrefs.target(weakref)
    }

    /// The value under a key in a WeakMap, if the WeakMap has the key (WeakMap.prototype.get).
    pub fn entry(&self, map: Id, key: Id) -> Option<&Value>
        ensures { option_copied result ≡ record_at self.now.weak.entries.all map key }
    {
        self.weak.map_get(map, key)
    }

    /// Whether a WeakSet has a member (WeakSet.prototype.has).
    pub fn has_member(&self, set: Id, member: Id) -> bool
        ensures { result ≡ is_some (record_at self.now.weak.members.all set member) }
    {
        self.weak.set_has(set, member)
    }

    /// The number of a FinalizationRegistry's callback, if it is one.
    pub fn callback(&self, registry: Id) -> Option<usize>
        ensures { result ≡ callback_of self.now.registries registry }
    {
        self.registries.callback(registry)
    }

    /// Whether a cell in this registry has this token (FinalizationRegistry.prototype.unregister).
    pub fn finds_token(&self, registry: Id, token: Id) -> bool
        ensures { result ≡ list_any (has_token registry token) self.now.registries.cells }
    {
        self.registries.finds(registry, token)
    }

    /// The oldest cell of a registry that awaits its cleanup, if there is one
    /// (CleanupFinalizationRegistry).
    pub fn awaiting(&self, registry: Id) -> Option<&Cell>
        ensures { option_copied result ≡ oldest self.now.registries registry }
    {
        self.registries.awaiting(registry)
    }

    /// The registry whose cleanup job is to run next, if there is one.
    pub fn queued(&self) -> Option<Id>
        ensures { result ≡ slice_get self.now.registries.queue 0 }
    {
        self.registries.queued()
    }

    /// How many registrations were made.
    pub fn registered(&self) -> usize
        ensures { result ≡ length self.now.registries.cells }
    {
        self.registries.registered()
    }

    /// The identity that the cell at this place holds, if the cell is in its registry; the first place is
    /// that of registration 1.
    pub fn held_at(&self, place: usize) -> Option<Id>
        ensures { result ≡ option_and_then held_identity (slice_get self.now.registries.cells place) }
    {
        self.registries.held_at(place)
    }

    /// What is kept of the registration at this place, if its cell is in its registry; the first place is
    /// that of registration 1.
    pub fn registration_at(&self, place: usize) -> Option<&Registration>
        ensures { option_copied result ≡ option_and_then registration_of (slice_get self.now.registries.cells place) }
    {
        self.registries.registration_at(place)
    }

    /// How many registrations have each fate.
    pub fn tally(&self) -> Tally
        ensures { result ≡ tally_of self.now.registries.cells }
    {
        self.registries.tally()
    }

    /// Adds the WeakMap and the value of each entry with this key to `found`; where there is no memory,
    /// nothing is said of `found`.
    pub fn add_entries(&self, key: Id, found: &mut Vec<(Id, Value)>) -> Result<(), NoMemory>
        ensures { OnOk result (AddsEntries self.now.weak.entries.all key found.old.items found.new.items) }
    {
        self.weak.entries_of_key(key, found)
    }

    /// Adds each WeakMap that has an entry with this key to `found`, with the entry's value; where there is
    /// no memory, nothing is said of `found`.
    pub fn entries_under(&self, key: Id, found: &mut Vec<(Id, Value)>) -> Result<(), NoMemory>
        ensures added { OnOk result (found.new.items ≡ found.old.items ++ records_at self.now.weak.entries.all key) }
        ensures distinct { OnOk result (IsDistinct nat_eq (holders (records_at self.now.weak.entries.all key))) }
    {
        self.weak.entries_of_key(key, found)
    }

    /// Adds each WeakSet that has this member to `found`; where there is no memory, nothing is said of
    /// `found`.
    pub fn sets_with(&self, member: Id, found: &mut Vec<Id>) -> Result<(), NoMemory>
        ensures added { OnOk result (found.new.items ≡ found.old.items ++ holders (records_at self.now.weak.members.all member)) }
        ensures distinct { OnOk result (IsDistinct nat_eq (holders (records_at self.now.weak.members.all member))) }
    {
        self.weak.sets_of_member(member, found)
    }

    /// KeptAlive, in order of keeping (ECMA-262, AddToKeptObjects).
    pub fn kept(&self) -> &[Id]
        ensures { result.now ≡ self.now.weakrefs.kept }
    {
        self.weakrefs.kept()
    }

    /// How many identities were made, emptied ones too.
    pub fn made(&self) -> usize
        ensures { result ≡ length self.now.tags.all }
    {
        self.tags.made()
    }

    /// What an identity is, none where it was not made or is emptied.
    pub fn tag(&self, id: Id) -> Option<Tag>
        ensures tag { result ≡ tag_at self.now.tags.all id }
        ensures positive { 0 < id }
    {
        self.tags.of(id)
    }

    /// The identities up to this number that have a tag and are not marked, by rising number.
    pub fn unmarked(&self, alloc: Global, marks: &Marks, made: u32) -> Result<Vec<Id>, NoMemory>
        ensures { IfOk result (λ ids. ids.items ≡ filter (λ i. is_some (tag_at self.now.tags.all i) && not (is_marked marks.now i)) (range_with_len 1 made)) }
    {
        self.tags.unmarked(alloc, marks, made)
    }

    /// Empties these identities: their objects go with all properties, every WeakRef to one of them
    /// loses its target, every entry and member that has one as key, as WeakMap or as WeakSet is
    /// dropped, and every cell with one as target awaits its cleanup, for which its registry is queued
    /// (ECMA-262, Execution; HostEnqueueFinalizationRegistryCleanupJob). Where there is no memory the
    /// tables say what they said.
    pub fn empty(&mut self, ids: &[Id]) -> Result<(), NoMemory>
        ensures ok { OnOk result (Emptying self.old ids.now self.new) }
        ensures err { OnErr result (SameState self.old self.new) }
    {
        self.registries.empty(ids)?;
        self.heap.remove(ids);
        self.weakrefs.empty(ids);
        self.weak.empty(ids);
        self.tags.empty(ids);
        Ok(())
    }

    /// Applies a command that was done, as `advance` does.
    #[inline(always)]
    pub fn advance_done(&mut self, done: &Done) -> Result<(), NoMemory>
        requires { CanApply self.old (table_change None (Event.Did done.now)) }
        ensures ok { OnOk result ((received : List ℕ) (again : Option ℕ) → Advances received again (Event.Did done.now) self.old self.new) }
        ensures err { OnErr result (SameState self.old self.new) }
    {
        self.take_command(done.command(), done.values(), done.answer())
    }

    /// Applies a command, by what it read and gave. Most change no table.
    #[inline(always)]
    fn take_command(
        &mut self,
        command: &Command,
        values: &[Value],
        answer: AnswerRef<'_>,
    ) -> Result<(), NoMemory>
        requires { CanApply self.old (table_change_by command.now values.now (answer_said answer)) }
        ensures ok { OnOk result (Takes (gives_to (assigns command.now) (answer_said answer.entry)) (table_change_by command.now values.now (answer_said answer.entry)) self.old self.new) }
        ensures err { OnErr result (SameState self.old self.new) }
    {
        if is_assignment(command) {
            return self.variables.take_in(given_by(command, answer));
        }
        self.change_by(command, values, answer)
    }

    /// The same, of a command that may change a table.
    #[inline(never)]
    fn change_by(
        &mut self,
        command: &Command,
        values: &[Value],
        answer: AnswerRef<'_>,
    ) -> Result<(), NoMemory>
        requires { CanApply self.old (table_change_by command.now values.now (answer_said answer)) }
        ensures ok { OnOk result (Takes (gives_to (assigns command.now) (answer_said answer.entry)) (table_change_by command.now values.now (answer_said answer.entry)) self.old self.new) }
        ensures err { OnErr result (SameState self.old self.new) }
    {
        match (command, values) {
            (Command::Set { key, .. }, [Value::Object(object), value]) => {
                self.set(*object, key, value)
            }
            (Command::New { to }, _) => self.make_ordinary(to, answer),
            _ => self.change_otherwise(command, values, answer),
        }
    }

    /// The same, of a command that makes an ordinary object.
    #[inline(never)]
    fn make_ordinary(&mut self, to: &Name, answer: AnswerRef<'_>) -> Result<(), NoMemory>
        requires { CanApply self.old (TableChange.Birth (Some Tag.Ordinary) (object_given (answer_said answer))) }
        ensures ok { OnOk result (Takes (gives_to (Some to.now) (answer_said answer.entry)) (TableChange.Birth (Some Tag.Ordinary) (object_given (answer_said answer.entry))) self.old self.new) }
        ensures err { OnErr result (SameState self.old self.new) }
    {
        let birth = TableChange::Birth {
            tag: Some(Tag::Ordinary),
            object: object_given(answer),
        };
        self.take(birth, given_to(Some(to), answer))
    }

    /// The same, of any command.
    #[inline(never)]
    fn change_otherwise(
        &mut self,
        command: &Command,
        values: &[Value],
        answer: AnswerRef<'_>,
    ) -> Result<(), NoMemory>
        requires { CanApply self.old (table_change_by command.now values.now (answer_said answer)) }
        ensures ok { OnOk result (Takes (gives_to (assigns command.now) (answer_said answer.entry)) (table_change_by command.now values.now (answer_said answer.entry)) self.old self.new) }
        ensures err { OnErr result (SameState self.old self.new) }
    {
        let change = table_change_by(command, values, answer)?;
        self.take(change, given_by(command, answer))
    }

    /// Sets a property of an object.
    fn set(&mut self, object: Id, key: &Name, value: &Value) -> Result<(), NoMemory>
        requires { has self.old.heap object ≡ true }
        ensures ok { OnOk result (Takes None (TableChange.Property (Some ((object, key.now), Some value.now))) self.old self.new) }
        ensures err { OnErr result (SameState self.old self.new) }
    {
        self.heap.reserve_set(object)?;
        let value = value.copy()?;
        let key = key.copy()?;
        write(&mut self.heap, object, key, Some(value));
        Ok(())
    }

    /// Applies an event: makes every growth that it needs, and then does what it does, which can't fail.
    /// Where there is no memory the tables say what they said. `held` is the name of the variable that a
    /// cell's held value is assigned to, `received` that of the one that a message's value is assigned
    /// to, and `again` is the registry that is queued again where the event ends a job.
    pub fn advance(
        &mut self,
        event: &Event,
        held: &Name,
        received: &Name,
        again: Option<Id>,
    ) -> Result<(), NoMemory>
        requires held { held.now ≡ codes "held" }
        requires can { CanApply self.old (table_change again event.now) }
        ensures ok { OnOk result (Advances received.now again event.now self.old self.new) }
        ensures err { OnErr result (SameState self.old self.new) }
    {
        if is_still(event) {
            return Ok(());
        }
        self.advance_otherwise(event, held, received, again)
    }

    /// The same, of any event.
    #[inline(never)]
    fn advance_otherwise(
        &mut self,
        event: &Event,
        held: &Name,
        received: &Name,
        again: Option<Id>,
    ) -> Result<(), NoMemory>
        requires held { held.now ≡ codes "held" }
        requires can { CanApply self.old (table_change again event.now) }
        ensures ok { OnOk result (Advances received.now again event.now self.old self.new) }
        ensures err { OnErr result (SameState self.old self.new) }
    {
        let change = table_change(event, again)?;
        self.take(change, assigned_by(event, held, received))
    }

    /// Makes every growth that a change needs, assigns a variable, where one is to be assigned, and makes the
    /// change.
    #[inline(always)]
    fn take(
        &mut self,
        change: TableChange,
        assigned: Option<(&Name, &Value)>,
    ) -> Result<(), NoMemory>
        requires { CanApply self.old change }
        ensures ok { OnOk result (Takes (said assigned.entry) change self.old self.new) }
        ensures err { OnErr result (SameState self.old self.new) }
    {
        if let Err(error) = self.reserve(&change) {
            drop(change);
            return Err(error);
        }
        if let Err(error) = self.variables.take_in(assigned) {
            drop(change);
            return Err(error);
        }
        self.apply(change);
        Ok(())
    }

    /// Makes every growth that the change needs; the tables say what they said.
    #[inline(always)]
    fn reserve(&mut self, change: &TableChange) -> Result<(), NoMemory>
        requires { CanApply self.old change.now }
        ensures same { SameState self.old self.new }
        ensures can { CanApply self.new change.now }
        ensures room { OnOk result (HasRoom self.new change.now) }
    {
        match change {
            TableChange::NoChange => Ok(()),
            TableChange::Property(put) => reserve_put(&mut self.heap, put),
            TableChange::Birth { object, .. } => {
                self.tags.reserve()?;
                reserve_born(&mut self.heap, *object)
            }
            TableChange::WeakRefBirth { object, .. } => {
                self.tags.reserve()?;
                self.weakrefs.reserve()?;
                reserve_born(&mut self.heap, *object)
            }
            TableChange::RegistryBirth { object, change } => {
                self.tags.reserve()?;
                reserve_change(&mut self.registries, change)?;
                reserve_born(&mut self.heap, *object)
            }
            TableChange::Keeping(_) => self.weakrefs.reserve(),
            TableChange::Entry(entered) => reserve_entered(&mut self.weak, entered),
            TableChange::Member(joined) => reserve_joined(&mut self.weak, *joined),
            TableChange::Registry(change) => reserve_change(&mut self.registries, change),
            TableChange::JobEnd(change) => reserve_change(&mut self.registries, change),
        }
    }

    /// Makes a change for which there is room; it takes no memory.
    #[inline(always)]
    fn apply(&mut self, change: TableChange)
        requires can { CanApply self.old change }
        requires room { HasRoom self.old change }
        ensures changed { Changed self.old change self.new }
        ensures variables { self.new.variables ≡ self.old.variables }
    {
        match change {
            TableChange::NoChange => {}
            TableChange::Property(written) => put(&mut self.heap, written),
            TableChange::Birth { tag, object } => {
                make(&mut self.heap, object);
                self.tags.add(tag);
            }
            TableChange::WeakRefBirth {
                object,
                points,
                kept,
            } => {
                make(&mut self.heap, object);
                aim(&mut self.weakrefs, points);
                keep(&mut self.weakrefs, kept);
                self.tags.add(Some(Tag::WeakRef));
            }
            TableChange::RegistryBirth { object, change } => {
                make(&mut self.heap, object);
                make_change(&mut self.registries, change);
                self.tags.add(Some(Tag::FinalizationRegistry));
            }
            TableChange::Keeping(kept) => keep(&mut self.weakrefs, kept),
            TableChange::Entry(entered) => enter(&mut self.weak, entered),
            TableChange::Member(joined) => join(&mut self.weak, joined),
            TableChange::Registry(change) => make_change(&mut self.registries, change),
            TableChange::JobEnd(change) => {
                self.weakrefs.clear_kept();
                make_change(&mut self.registries, change);
            }
        }
    }
}

/// Adds these identities to `found`.
fn add_all(ids: &[Id], found: &mut Vec<Id>) -> Result<(), NoMemory>
    ensures { OnOk result (found.new.items ≡ found.old.items ++ ids.now) }
{
    found.extend_from_slice(ids)?;
    Ok(())
}
