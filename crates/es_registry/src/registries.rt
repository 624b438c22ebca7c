//! FinalizationRegistries, their cells and the queue of cleanup jobs.

ghost use Rattle.std.specs.Prelude.{◌≡◌, ℕ, ◌<◌, ◌+◌, ◌-◌, ◌≤◌, ◌++◌, ◌∷◌, [], OnOk, OnErr, Some, None, map, length, drop, slice_get, slice_set, true, List};
ghost use Rattle.std.specs.List.{list_any, position_or_len};
ghost use Rattle.std.specs.Option.{option_copied, option_and_then};
ghost use Rattle.es_value.specs.Ids.{is_in};
ghost use Rattle.es_registry.specs.Places.{listed, CanList};
ghost use Rattle.es_registry.specs.Slots.{held_identity, passes_at, is_awaiting, awaits, has_token, unregistered_by, emptied, cell_of, registration_of, tally_of};
ghost use Rattle.es_registry.specs.Registries.{callback as callback_of, registered, oldest, AddsRegistry, SameCallbacks, Joins, is_root, CanRegister, KeepsCellRoom};

use crate::cells::Cells;
use crate::slot::{Cell, Registration, Slot, Tally};
use crate::tokens::Tokens;
use crate::waiting::Waiting;
use crate::{emptying, roots, tokens, unregistering, waiting};
use es_value::{Id, IdSet, NoMemory, Value};
use std::alloc::Global;
use std::collections::{HashMap, VecDeque};
use std::marker::Model;

/// The FinalizationRegistries of an agent with their callbacks, what became of each registration, and
/// the queue of registries whose cleanup job is to run (ECMA-262, FinalizationRegistry Objects).
///
/// Registrations of all registries are numbered together, from 1 on, in order. A growth is reserved
/// first and then made by a call that cannot fail.
#[derive(Drop)]
pub struct Registries {
    callbacks: HashMap<Id, usize>,
    cells: Cells,
    tokens: Tokens,
    waiting: Waiting,
    queue: VecDeque<Id>,
    alloc: Global,
}

impl Model for Registries {
    ghost use Rattle.std.specs.Prelude.{◌-◌, map};
    ghost use Rattle.std.specs.HashMap.{spare};
    ghost use Rattle.std.specs.VecDeque.{deque_len, deque_capacity};
    ghost use Rattle.es_registry.specs.Places.{IsIndexed};
    ghost use Rattle.es_registry.specs.Registries.{RegistriesView};

    ghost Value = { RegistriesView };

    ghost view = { λ r. record {
      callbacks = r.callbacks.entries;
      cells = r.cells.all;
      queue = r.queue.items;
      registry_room = spare r.callbacks;
      slot_room = r.cells.slot_room;
      place_room = r.cells.place_room;
      token_rooms = map (λ e. (e.0, e.1.room)) r.tokens.entries;
      queue_room = deque_capacity r.queue - deque_len r.queue;
    } };

    ghost invariant = { λ r. IsIndexed r.cells.all r.tokens r.waiting };
}

impl Registries {
    /// No registries, no registrations and an empty queue; it takes no memory.
    pub fn new(alloc: Global) -> Registries
        ensures callbacks { result.callbacks ≡ [] }
        ensures cells { result.cells ≡ [] }
        ensures queue { result.queue ≡ [] }
    {
        Registries {
            callbacks: HashMap::new(alloc),
            cells: Cells::new(alloc),
            tokens: HashMap::new(alloc),
            waiting: HashMap::new(alloc),
            queue: VecDeque::new(alloc),
            alloc,
        }
    }

    /// Makes room for one more registry, so that the next `make` is granted.
    ///
    /// # Errors
    ///
    /// `NoMemory` where there is none; all is as it was.
    pub fn reserve_make(&mut self) -> Result<(), NoMemory>
        ensures callbacks { SameCallbacks self.old self.new }
        ensures cells { self.new.cells ≡ self.old.cells }
        ensures queue { self.new.queue ≡ self.old.queue }
        ensures room { OnOk result (0 < self.new.registry_room) }
        ensures cell_room { KeepsCellRoom self.old self.new }
        ensures queue_room { self.new.queue_room ≡ self.old.queue_room }
    {
        self.callbacks.reserve(1)?;
        Ok(())
    }

    /// Adds a registry that is not there yet, where there is room for it, with the number of its
    /// callback (FinalizationRegistry).
    pub fn make(&mut self, registry: Id, callback: usize)
        requires new { callback_of self.old registry ≡ None }
        requires room { 0 < self.old.registry_room }
        ensures callbacks { AddsRegistry self.old registry callback self.new }
        ensures cells { self.new.cells ≡ self.old.cells }
        ensures queue { self.new.queue ≡ self.old.queue }
        ensures cell_room { KeepsCellRoom self.old self.new }
        ensures queue_room { self.new.queue_room ≡ self.old.queue_room }
    {
        let _ = self.callbacks.insert(registry, callback);
    }

    /// The number of a registry's callback; none where it is no registry.
    #[tactic(auto, using(crate::proofs::Found::found_is_lookup))]
    pub fn callback(&self, registry: Id) -> Option<usize>
        ensures { result ≡ callback_of self.now registry }
    {
        self.callbacks.get(&registry).copied()
    }

    /// Makes room for one more registration in this registry with this token, so that the next
    /// `register` of them is granted.
    ///
    /// # Errors
    ///
    /// `NoMemory` where there is none; all is as it was.
    pub fn reserve_register(&mut self, registry: Id, token: Option<Id>) -> Result<(), NoMemory>
        ensures callbacks { self.new.callbacks ≡ self.old.callbacks }
        ensures cells { self.new.cells ≡ self.old.cells }
        ensures queue { self.new.queue ≡ self.old.queue }
        ensures room { OnOk result (CanRegister self.new registry token) }
        ensures registry_room { self.new.registry_room ≡ self.old.registry_room }
        ensures queue_room { self.new.queue_room ≡ self.old.queue_room }
    {
        let alloc = self.alloc;
        self.cells.reserve()?;
        make_listable(alloc, &mut self.tokens, registry, token)
    }

    /// Registers a target with the value to hold and a token, where there is room for it, and answers
    /// the registration's number (FinalizationRegistry.prototype.register).
    pub fn register(&mut self, registry: Id, target: Id, held: Value, token: Option<Id>) -> usize
        requires { CanRegister self.old registry token }
        ensures number { result ≡ length self.old.cells + 1 }
        ensures cells { self.new.cells ≡ self.old.cells ++ registered registry target held token result ∷ [] }
        ensures callbacks { self.new.callbacks ≡ self.old.callbacks }
        ensures queue { self.new.queue ≡ self.old.queue }
        ensures registry_room { self.new.registry_room ≡ self.old.registry_room }
        ensures queue_room { self.new.queue_room ≡ self.old.queue_room }
    {
        let place = self.cells.all().len();
        let registration = place + 1;
        let listed_token = token;
        list(&mut self.tokens, registry, listed_token, place);
        let slot = slot_of(registry, target, held, token, registration);
        self.cells.push(slot);
        registration
    }

    /// Whether a cell of the registry that is there has this token.
    pub fn finds(&self, registry: Id, token: Id) -> bool
        ensures { result ≡ list_any (has_token registry token) self.now.cells }
    {
        let places = tokens::places(&self.tokens, registry, token);
        unregistering::any_has_token(self.cells.all(), places, registry, token)
    }

    /// Takes every cell of the registry with this token out, whether or not its target was emptied;
    /// whether there was one (FinalizationRegistry.prototype.unregister). It takes no memory.
    pub fn unregister(&mut self, registry: Id, token: Id) -> bool
        ensures found { result ≡ list_any (has_token registry token) self.old.cells }
        ensures cells { self.new.cells ≡ map (unregistered_by registry token) self.old.cells }
        ensures callbacks { self.new.callbacks ≡ self.old.callbacks }
        ensures queue { self.new.queue ≡ self.old.queue }
        ensures registry_room { self.new.registry_room ≡ self.old.registry_room }
        ensures queue_room { self.new.queue_room ≡ self.old.queue_room }
    {
        let listed = tokens::take(&mut self.tokens, registry, token);
        let places = listed.as_slice();
        let found = unregistering::any_has_token(self.cells.all(), places, registry, token);
        unregistering::take_out(&mut self.cells, &mut self.waiting, places, registry, token);
        found
    }

    /// Empties every target that is named, and puts each registry of which a cell lost its target last
    /// in the queue, by rising identity, if it is not in it (Execution;
    /// HostEnqueueFinalizationRegistryCleanupJob). The identities stand in any order, and may be
    /// strangers or stand twice.
    ///
    /// # Errors
    ///
    /// `NoMemory` where there is none; all is as it was.
    pub fn empty(&mut self, ids: &[Id]) -> Result<(), NoMemory>
        ensures cells { OnOk result (self.new.cells ≡ map (emptied ids.now) self.old.cells) }
        ensures queue { OnOk result ((more : List ℕ) × (self.new.queue ≡ self.old.queue ++ more) × Joins self.old ids.now more) }
        ensures same_cells { OnErr result (self.new.cells ≡ self.old.cells) }
        ensures same_queue { OnErr result (self.new.queue ≡ self.old.queue) }
        ensures callbacks { self.new.callbacks ≡ self.old.callbacks }
        ensures registry_room { self.new.registry_room ≡ self.old.registry_room }
        ensures cell_room { KeepsCellRoom self.old self.new }
    {
        let named = IdSet::of(ids);
        let alloc = self.alloc;
        emptying::expect(
            alloc,
            &mut self.waiting,
            self.cells.all(),
            self.cells.present(),
            &named,
        )?;
        let joining = emptying::joining(
            alloc,
            self.cells.all(),
            self.cells.present(),
            &self.queue,
            &named,
        )?;
        emptying::append(&mut self.queue, &joining)?;
        self.cells.empty(&named);
        Ok(())
    }

    /// The oldest cell of the registry whose target was emptied, if there is one.
    pub fn awaiting(&self, registry: Id) -> Option<&Cell>
        ensures { option_copied result ≡ oldest self.now registry }
    {
        let slots = self.cells.all();
        let place = waiting::first(&self.waiting, registry, slots)?;
        cell_at(slots, place)
    }

    /// Takes the oldest cell of the registry whose target was emptied, if there is one
    /// (CleanupFinalizationRegistry). It takes no memory.
    pub fn next_awaiting(&mut self, registry: Id) -> Option<Cell>
        ensures cell { result ≡ oldest self.old registry }
        ensures cells { self.new.cells ≡ slice_set self.old.cells (position_or_len (awaits registry) self.old.cells) Slot.Taken }
        ensures callbacks { self.new.callbacks ≡ self.old.callbacks }
        ensures queue { self.new.queue ≡ self.old.queue }
        ensures registry_room { self.new.registry_room ≡ self.old.registry_room }
        ensures cell_room { KeepsCellRoom self.old self.new }
        ensures queue_room { self.new.queue_room ≡ self.old.queue_room }
    {
        let place = waiting::first(&self.waiting, registry, self.cells.all())?;
        self.take_at(place)
    }

    /// Takes the cell of this registration, whose target was emptied (CleanupFinalizationRegistry). It
    /// takes no memory.
    pub fn take(&mut self, registration: usize)
        requires numbered { 0 < registration }
        requires awaits { passes_at is_awaiting self.old.cells (registration - 1) ≡ true }
        ensures cells { self.new.cells ≡ slice_set self.old.cells (registration - 1) Slot.Taken }
        ensures callbacks { self.new.callbacks ≡ self.old.callbacks }
        ensures queue { self.new.queue ≡ self.old.queue }
        ensures registry_room { self.new.registry_room ≡ self.old.registry_room }
        ensures cell_room { KeepsCellRoom self.old self.new }
        ensures queue_room { self.new.queue_room ≡ self.old.queue_room }
    {
        drop(self.take_at(registration - 1));
    }

    /// Takes the cell at a place where one awaits its callback.
    fn take_at(&mut self, place: usize) -> Option<Cell>
        requires { passes_at is_awaiting self.old.cells place ≡ true }
        ensures cell { result ≡ option_and_then cell_of (slice_get self.old.cells place) }
        ensures cells { self.new.cells ≡ slice_set self.old.cells place Slot.Taken }
        ensures callbacks { self.new.callbacks ≡ self.old.callbacks }
        ensures queue { self.new.queue ≡ self.old.queue }
        ensures registry_room { self.new.registry_room ≡ self.old.registry_room }
        ensures cell_room { KeepsCellRoom self.old self.new }
        ensures queue_room { self.new.queue_room ≡ self.old.queue_room }
    {
        waiting::remove_at(&mut self.waiting, self.cells.all(), place);
        self.cells.take(place)
    }

    /// The first registry of the queue, if there is one.
    pub fn queued(&self) -> Option<Id>
        ensures { result ≡ slice_get self.now.queue 0 }
    {
        self.queue.front().copied()
    }

    /// Takes the first registry out of the queue, if there is one. It takes no memory.
    pub fn pop_queued(&mut self) -> Option<Id>
        ensures first { result ≡ slice_get self.old.queue 0 }
        ensures queue { self.new.queue ≡ drop 1 self.old.queue }
        ensures callbacks { self.new.callbacks ≡ self.old.callbacks }
        ensures cells { self.new.cells ≡ self.old.cells }
        ensures registry_room { self.new.registry_room ≡ self.old.registry_room }
        ensures cell_room { KeepsCellRoom self.old self.new }
        ensures queue_room { self.old.queue_room ≤ self.new.queue_room }
    {
        self.queue.pop_front()
    }

    /// Makes room for one more registry in the queue, so that the next `queue_last` is granted.
    ///
    /// # Errors
    ///
    /// `NoMemory` where there is none; all is as it was.
    pub fn reserve_queue(&mut self) -> Result<(), NoMemory>
        ensures callbacks { self.new.callbacks ≡ self.old.callbacks }
        ensures cells { self.new.cells ≡ self.old.cells }
        ensures queue { self.new.queue ≡ self.old.queue }
        ensures registry_room { self.new.registry_room ≡ self.old.registry_room }
        ensures cell_room { KeepsCellRoom self.old self.new }
        ensures room { OnOk result (0 < self.new.queue_room) }
    {
        self.queue.reserve(1)?;
        Ok(())
    }

    /// Puts a registry last in the queue, where there is room for it.
    pub fn queue_last(&mut self, registry: Id)
        requires { 0 < self.old.queue_room }
        ensures queue { self.new.queue ≡ self.old.queue ++ registry ∷ [] }
        ensures callbacks { self.new.callbacks ≡ self.old.callbacks }
        ensures cells { self.new.cells ≡ self.old.cells }
        ensures registry_room { self.new.registry_room ≡ self.old.registry_room }
        ensures cell_room { KeepsCellRoom self.old self.new }
    {
        let _ = self.queue.push_back(registry);
    }

    /// Adds to `found`, in no particular order, the registries, and the identity of each held value of
    /// a cell that is there: what a collection must not empty on their account. Targets and tokens are
    /// not among them (Liveness).
    ///
    /// # Errors
    ///
    /// `NoMemory` where there is none; nothing is said of `found` then.
    pub fn roots(&self, found: &mut Vec<Id>) -> Result<(), NoMemory>
        ensures { OnOk result ((added : List ℕ) × (found.new.items ≡ found.old.items ++ added) × ((i : ℕ) → is_in added i ≡ is_root self.now i)) }
    {
        roots::add_registries(&self.callbacks, found)?;
        roots::add_held(self.cells.all(), self.cells.present(), found)
    }

    /// How many registrations were made.
    pub fn registered(&self) -> usize
        ensures { result ≡ length self.now.cells }
    {
        self.cells.all().len()
    }

    /// The identity that the cell at this place holds, if the cell is there; the first place is that of
    /// registration 1.
    pub fn held_at(&self, place: usize) -> Option<Id>
        ensures { result ≡ option_and_then held_identity (slice_get self.now.cells place) }
    {
        roots::held_at(self.cells.all(), place)
    }

    /// What is kept of the registration at this place, if its cell is in its registry; the first place
    /// is that of registration 1.
    pub fn registration_at(&self, place: usize) -> Option<&Registration>
        ensures { option_copied result ≡ option_and_then registration_of (slice_get self.now.cells place) }
    {
        registration_at(self.cells.all(), place)
    }

    /// How many registrations there are of each fate; all of them together are every registration.
    pub fn tally(&self) -> Tally
        ensures each { result ≡ tally_of self.now.cells }
        ensures all { result.live + result.awaiting + result.unregistered + result.taken ≡ length self.now.cells }
    {
        self.cells.tally()
    }
}

/// The slot of a new registration.
fn slot_of(registry: Id, target: Id, held: Value, token: Option<Id>, registration: usize) -> Slot
    ensures { result ≡ registered registry target held token registration }
{
    let cell = Cell { registration, held };
    Slot::Present(Registration {
        registry,
        target: Some(target),
        token,
        cell,
    })
}

/// Lists a place for a registry and a token, if there is one.
fn list(tokens: &mut Tokens, registry: Id, token: Option<Id>, place: usize)
    requires { CanList tokens.old registry token }
    ensures kept { (r t k : ℕ) → is_in (listed tokens.old r t) k ≡ true → is_in (listed tokens.new r t) k ≡ true }
    ensures new { (t : ℕ) → token ≡ Some t → is_in (listed tokens.new registry t) place ≡ true }
{
    match token {
        Some(token) => tokens::add(tokens, registry, token, place),
        None => {}
    }
}

/// Makes room to list one more place for a registry and a token, if there is one.
fn make_listable(
    alloc: Global,
    tokens: &mut Tokens,
    registry: Id,
    token: Option<Id>,
) -> Result<(), NoMemory>
    ensures same { (r t : ℕ) → listed tokens.new r t ≡ listed tokens.old r t }
    ensures ok { OnOk result (CanList tokens.new registry token) }
{
    match token {
        Some(token) => tokens::reserve(alloc, tokens, registry, token),
        None => Ok(()),
    }
}

/// The cell at a place, if one is there.
fn cell_at(slots: &[Slot], place: usize) -> Option<&Cell>
    ensures { option_copied result ≡ option_and_then cell_of (slice_get slots.now place) }
{
    match slots.get(place) {
        Some(slot) => slot.cell(),
        None => None,
    }
}

/// What is kept of the registration at a place, if a cell is there.
fn registration_at(slots: &[Slot], place: usize) -> Option<&Registration>
    ensures { option_copied result ≡ option_and_then registration_of (slice_get slots.now place) }
{
    match slots.get(place) {
        Some(slot) => slot.registration(),
        None => None,
    }
}
