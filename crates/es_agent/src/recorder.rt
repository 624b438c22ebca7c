//! An agent's record, with what an open later collection needs.

ghost use Rattle.std.specs.Prelude.{◌≡◌, ◌+◌, ◌∷◌, [], ◌<◌, true, false, is_some, IfOk, OnOk, OnErr};
ghost use Rattle.std.specs.Arc.{arc_value};
ghost use Rattle.std.specs.Option.{option_map, option_to_list};
ghost use Rattle.es_event.specs.Derefs.{derefs};
ghost use Rattle.es_event.specs.Identities.{made};
ghost use Rattle.es_event.specs.Later.{begins_later, snapshot};
ghost use Rattle.es_event.specs.Order.{due, close};
ghost use Rattle.es_mark.specs.Made.{is_made};
ghost use Rattle.es_record.specs.AgentView.{IsNext, Records, with_buffer};
ghost use Rattle.es_rules.specs.Needs.{need, asks_copy};
ghost use Rattle.es_tables.specs.Effects.{IsQuiet};
ghost use Rattle.es_agent.specs.Keeping.{kept_of, HasRoom, noted};
ghost use Rattle.es_agent.specs.Later.{opening, IsLaterCopy, AreDerefed, AreThen};

use es_event::{AnswerRef, Command, Done, Event, Log, Row};
use es_mark::Graph;
use es_parmark::Snapshot;
use es_record::AgentRecord;
use es_rules::opened;
use es_value::{Id, NoMemory};
use std::alloc::Global;
use std::marker::Model;
use std::sync::Arc;

/// The copy of an agent's graph by which an open later collection is finished, and what derefs gave since of
/// the identities that it has.
#[derive(Drop)]
pub(crate) struct LaterCopy {
    pub(crate) copy: Arc<Snapshot>,
    pub(crate) derefed: Log<Id>,
}

/// An agent's record. While a later collection is open it keeps the copy of the graph that was taken when it
/// was opened, and what derefs gave since.
#[derive(Drop)]
pub(crate) struct Recorder {
    alloc: Global,
    record: AgentRecord,
    kept: Option<LaterCopy>,
}

impl Model for Recorder {
    ghost use Rattle.es_event.specs.Later.{snapshot};
    ghost use Rattle.es_record.specs.AgentView.{AgentView};
    ghost use Rattle.es_agent.specs.Keeping.{IsKept, kept_of};

    ghost Value = { AgentView };

    ghost view = { λ r. r.record };

    ghost invariant = { λ r. IsKept r.record (snapshot r.record.history) (kept_of r.kept) };
}

impl Recorder {
    /// The record of an agent before its first event.
    pub(crate) fn new(alloc: Global, agent: AgentRecord) -> Recorder
        requires { agent.history ≡ [] }
        ensures { result ≡ agent }
    {
        Recorder {
            alloc,
            record: agent,
            kept: None,
        }
    }

    /// The record.
    pub(crate) fn read(&self) -> &AgentRecord
        ensures { result.now ≡ self.now }
    {
        &self.record
    }

    /// Gives up all but the record.
    pub(crate) fn into_record(self) -> AgentRecord
        ensures { result ≡ self }
    {
        let Recorder {
            alloc: _,
            record,
            kept: _,
        } = self;
        record
    }

    /// Records a command that was done, which comes next and opens no later collection. Where there is no memory
    /// nothing has changed.
    #[inline(always)]
    pub(crate) fn record_done(&mut self, done: Done) -> Result<(), NoMemory>
        requires next { IsNext self.old (Event.Did done) }
        requires opens { begins_later (Event.Did done) ≡ false }
        ensures ok { OnOk result (Records self.old (Event.Did done) self.new) }
        ensures err { OnErr result (self.new ≡ self.old) }
    {
        if self.kept.is_none() {
            return self.record.record_done(done);
        }
        self.record_done_noting(done)
    }

    /// The same, where a copy is kept.
    #[inline(never)]
    fn record_done_noting(&mut self, done: Done) -> Result<(), NoMemory>
        requires next { IsNext self.old (Event.Did done) }
        requires opens { begins_later (Event.Did done) ≡ false }
        ensures ok { OnOk result (Records self.old (Event.Did done) self.new) }
        ensures err { OnErr result (self.new ≡ self.old) }
    {
        self.record_noting(Event::Did(done))
    }

    /// Records an event that comes next, is no emptying and opens no later collection. Where there is no
    /// memory nothing has changed.
    pub(crate) fn record(&mut self, event: Event) -> Result<(), NoMemory>
        requires next { IsNext self.old event }
        requires quiet { IsQuiet event }
        requires opens { begins_later event ≡ false }
        ensures ok { OnOk result (Records self.old event self.new) }
        ensures err { OnErr result (self.new ≡ self.old) }
    {
        if self.kept.is_none() {
            return self.record.record(event);
        }
        self.record_noting(event)
    }

    /// Records an event, where a copy is kept: what a deref gives is noted.
    #[inline(never)]
    fn record_noting(&mut self, event: Event) -> Result<(), NoMemory>
        requires next { IsNext self.old event }
        requires quiet { IsQuiet event }
        requires opens { begins_later event ≡ false }
        ensures ok { OnOk result (Records self.old event self.new) }
        ensures err { OnErr result (self.new ≡ self.old) }
    {
        if let Err(error) = reserve(&mut self.kept) {
            drop(event);
            return Err(error);
        }
        let given = given_by(&event);
        self.record.record(event)?;
        note(&mut self.kept, given);
        Ok(())
    }

    /// Records an event that comes next and by which a buffer object comes to the agent. The row is what the
    /// object's ticket names. Where there is no memory nothing has changed.
    pub(crate) fn record_buffer(&mut self, event: Event, row: Row) -> Result<(), NoMemory>
        requires next { IsNext (with_buffer row self.old) event }
        requires quiet { IsQuiet event }
        requires opens { begins_later event ≡ false }
        requires gives { derefs event ≡ [] }
        requires comes { made (event ∷ self.old.history) ≡ made self.old.history + 1 }
        ensures ok { OnOk result (Records (with_buffer row self.old) event self.new) }
        ensures err { OnErr result (self.new ≡ self.old) }
    {
        self.record.record_buffer(event, row)
    }

    /// Empties these identities, and records it as one event, which ends a later collection that is open.
    /// Where there is no memory nothing has changed.
    pub(crate) fn empty(&mut self, ids: Vec<Id>) -> Result<(), NoMemory>
        requires { IsNext self.old (Event.Emptied ids.items) }
        ensures ok { OnOk result (Records self.old (Event.Emptied ids.items) self.new) }
        ensures err { OnErr result (self.new ≡ self.old) }
    {
        self.record.empty(ids)?;
        self.kept = None;
        Ok(())
    }

    /// Ends the agent; it takes no memory.
    pub(crate) fn close(&mut self)
        requires { due self.old.plan self.old.history ≡ close }
        ensures { Records self.old Event.Closed self.new }
    {
        self.record.close()
    }

    /// Takes a copy of the agent's graph, keeps it, and records that a later collection is opened. Where there
    /// is no memory nothing has changed.
    pub(crate) fn begin(&mut self) -> Result<Arc<Snapshot>, NoMemory>
        requires { need self.old ≡ asks_copy }
        ensures records { OnOk result (Records self.old opening self.new) }
        ensures copy { IfOk result (λ copy. IsLaterCopy self.new (arc_value copy)) }
        ensures err { OnErr result (self.new ≡ self.old) }
    {
        let copy = Arc::new(self.alloc, Snapshot::of(self.alloc, &self.record)?)?;
        let own = Arc::try_clone(&copy)?;
        let event = opened(&self.record)?;
        self.record.record(event)?;
        self.kept = Some(LaterCopy {
            copy: own,
            derefed: Log::new(self.alloc),
        });
        Ok(copy)
    }

    /// The copy of the open later collection.
    pub(crate) fn later(&self) -> &Snapshot
        requires { is_some (snapshot self.now.history) ≡ true }
        ensures { IsLaterCopy self.now result.now }
    {
        match &self.kept {
            Some(kept) => &kept.copy,
            None => unreachable!(),
        }
    }

    /// What derefs gave since it was taken, of the identities that it has, in order.
    pub(crate) fn derefed(&self) -> &[Id]
        requires { is_some (snapshot self.now.history) ≡ true }
        ensures given { AreDerefed self.now result.now }
        ensures then { AreThen self.now result.now }
    {
        match &self.kept {
            Some(kept) => kept.derefed.as_slice(),
            None => unreachable!(),
        }
    }
}

/// Makes room for one more that a deref gives.
fn reserve(kept: &mut Option<LaterCopy>) -> Result<(), NoMemory>
    ensures same { kept_of kept.new ≡ kept_of kept.old }
    ensures room { OnOk result (HasRoom kept.new) }
{
    match kept {
        Some(kept) => kept.derefed.reserve(1),
        None => Ok(()),
    }
}

/// Keeps what a deref gave, if the copy has it.
fn note(kept: &mut Option<LaterCopy>, given: Option<Id>)
    requires { HasRoom kept.old }
    ensures { kept_of kept.new ≡ option_map (λ k. (k.0, noted k.0.made given k.1)) (kept_of kept.old) }
{
    if let Some(kept) = kept {
        note_in(kept, given);
    }
}

/// The same, where a copy is kept.
fn note_in(kept: &mut LaterCopy, given: Option<Id>)
    requires { 0 < kept.old.derefed.room }
    ensures copy { kept.new.copy ≡ kept.old.copy }
    ensures derefed { kept.new.derefed.events ≡ noted (arc_value kept.old.copy).made given kept.old.derefed.events }
{
    if let Some(id) = given {
        if was_made(kept.copy.made(), id) {
            kept.derefed.append(id);
        }
    }
}

/// Whether the identity is one of so many.
fn was_made(made: u32, id: Id) -> bool
    ensures { result ≡ is_made made id }
{
    0 < id.number() && id.number() <= made
}

/// The identity of what a deref gave, where the event is one.
fn given_by(event: &Event) -> Option<Id>
    ensures { option_to_list result ≡ derefs event.now }
{
    match event {
        Event::Did(done) => match (done.command(), done.answer()) {
            (Command::Deref { .. }, AnswerRef::Gives(value)) => value.identity(),
            _ => None,
        },
        _ => None,
    }
}
