//! The agent's record: what is due, and the recording of events.

ghost use Rattle.std.specs.Prelude.{◌≡◌, ◌≤◌, ◌<◌, ◌+◌, ◌∷◌, ℕ, List, Option, None, [], Some, true, codes, reverse, is_some, IfOk, OnOk, OnErr};
ghost use Rattle.std.specs.Option.{option_map_or};
ghost use Rattle.es_event.specs.declared.command.Command.{Command as CommandSaid};
ghost use Rattle.es_event.specs.declared.row.Row.{Row as RowSaid};
ghost use Rattle.es_event.specs.Identities.{gone, is_in, made};
ghost use Rattle.es_event.specs.Jobs.{receivers, on_of};
ghost use Rattle.es_event.specs.WeakRefs.{kept};
ghost use Rattle.es_event.specs.Sharing.{blocks_opened, messages_posted};
ghost use Rattle.es_event.specs.Live.{Honest};
ghost use Rattle.es_event.specs.Order.{due, close, run};
ghost use Rattle.es_event.specs.Runs.{IsRunOver};
ghost use Rattle.es_record.specs.AgentView.{AgentView, IsNext, Records, with_buffer, with_row, emptied_last};
ghost use Rattle.es_record.specs.Newest.{newest};
ghost use Rattle.es_event.specs.Cursor.{IsAt};
ghost use Rattle.es_event.specs.Due.{shown};
ghost use Rattle.es_event.specs.Later.{snapshot};
ghost use Rattle.es_tables.specs.Effects.{Advances, IsQuiet};
ghost use Rattle.es_tables.specs.Changes.{table_change};
ghost use Rattle.es_tables.specs.Ready.{CanApply};
ghost use Rattle.es_tables.specs.Tables.{SameState};

mod cells;
mod leading;
mod look_up;
mod reach;

use crate::buffers::BufferTable;
use crate::counts::{blocks_in, open_after, posts_in};
use es_event::{
    AgentPlan, Cleanup, Cursor, Done, Due, Event, Log, PlanCommand, Position, Row, Sequence,
    callback_catches, callback_command, callback_commands, catches, commands, due_command,
    job_command,
};
use es_tables::{Tables, is_plain};
use es_value::{Id, Name, NameFault, NoMemory, Value};
use std::alloc::Global;
use std::marker::Model;

/// What an agent has (ECMA-262, Agents): its plan, its history, its tables, and where it is in its
/// plan.
///
/// Its stored history is legal and follows its plan so far; nothing that is reached is emptied, and
/// no set that was emptied was live. Its tables say what the history says.
#[derive(Drop)]
pub struct AgentRecord {
    plan: AgentPlan,
    number: usize,
    agents: usize,
    alloc: Global,
    events: Log<Event>,
    tables: Tables,
    cursor: Cursor,
    buffers: BufferTable,
    // how many blocks it opened, and how many messages it posted
    opened: usize,
    posted: usize,
    // whether a later collection is open
    later: bool,
    // the variable that held values are assigned to
    held: Name,
    // what a variable has to which nothing was assigned
    unassigned: Value,
}

impl Model for AgentRecord {
    ghost use Rattle.std.specs.Prelude.{◌≡◌, ◌≢◌, ◌<◌, ◌≤◌, codes, is_some};
    ghost use Rattle.es_value.specs.declared.value.Value.TheVariants.{Undefined};
    ghost use Rattle.es_event.specs.Identities.{made};
    ghost use Rattle.es_event.specs.Sharing.{blocks_opened, messages_posted};
    ghost use Rattle.es_event.specs.Later.{snapshot};
    ghost use Rattle.es_event.specs.Order.{phase, ended};
    ghost use Rattle.es_record.specs.AgentView.{AgentView};
    ghost use Rattle.es_record.specs.Newest.{newest};
    ghost use Rattle.es_record.specs.Ties.{RecordTies};

    ghost Value = { AgentView };

    ghost view = { λ a. record { plan = a.plan; number = a.number; agents = a.agents; over = a.buffers.rows; history = a.events.events } };

    // there is room for the closing event, until it stands
    ghost invariant = { λ a. RecordTies a.buffers.rows a.plan a.events.events a.tables a.cursor × (a.held ≡ codes "held") × (phase a.events.events ≢ ended → 0 < a.events.room) × (newest a.buffers.rows ≤ made a.events.events) × (a.opened ≡ blocks_opened a.events.events) × (a.posted ≡ messages_posted a.events.events) × (a.unassigned ≡ Undefined) × (a.later ≡ is_some (snapshot a.events.events)) };
}

impl AgentRecord {
    /// The agent of this number, counted from 0, of so many agents, before its first event.
    pub fn new(
        alloc: Global,
        plan: AgentPlan,
        number: usize,
        agents: usize,
    ) -> Result<AgentRecord, NoMemory>
        ensures { IfOk result (λ a. a ≡ record { plan = plan; number = number; agents = agents; over = []; history = [] }) }
    {
        let held = held_name(alloc)?;
        let mut events = Log::new(alloc);
        match events.reserve(events_of(&plan)) {
            Ok(()) => Ok(AgentRecord {
                plan,
                number,
                agents,
                alloc,
                events,
                tables: Tables::new(alloc),
                cursor: Cursor::START,
                buffers: BufferTable::new(alloc),
                opened: 0,
                posted: 0,
                later: false,
                held,
                unassigned: Value::Undefined,
            }),
            Err(error) => Err(error),
        }
    }

    /// Its number among the agents, counted from 0.
    pub fn number(&self) -> usize
        ensures { result ≡ self.now.number }
    {
        self.number
    }

    /// Its events so far, the oldest first. They are legal and follow its plan so far, over its
    /// buffers, and no set that was emptied was live then (ECMA-262, Liveness; Execution).
    pub fn history(&self) -> &[Event]
        ensures events { reverse result.now ≡ self.now.history }
        ensures run { IsRunOver self.now.over self.now.plan self.now.history }
        ensures honest { Honest (receivers self.now.plan.jobs) self.now.history }
    {
        self.events.as_slice()
    }

    /// KeptAlive, in order of keeping (ECMA-262, AddToKeptObjects). Nothing in it is emptied.
    pub fn kept(&self) -> &[Id]
        ensures said { reverse result.now ≡ kept self.now.history }
        ensures there { (i : ℕ) → is_in (kept self.now.history) i ≡ true → is_in (gone self.now.history) i ≡ true → ⊥ }
    {
        self.tables.kept()
    }

    /// Gives up the record for its events, the oldest first; it takes no memory.
    pub fn into_history(self) -> Sequence<Event>
        ensures events { reverse result ≡ self.history }
        ensures run { IsRunOver self.over self.plan self.history }
        ensures honest { Honest (receivers self.plan.jobs) self.history }
    {
        self.events.into_sequence()
    }

    /// Whether a later collection is open. Where one is, and the running job is to end, it is finished first.
    pub fn is_open(&self) -> bool
        ensures { result ≡ is_some (snapshot self.now.history) }
    {
        self.later
    }

    /// What comes next by its plan.
    #[inline(always)]
    pub fn due(&self) -> Due<'_>
        ensures { shown (snapshot self.now.history) result ≡ due self.now.plan self.now.history }
    {
        match self.cursor.position {
            Position::Between => self.due_between(),
            Position::Handed => Due::Begin(self.cursor.job),
            Position::Inside(at) => self.due_inside(at),
            Position::Cleaning(cleanup) => self.due_cleaning(cleanup),
            Position::Stopped | Position::CleanupStopped(_) => Due::EndJob,
            Position::Ended => Due::Nothing,
        }
    }

    /// The due command, as the event that does it has it; none where no command is due. It fails for want of
    /// memory alone.
    #[inline(always)]
    pub fn due_command(&self) -> Result<Option<PlanCommand>, NoMemory>
        ensures { IfOk result (λ o. (c : CommandSaid) (x : Option (List ℕ)) → due self.now.plan self.now.history ≡ run x c → o ≡ Some c) }
    {
        match self.cursor.position {
            Position::Inside(at) => job_command(&self.plan, self.cursor.job, at),
            Position::Cleaning(cleanup) => {
                callback_command(&self.plan, cleanup.callback, cleanup.at)
            }
            Position::Between
            | Position::Handed
            | Position::Stopped
            | Position::CleanupStopped(_)
            | Position::Ended => Ok(None),
        }
    }

    /// What comes next between two jobs: the first cleanup job that is queued, or else the next job.
    fn due_between(&self) -> Due<'_>
        requires { IsAt self.now.plan self.now.history Position.Between }
        ensures { shown (snapshot self.now.history) result ≡ due self.now.plan self.now.history }
    {
        match self.tables.queued() {
            Some(registry) => Due::Clean(registry.number()),
            None => self.cursor.due_job(&self.plan),
        }
    }

    /// What comes next in a job of the plan: the next command, or else its end.
    fn due_inside(&self, at: usize) -> Due<'_>
        requires { IsAt self.now.plan self.now.history (Position.Inside at) }
        ensures { shown (snapshot self.now.history) result ≡ due self.now.plan self.now.history }
    {
        let job = self.cursor.job;
        due_command(commands(&self.plan, job), catches(&self.plan, job), at)
    }

    /// What comes next in a cleanup job: the next command of its callback, or else the oldest cell that
    /// awaits it, or else its end.
    fn due_cleaning(&self, cleanup: Cleanup) -> Due<'_>
        requires { IsAt self.now.plan self.now.history (Position.Cleaning cleanup) }
        ensures { shown (snapshot self.now.history) result ≡ due self.now.plan self.now.history }
    {
        let commands = callback_commands(&self.plan, cleanup.callback);
        if cleanup.at < commands.len() {
            due_command(
                commands,
                callback_catches(&self.plan, cleanup.callback),
                cleanup.at,
            )
        } else {
            self.due_cell()
        }
    }

    /// Records an event that comes next and is no emptying; where there is no memory nothing has
    /// changed.
    pub fn record(&mut self, event: Event) -> Result<(), NoMemory>
        requires next { IsNext self.old event }
        requires quiet { IsQuiet event }
        ensures ok { OnOk result (Records self.old event self.new) }
        ensures err { OnErr result (self.new ≡ self.old) }
    {
        self.record_with(event, None)
    }

    /// Records a command that was done, which comes next; where there is no memory nothing has changed. One that opens no
    /// block, posts nothing and opens no later collection, as most do, moves the tables and the cursor alone.
    #[inline(always)]
    pub fn record_done(&mut self, done: Done) -> Result<(), NoMemory>
        requires { IsNext self.old (Event.Did done) }
        ensures ok { OnOk result (Records self.old (Event.Did done) self.new) }
        ensures err { OnErr result (self.new ≡ self.old) }
    {
        if !is_plain(done.command()) {
            return self.record_counted(done);
        }
        if let Err(error) = advance_done(&mut self.events, &mut self.tables, &done) {
            drop(done);
            return Err(error);
        }
        self.cursor.pass_command(&self.plan);
        self.events.append(Event::Did(done));
        Ok(())
    }

    /// The same, of a command that may do one of these.
    #[inline(never)]
    fn record_counted(&mut self, done: Done) -> Result<(), NoMemory>
        requires { IsNext self.old (Event.Did done) }
        ensures ok { OnOk result (Records self.old (Event.Did done) self.new) }
        ensures err { OnErr result (self.new ≡ self.old) }
    {
        self.record_with(Event::Did(done), None)
    }

    /// Records an event that comes next and by which a buffer object comes to the agent: the answer of
    /// its command, or a receipt. The row is what the object's ticket names. Where there is no memory
    /// nothing has changed.
    pub fn record_buffer(&mut self, event: Event, row: Row) -> Result<(), NoMemory>
        requires next { IsNext (with_buffer row self.old) event }
        requires quiet { IsQuiet event }
        requires comes { made (event ∷ self.old.history) ≡ made self.old.history + 1 }
        ensures ok { OnOk result (Records (with_buffer row self.old) event self.new) }
        ensures err { OnErr result (self.new ≡ self.old) }
    {
        self.record_with(event, Some(row))
    }

    /// Makes every growth that the event needs, then records it: nothing after the growths can fail.
    #[inline(never)]
    fn record_with(&mut self, event: Event, row: Option<Row>) -> Result<(), NoMemory>
        requires next { IsNext (with_row row self.old) event }
        requires quiet { IsQuiet event }
        requires comes { (r : RowSaid) → row ≡ Some r → made (event ∷ self.old.history) ≡ made self.old.history + 1 }
        ensures ok { OnOk result (Records (with_row row self.old) event self.new) }
        ensures err { OnErr result (self.new ≡ self.old) }
    {
        let again = self.again();
        let callback = self.callback_at(&event);
        let id = self.next_identity();
        let received = receiver(&self.plan, self.cursor.job, &self.held);
        if let Err(error) = advance(
            &mut self.events,
            &mut self.tables,
            &mut self.buffers,
            &event,
            &self.held,
            received,
            again,
        ) {
            drop(event);
            return Err(error);
        }
        add_buffer(&mut self.buffers, id, row);
        self.opened += blocks_in(&event);
        self.posted += posts_in(&event);
        self.later = open_after(&event, self.later);
        self.cursor = self.cursor.after(&event, &self.plan, callback);
        self.events.append(event);
        Ok(())
    }

    /// Empties these identities, which are all that is dead or, where an open later collection is to be
    /// finished, all that is late, by rising number, and records it as one event (ECMA-262, Execution). Where there is no memory nothing has changed.
    pub fn empty(&mut self, ids: Vec<Id>) -> Result<(), NoMemory>
        requires { IsNext self.old (Event.Emptied ids.items) }
        ensures ok { OnOk result (Records self.old (Event.Emptied ids.items) self.new) }
        ensures err { OnErr result (self.new ≡ self.old) }
    {
        self.events.reserve(2)?;
        self.tables.empty(ids.as_slice())?;
        let event = Event::Emptied {
            ids: Sequence::from_vec(ids),
        };
        self.cursor = self.cursor.after(&event, &self.plan, None);
        self.later = false;
        self.events.append(event);
        Ok(())
    }

    /// What its newest event emptied: nothing where that is no emptying.
    pub fn emptied_last(&self) -> &[Id]
        ensures { result.now ≡ emptied_last self.now.history }
    {
        match self.events.as_slice().last() {
            Some(Event::Emptied { ids }) => ids.as_slice(),
            _ => &[],
        }
    }

    /// Ends the agent; it takes no memory.
    pub fn close(&mut self)
        requires { due self.old.plan self.old.history ≡ close }
        ensures { Records self.old Event.Closed self.new }
    {
        self.cursor.position = Position::Ended;
        self.events.append(Event::Closed);
    }
}

/// How many events the plan has, were each of its jobs run to its end and no cleanup job: room for them is
/// made at once, so that the history does not move as it grows.
fn events_of(plan: &AgentPlan) -> usize
    ensures { 0 < result }
{
    let mut events: usize = 1;
    for job in plan.jobs.as_slice() {
        events = events
            .saturating_add(job.run.as_slice().len())
            .saturating_add(2);
    }
    events
}

/// The name of the variable that held values are assigned to.
fn held_name(alloc: Global) -> Result<Name, NoMemory>
    ensures { IfOk result (λ n. n ≡ codes "held") }
{
    match Name::read(alloc, "held") {
        Ok(name) => Ok(name),
        Err(NameFault::NoMemory) => Err(NoMemory),
        Err(NameFault::BadName) => unreachable!(),
    }
}

/// The variable that the message of this job of the plan is assigned to, if it waits for one.
fn receiver<'a>(plan: &'a AgentPlan, job: usize, otherwise: &'a Name) -> &'a Name
    requires { 0 < job }
    ensures { result.now ≡ option_map_or (λ on. on.1) (on_of plan.now.jobs job) otherwise.now }
{
    match plan.jobs.as_slice().get(job - 1) {
        Some(job) => match &job.on {
            Some((_, name)) => name,
            None => otherwise,
        },
        None => otherwise,
    }
}

/// Makes room for an event and for the closing one after it, and for a buffer object, and applies the
/// event to the tables. `held` and `received` are the names of the variables that a cell's held value
/// and a message's value are assigned to, and `again` is the registry that is queued again where the
/// event ends a job.
fn advance(
    events: &mut Log<Event>,
    tables: &mut Tables,
    buffers: &mut BufferTable,
    event: &Event,
    held: &Name,
    received: &Name,
    again: Option<Id>,
) -> Result<(), NoMemory>
    requires held { held.now ≡ codes "held" }
    requires can { CanApply tables.old (table_change again event.now) }
    ensures events { events.new.events ≡ events.old.events }
    ensures kept { events.old.room ≤ events.new.room }
    ensures rows { buffers.new.rows ≡ buffers.old.rows }
    ensures ok { OnOk result (Advances received.now again event.now tables.old tables.new) }
    ensures err { OnErr result (SameState tables.old tables.new) }
    ensures room { OnOk result (2 ≤ events.new.room) }
    ensures place { OnOk result (0 < buffers.new.room) }
{
    events.reserve(2)?;
    buffers.reserve()?;
    tables.advance(event, held, received, again)
}

/// Makes room for an event and for the closing one after it, and applies a command that was done to the tables.
#[inline(always)]
fn advance_done(events: &mut Log<Event>, tables: &mut Tables, done: &Done) -> Result<(), NoMemory>
    requires { CanApply tables.old (table_change None (Event.Did done.now)) }
    ensures events { events.new.events ≡ events.old.events }
    ensures kept { events.old.room ≤ events.new.room }
    ensures ok { OnOk result ((received : List ℕ) (again : Option ℕ) → Advances received again (Event.Did done.now) tables.old tables.new) }
    ensures err { OnErr result (SameState tables.old tables.new) }
    ensures room { OnOk result (2 ≤ events.new.room) }
{
    events.reserve(2)?;
    tables.advance_done(done)
}

/// Adds a buffer object, where one comes.
fn add_buffer(buffers: &mut BufferTable, id: Id, row: Option<Row>)
    requires newer { newest buffers.old.rows < id }
    requires room { 0 < buffers.old.room }
    ensures { buffers.new.rows ≡ option_map_or (λ r. (id, r) ∷ buffers.old.rows) row buffers.old.rows }
{
    if let Some(row) = row {
        buffers.add(id, row);
    }
}
