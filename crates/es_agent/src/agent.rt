//! The agent: its calls, each of which records one event or shows what stands.

ghost use Rattle.std.specs.Prelude.{◌≡◌, ◌+◌, ◌↔◌, ◌&&◌, not, ℕ, [], true, false, IsTrue, Option, List, Some, None, pos, is_some, length, reverse, IfOk, IfErr, OnOk, OnErr};
ghost use Rattle.es_value.specs.Values.{identity};
ghost use Rattle.es_event.specs.Access.{wait_text};
ghost use Rattle.es_event.specs.Identities.{gone, is_in, made};
ghost use Rattle.es_event.specs.Jobs.{receivers};
ghost use Rattle.es_event.specs.WeakRefs.{kept};
ghost use Rattle.es_event.specs.declared.row.Row.{Row as RowSaid};
ghost use Rattle.es_event.specs.Sharing.{row_at};
ghost use Rattle.es_event.specs.Registrations.{live, awaiting, unregistered, taken, tally as tally_said};
ghost use Rattle.es_event.specs.Follows.{refused_now};
ghost use Rattle.es_event.specs.Live.{Honest};
ghost use Rattle.es_event.specs.Order.{due, run, is_cleaning_up};
ghost use Rattle.es_event.specs.declared.command.Command.{Command as CommandSaid};
ghost use Rattle.es_event.specs.Runs.{IsRunOver};
ghost use Rattle.es_ticket.specs.Stakes.{at};
ghost use Rattle.es_record.specs.AgentView.{Records};
ghost use Rattle.es_event.specs.Later.{snapshot};
ghost use Rattle.es_record.specs.Graph.{AreMarksOf, AreLateMarks};
ghost use Rattle.std.specs.Arc.{arc_value};
ghost use Rattle.es_rules.specs.Needs.{need, asks_nobody, asks_marks, asks_copy, asks_late_marks, asks_message, asks_closing, runs_for_ledger, TakesTicket, TakesWord, TakesWaitResult, TakesDone};
ghost use Rattle.es_rules.specs.Shown.{shown};
ghost use Rattle.es_agent.specs.Tickets.{is_command, tickets, RecordsNext, Collects, Finishes, Admits, Receives, DoesWith, Skips};
ghost use Rattle.es_agent.specs.Failing.{FailsToAdmit};
ghost use Rattle.es_agent.specs.Later.{opening, IsLaterCopy, AreDerefed, AreThen};

mod reach;

use crate::admission::{AdmitFault, enter};
use crate::recorder::Recorder;
use es_event::{AgentPlan, Answer, Done, Due, Event, Refusal, Row, Sequence, WaitResult};
use es_mark::{Graph, Marks};
use es_parmark::Snapshot;
use es_record::AgentRecord;
use es_registry::Tally;
use es_rules::{
    Need, Stop, answered_done, answered_wait, answered_word, asks, asks_nobody, asks_somebody,
    caught, do_alone, is_for_ledger, next_event, planned, received, skipped,
};
use es_ticket::{LedgerName, Rack, Ticket};
use es_value::{Id, NoMemory, Value};
use std::alloc::Global;
use std::marker::Model;
use std::mem;
use std::sync::Arc;

/// One agent, by its plan and its history (ECMA-262, Agents), of the run L.
///
/// Its stored history is legal and follows its plan so far; nothing that is reached is emptied, and
/// no set that was emptied was live. It has the tickets of its buffer objects that are not emptied,
/// and those alone: so it can't be dropped, but ends by `into_history` or `abandon`.
pub struct AgentCore<L: LedgerName> {
    alloc: Global,
    record: Recorder,
    rack: Rack<L>,
}

impl<L: LedgerName> Model for AgentCore<L> {
    ghost use Rattle.std.specs.Prelude.{◌≡◌, ◌≤◌, true, reverse};
    ghost use Rattle.es_event.specs.Identities.{made};
    ghost use Rattle.es_ticket.specs.Stakes.{is_rising_from};
    ghost use Rattle.es_record.specs.AgentView.{AgentView};
    ghost use Rattle.es_record.specs.Newest.{newest};
    ghost use Rattle.es_agent.specs.Tickets.{tickets};

    ghost Value = { AgentView };

    ghost view = { λ a. a.record };

    ghost invariant = { λ a. (a.rack.tickets ≡ tickets a.record) × (is_rising_from 0 (reverse a.record.over) ≡ true) × (newest a.record.over ≤ made a.record.history) };
}

impl<L: LedgerName> AgentCore<L> {
    /// The agent of this number, counted from 0, of so many agents, before its first event.
    pub fn new(
        alloc: Global,
        plan: AgentPlan,
        number: usize,
        agents: usize,
    ) -> Result<AgentCore<L>, NoMemory>
        ensures { IfOk result (λ a. a ≡ record { plan = plan; number = number; agents = agents; over = []; history = [] }) }
    {
        match AgentRecord::new(alloc, plan, number, agents) {
            Ok(record) => Ok(AgentCore {
                alloc,
                record: Recorder::new(alloc, record),
                rack: Rack::new(alloc),
            }),
            Err(error) => Err(error),
        }
    }

    /// Its number among the agents, counted from 0.
    pub fn number(&self) -> usize
        ensures { result ≡ self.now.number }
    {
        self.record.read().number()
    }

    /// Its events so far, the oldest first. They are legal and follow its plan so far, over its buffer
    /// objects, and no set that was emptied was live then (ECMA-262, Liveness; Execution). Each of its
    /// tickets names what its buffer object is over.
    pub fn history(&self) -> &[Event]
        ensures events { reverse result.now ≡ self.now.history }
        ensures run { IsRunOver self.now.over self.now.plan self.now.history }
        ensures honest { Honest (receivers self.now.plan.jobs) self.now.history }
        ensures named { (o : ℕ) (r : RowSaid) → Some r ≡ at o (tickets self.now) → Some r ≡ row_at self.now.over o }
    {
        self.record.read().history()
    }

    /// Each buffer object that came, emptied ones too, with what its ticket named (ECMA-262, SharedArrayBuffer
    /// Objects), the oldest first.
    pub fn buffers(&self) -> &[(Id, Row)]
        ensures { result.now ≡ reverse self.now.over }
    {
        self.record.read().buffers()
    }

    /// Its plan.
    pub fn plan(&self) -> &AgentPlan
        ensures { result.now ≡ self.now.plan }
    {
        self.record.read().plan()
    }

    /// All that it has but its tickets, to look things up in.
    pub fn record(&self) -> &AgentRecord
        ensures { result.now ≡ self.now }
    {
        self.record.read()
    }

    /// KeptAlive, in order of keeping (ECMA-262, AddToKeptObjects). Nothing in it is emptied.
    pub fn kept(&self) -> &[Id]
        ensures said { reverse result.now ≡ kept self.now.history }
        ensures there { (i : ℕ) → is_in (kept self.now.history) i ≡ true → is_in (gone self.now.history) i ≡ true → ⊥ }
    {
        self.record.read().kept()
    }

    /// How many registrations have each fate; together they are all that were made.
    pub fn tally(&self) -> Tally
        ensures live { result.live ≡ tally_said self.now.history live }
        ensures awaiting { result.awaiting ≡ tally_said self.now.history awaiting }
        ensures unregistered { result.unregistered ≡ tally_said self.now.history unregistered }
        ensures taken { result.taken ≡ tally_said self.now.history taken }
    {
        self.record.read().tally()
    }

    /// Whether a cleanup job is under way, or is due next.
    pub fn is_cleaning_up(&self) -> bool
        ensures said { result ≡ is_cleaning_up self.now.history }
        ensures run { IsRunOver self.now.over self.now.plan self.now.history }
    {
        self.record.read().is_cleaning_up()
    }

    /// The ticket of a buffer object that has one: of each that came and is not emptied, until the agent
    /// closes.
    pub fn ticket(&self, buffer: Id) -> &Ticket<L>
        requires { is_some (at buffer (tickets self.now)) ≡ true }
        ensures here { Some result.now ≡ at buffer (tickets self.now) }
        ensures named { Some result.now ≡ row_at self.now.over buffer }
    {
        self.rack.get(buffer)
    }

    /// How many tickets it has.
    pub fn ticket_count(&self) -> usize
        ensures { result ≡ length (tickets self.now) }
    {
        self.rack.len()
    }

    /// What it asks for next. A command that a rule refuses asks for nothing.
    #[inline(always)]
    pub fn next(&self) -> Need<'_>
        ensures { shown result ≡ need self.now }
    {
        asks(self.record.read())
    }

    /// Whether what comes next is a command, of a job or of a callback.
    pub fn is_at_command(&self) -> bool
        ensures { result ≡ is_command (due self.now.plan self.now.history) }
    {
        matches!(self.record.read().due(), Due::Run(..))
    }

    /// Takes the next step that asks nobody else, and records its one event; where there is no
    /// memory nothing has changed.
    pub fn perform(&mut self) -> Result<(), NoMemory>
        requires { need self.old ≡ asks_nobody }
        ensures ok { OnOk result (RecordsNext self.old self.new) }
        ensures err { OnErr result (self.new ≡ self.old) }
    {
        let _ = self.perform_due(true)?;
        Ok(())
    }

    /// Takes the next step, where it asks nobody else, and records its one event: whether it did. A command that asks
    /// the ledger, unless a rule refuses it, is not tried: `next` tells what it asks for. Where the step was not taken,
    /// or there is no memory, nothing has changed.
    pub fn perform_alone(&mut self) -> Result<bool, NoMemory>
        ensures asks { IfOk result (λ done. IsTrue done ↔ ((need self.old ≡ asks_nobody) × (runs_for_ledger (due self.old.plan self.old.history) ≡ false))) }
        ensures done { IfOk result (λ done. IsTrue done → RecordsNext self.old self.new) }
        ensures left { IfOk result (λ done. done ≡ false → self.new ≡ self.old) }
        ensures err { OnErr result (self.new ≡ self.old) }
    {
        self.perform_due(false)
    }

    // Takes the next step, where it asks nobody else: whether it did. Commands that ask the ledger, unless a rule refuses
    // them, are tried where that is asked for.
    #[inline(always)]
    fn perform_due(&mut self, tries_ledger: bool) -> Result<bool, NoMemory>
        ensures asks { IfOk result (λ done. IsTrue done ↔ ((need self.old ≡ asks_nobody) × ((not tries_ledger && runs_for_ledger (due self.old.plan self.old.history)) ≡ false))) }
        ensures done { IfOk result (λ done. IsTrue done → RecordsNext self.old self.new) }
        ensures left { IfOk result (λ done. done ≡ false → self.new ≡ self.old) }
        ensures err { OnErr result (self.new ≡ self.old) }
    {
        let record = self.record.read();
        if let Due::Run(_, command) = record.due() {
            if !tries_ledger && is_for_ledger(command) {
                return Ok(false);
            }
            if asks_somebody(record, command) {
                return Ok(false);
            }
            let mut done = Done::of(planned(record)?);
            record.read(command, &mut done)?;
            match do_alone(record, command, &mut done) {
                Ok(()) => self.record.record_done(done)?,
                Err(Stop::Refused(code)) => {
                    drop(done);
                    self.refuse(code)?;
                }
                Err(Stop::NoMemory) => return Err(NoMemory),
            }
            return Ok(true);
        }
        self.perform_between()
    }

    /// Records that the due command is refused, or that this is caught. It stands alone, so that a command that is done makes
    /// no place for it. Where there is no memory nothing has changed.
    #[inline(never)]
    fn refuse(&mut self, code: Refusal) -> Result<(), NoMemory>
        requires due { (x : Option (List ℕ)) × (c : CommandSaid) × (due self.old.plan self.old.history ≡ run x c) }
        requires refused { (x : Option (List ℕ)) (c : CommandSaid) → due self.old.plan self.old.history ≡ run x c → refused_now self.old.over (receivers self.old.plan.jobs) self.old.history c ≡ Some code }
        ensures ok { OnOk result (RecordsNext self.old self.new) }
        ensures err { OnErr result (self.new ≡ self.old) }
    {
        match caught(self.record.read(), code)? {
            Some(done) => self.record.record_done(done),
            None => self.record.record(Event::Refused { code }),
        }
    }

    /// The same, where no command is due.
    #[inline(never)]
    fn perform_between(&mut self) -> Result<bool, NoMemory>
        requires { (x : Option (List ℕ)) (c : CommandSaid) → due self.old.plan self.old.history ≡ run x c → ⊥ }
        ensures asks { IfOk result (λ done. IsTrue done ↔ (need self.old ≡ asks_nobody)) }
        ensures done { IfOk result (λ done. IsTrue done → RecordsNext self.old self.new) }
        ensures left { IfOk result (λ done. done ≡ false → self.new ≡ self.old) }
        ensures err { OnErr result (self.new ≡ self.old) }
    {
        if !asks_nobody(self.record.read()) {
            return Ok(false);
        }
        let event = next_event(self.record.read())?;
        self.record.record(event)?;
        Ok(true)
    }

    /// Empties all that is not marked, and records it as one event (ECMA-262, Execution): with the
    /// marks of this agent's graph that is all that is unreachable, objects and symbols alike. It hands
    /// out the tickets of the buffer objects among it. Where there is no memory nothing has changed.
    pub fn collect(&mut self, marks: &Marks) -> Result<Rack<L>, NoMemory>
        requires due { need self.old ≡ asks_marks }
        requires marks { AreMarksOf self.old marks.now }
        ensures ok { IfOk result (λ r. Collects self.old r.tickets self.new) }
        ensures err { OnErr result (self.new ≡ self.old) }
    {
        let ids = self.record.read().dead(marks)?;
        let room = self.rack.room_for(&ids)?;
        if let Err(error) = self.record.empty(ids) {
            room.end();
            return Err(error);
        }
        Ok(self.rack.extract(self.record.read().emptied_last(), room))
    }

    /// Opens a later collection: takes a copy of its graph, which it keeps too, and records its command. The
    /// copy may be marked while the agent goes on. Where there is no memory nothing has changed.
    pub fn begin_later(&mut self) -> Result<Arc<Snapshot>, NoMemory>
        requires { need self.old ≡ asks_copy }
        ensures records { OnOk result (Records self.old opening self.new) }
        ensures copy { IfOk result (λ copy. IsLaterCopy self.new (arc_value copy)) }
        ensures err { OnErr result (self.new ≡ self.old) }
    {
        self.record.begin()
    }

    /// The copy of the open later collection.
    pub fn later(&self) -> &Snapshot
        requires { is_some (snapshot self.now.history) ≡ true }
        ensures { IsLaterCopy self.now result.now }
    {
        self.record.later()
    }

    /// What derefs gave since that copy was taken, of the identities that it has, in order (ECMA-262,
    /// WeakRefDeref).
    pub fn derefed(&self) -> &[Id]
        requires { is_some (snapshot self.now.history) ≡ true }
        ensures given { AreDerefed self.now result.now }
        ensures then { AreThen self.now result.now }
    {
        self.record.derefed()
    }

    /// Finishes the open later collection: empties all that was made when its copy was taken and is not
    /// marked, and records it as one event (ECMA-262, Execution). With the marks of the copy and of what
    /// derefs gave since, that is not live, though the graph has changed. It hands out the tickets of the
    /// buffer objects among it. Where there is no memory nothing has changed.
    pub fn finish_later(&mut self, marks: &Marks) -> Result<Rack<L>, NoMemory>
        requires due { need self.old ≡ asks_late_marks }
        requires marks { AreLateMarks self.old marks.now }
        ensures ok { IfOk result (λ r. Finishes self.old r.tickets self.new) }
        ensures err { OnErr result (self.new ≡ self.old) }
    {
        let copied = self.record.later().made();
        let ids = self.record.read().late(marks, copied)?;
        let room = self.rack.room_for(&ids)?;
        if let Err(error) = self.record.empty(ids) {
            room.end();
            return Err(error);
        }
        Ok(self.rack.extract(self.record.read().emptied_last(), room))
    }

    /// Takes a ticket in: of the block that its next command asked for, or of one that came in the
    /// message that its next job waits for. A new buffer object is over its block
    /// (SharedArrayBuffer ( length )), and its identity is answered. Where there is no room for one
    /// more identity the message is refused, and where there is no memory nothing has changed; the
    /// ticket comes back in both.
    pub fn admit(&mut self, ticket: Ticket<L>) -> Result<Id, (Ticket<L>, AdmitFault)>
        requires { TakesTicket (need self.old) ticket }
        ensures ok { IfOk result (λ id. (id ≡ made self.old.history + 1) × Admits self.old ticket self.new) }
        ensures err { IfErr result (λ e. (e.0 ≡ ticket) × FailsToAdmit self.old e.1 self.new) }
    {
        if self.rack.reserve(1).is_err() {
            return Err((ticket, AdmitFault::NoMemory));
        }
        match enter(&mut self.record, ticket.row()) {
            Ok(id) => match self.rack.put(id, ticket) {
                Ok(()) => Ok(id),
                Err((ticket, _)) => Err((ticket, AdmitFault::NoMemory)),
            },
            Err(fault) => Err((ticket, fault)),
        }
    }

    /// Receives a value that has no identity, which came in the message that its next job waits for.
    /// Where there is no memory nothing has changed.
    pub fn receive(&mut self, value: Value) -> Result<(), NoMemory>
        requires message { (s : ℕ) × (need self.old ≡ asks_message s) }
        requires plain { identity value ≡ None }
        ensures ok { OnOk result (Receives self.old value self.new) }
        ensures err { OnErr result (self.new ≡ self.old) }
    {
        let event = received(self.record.read(), value);
        self.record.record(event)
    }

    /// Takes the word of shared memory that its next command read, or how many agents its notify took (The Atomics
    /// Object). Where there is no memory nothing has changed.
    pub fn answer_word(&mut self, word: u32) -> Result<(), NoMemory>
        requires { TakesWord (need self.old) }
        ensures ok { OnOk result (DoesWith self.old (Answer.Gives (Value.Number (pos word))) self.new) }
        ensures err { OnErr result (self.new ≡ self.old) }
    {
        let mut done = Done::of(planned(self.record.read())?);
        answered_word(self.record.read(), word, &mut done)?;
        self.record.record_done(done)
    }

    /// Takes how its next command, a wait, ended (Atomics.wait). Where there is no memory nothing has changed.
    pub fn answer_wait(&mut self, ended: WaitResult) -> Result<(), NoMemory>
        requires { TakesWaitResult (need self.old) }
        ensures ok { OnOk result (DoesWith self.old (Answer.Gives (Value.Text (wait_text ended))) self.new) }
        ensures err { OnErr result (self.new ≡ self.old) }
    {
        let mut done = Done::of(planned(self.record.read())?);
        answered_wait(self.record.read(), ended, &mut done)?;
        self.record.record_done(done)
    }

    /// Takes note that its next command, a store or a post, was done. Where there is no memory nothing
    /// has changed.
    pub fn answer_done(&mut self) -> Result<(), NoMemory>
        requires { TakesDone (need self.old) }
        ensures ok { OnOk result (DoesWith self.old Answer.Nothing self.new) }
        ensures err { OnErr result (self.new ≡ self.old) }
    {
        let mut done = Done::of(planned(self.record.read())?);
        answered_done(self.record.read(), &mut done)?;
        self.record.record_done(done)
    }

    /// Skips the job that waits for a message: none comes any more. Where there is no memory nothing has
    /// changed.
    pub fn skip(&mut self) -> Result<(), NoMemory>
        requires { (s : ℕ) × (need self.old ≡ asks_message s) }
        ensures ok { OnOk result (Skips self.old self.new) }
        ensures err { OnErr result (self.new ≡ self.old) }
    {
        let event = skipped(self.record.read());
        self.record.record(event)
    }

    /// Ends the agent, and hands out all its tickets; it takes no memory.
    pub fn close(&mut self) -> Rack<L>
        requires { need self.old ≡ asks_closing }
        ensures records { Records self.old Event.Closed self.new }
        ensures rack { result.tickets ≡ tickets self.old }
    {
        self.record.close();
        mem::replace(&mut self.rack, Rack::new(self.alloc))
    }

    /// Gives the agent up, at a fault, for its tickets; it takes no memory.
    pub fn abandon(self) -> Rack<L>
        ensures { result.tickets ≡ tickets self }
    {
        let AgentCore {
            alloc: _,
            record: _,
            rack,
        } = self;
        rack
    }

    /// Gives up the agent, which has no ticket left, for its events, the oldest first; it takes no
    /// memory.
    pub fn into_history(self) -> Sequence<Event>
        requires { tickets self ≡ [] }
        ensures events { reverse result ≡ self.history }
        ensures run { IsRunOver self.over self.plan self.history }
        ensures honest { Honest (receivers self.plan.jobs) self.history }
    {
        let AgentCore {
            alloc: _,
            record,
            rack,
        } = self;
        rack.end();
        record.into_record().into_history()
    }
}
