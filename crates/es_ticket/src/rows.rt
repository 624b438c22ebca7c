//! The ledger's table: a line for each ticket that was made.

ghost use Rattle.std.specs.Prelude.{◌≡◌, ◌<◌, ◌+◌, ◌^◌, [], ◌∷◌, ◌++◌, IfOk, OnErr, Contains, length, ◌≤◌, false, List, count_by, Bool, if◌then◌else◌};
ghost use Rattle.es_event.specs.Rows.{held, in_port, moved, held_by};
ghost use Rattle.es_ticket.specs.Numbered.{IsNumberedFrom};
ghost use Rattle.es_ticket.specs.Views.{ledger_view};
ghost use Rattle.es_ticket.specs.Stakes.{erase, has_serial};
ghost use Rattle.es_event.specs.Rows.{row};
ghost use Rattle.es_event.specs.declared.row.Row.{Row};
ghost use Rattle.es_event.specs.declared.row.Holder.TheVariants.{Agent, Port, Nobody};

use crate::ledger_name::LedgerName;
use crate::stake::Stake;
use crate::steps::{Mine, change, look, note};
use crate::ticket::Ticket;
use crate::view::{Deals, Tied, View};
use atomic_table::Table;
use es_event::{Entry, Holder, Row};
use es_value::NoMemory;
use std::alloc::Global;
use std::marker::{Model, PhantomData};

type Word = Table<Vec<Entry>, View, (), Tied, Global>;

/// The proof word of a ledger that has no name yet. The name is the type `L` of all that
/// belongs to it, and a type can't be chosen before the word is there; so the word is made first,
/// and `named` gives it to the run.
#[derive(Drop)]
pub struct Opened {
    word: Word,
    seat: Mine,
}

impl Model for Opened {
    ghost use Rattle.atomic_table.specs.Seated.{TableId, table_id_coded};

    ghost Value = { TableId };

    ghost coded = { table_id_coded };

    ghost use Rattle.std.specs.Prelude.{◌≡◌, []};
    ghost use Rattle.es_ticket.specs.Views.{ledger_view};

    ghost view = { λ s. s.word.shared.table_id };

    ghost invariant = { λ s. (s.word.shared.table_id.words ≡ 1) × (s.seat.table_id ≡ s.word.shared.table_id) × (s.seat.me ≡ (ledger_view [] 0 0, [])) };
}

impl Opened {
    /// A word that no run has yet.
    pub fn new(alloc: Global) -> Result<Opened, NoMemory> {
        let (word, seat) = Word::of_words(alloc, &[0], &())?;
        Ok(Opened { word, seat })
    }

    /// The empty table of the run that has this word.
    pub fn named<L: LedgerName>(self, alloc: Global) -> Rows<L>
        requires { self ≡ L.table }
        ensures { (result.rows ≡ []) × (result.agents ≡ 0) }
    {
        let Opened { word, seat } = self;
        Rows {
            word,
            seat,
            entries: Vec::new(alloc),
            agents: 0,
            of: PhantomData,
        }
    }
}

/// The ledger's table of serials: what the ticket of each serial that was made names, and who holds
/// it.
#[derive(Drop)]
pub struct Rows<L: LedgerName> {
    word: Word,
    seat: Mine,
    // by serial, from 1 on
    entries: Vec<Entry>,
    agents: usize,
    of: PhantomData<L>,
}

impl<L: LedgerName> Model for Rows<L> {
    ghost use Rattle.std.specs.Prelude.{◌≡◌, []};
    ghost use Rattle.es_ticket.specs.Views.{ledger_view};
    ghost use Rattle.es_ticket.specs.Numbered.{IsNumberedFrom};
    ghost use Rattle.es_ticket.specs.Stakes.{RowsView};

    ghost Value = { RowsView };

    ghost view = { λ s. record { rows = s.entries.items; agents = s.agents } };

    ghost invariant = { λ s. (s.word.shared.table_id ≡ L.table) × (L.table.words ≡ 1) × (s.seat.table_id ≡ L.table) × (s.seat.me ≡ (ledger_view s.entries.items 0 s.agents, [])) × IsNumberedFrom 1 s.entries.items };
}

impl<L: LedgerName> Rows<L> {
    /// How many tickets were made.
    pub fn made(&self) -> usize
        ensures count { result ≡ length self.now.rows }
        ensures small { result < 2 ^ 63 }
    {
        self.entries.len()
    }

    /// The stake of a new agent, one of eight at most, which gets the next number, from 0; while no
    /// ticket was made.
    pub fn deal(&mut self) -> Stake<L>
        requires empty { self.old.rows ≡ [] }
        requires few { self.old.agents < 8 }
        ensures stake { (result.agent ≡ self.old.agents) × (result.rows ≡ []) }
        ensures table { (self.new.rows ≡ []) × (self.new.agents ≡ self.old.agents + 1) }
    {
        let word = &self.word;
        let seat = word.shared.split_seat::<Deals>(&mut self.seat);
        let number = self.agents;
        self.agents += 1;
        Stake {
            number,
            seat,
            of: PhantomData,
        }
    }

    /// Changes nothing, and tells that the stake's rows are those that the table has for its agent,
    /// and that each line of the table has the serial of its place.
    pub fn look(&mut self, stake: &mut Stake<L>)
        ensures same { (self.new ≡ self.old) × (stake.new ≡ stake.old) }
        ensures told { stake.old.rows ≡ held stake.old.agent self.old.rows }
        ensures numbered { IsNumberedFrom 1 self.old.rows }
    {
        let word = &self.word;
        look(&word.shared, &mut self.seat, &mut stake.seat);
    }

    /// Makes the next ticket, of a block with so many words, which the stake's agent holds.
    pub fn open(
        &mut self,
        stake: &mut Stake<L>,
        block: u64,
        words: u32,
    ) -> Result<Ticket<L>, NoMemory>
        ensures ticket { IfOk result (λ t. t ≡ row (length self.old.rows + 1) block words) }
        ensures stake { IfOk result (λ t. (stake.new.agent ≡ stake.old.agent) × (stake.new.rows ≡ stake.old.rows ++ t ∷ [])) }
        ensures fresh { IfOk result (λ t. has_serial t.serial stake.old.rows ≡ false) }
        ensures table { IfOk result (λ t. (self.new.agents ≡ self.old.agents) × (self.new.rows ≡ self.old.rows ++ held_by (Agent stake.old.agent) t ∷ [])) }
        ensures err { OnErr result ((self.new ≡ self.old) × (stake.new ≡ stake.old)) }
    {
        self.entries.reserve(1)?;
        let word = &self.word;
        look(&word.shared, &mut self.seat, &mut stake.seat);
        let row = Row {
            serial: self.entries.len() as u64 + 1,
            block,
            words,
        };
        self.entries.push_reserved(Entry {
            row,
            holder: Holder::Agent(stake.number),
        });
        change(
            &word.shared,
            &mut self.seat,
            &mut stake.seat,
            stake.number,
            &self.entries,
        );
        Ok(Ticket {
            row,
            of: PhantomData,
        })
    }

    /// Spends a ticket of the stake's agent. It takes no memory.
    pub fn spend(&mut self, stake: &mut Stake<L>, ticket: Ticket<L>)
        requires { Contains stake.old.rows ticket }
        ensures stake { (stake.new.agent ≡ stake.old.agent) × (stake.new.rows ≡ erase ticket.serial stake.old.rows) }
        ensures place { (xs ys : List Row) → stake.old.rows ≡ xs ++ ticket ∷ ys → stake.new.rows ≡ xs ++ ys }
        ensures counts { (p : Row → Bool) → count_by p stake.old.rows ≡ count_by p stake.new.rows + (if p ticket then 1 else 0) }
        ensures table { (self.new.agents ≡ self.old.agents) × (self.new.rows ≡ moved ticket.serial Nobody self.old.rows) }
    {
        let Ticket { row: spent, of: _ } = ticket;
        let word = &self.word;
        look(&word.shared, &mut self.seat, &mut stake.seat);
        hand_over(&mut self.entries, spent.serial, Holder::Nobody);
        change(
            &word.shared,
            &mut self.seat,
            &mut stake.seat,
            stake.number,
            &self.entries,
        );
    }

    /// Makes the next ticket, of the same block, which the port of a sender and a receiver holds.
    /// The sender keeps its own.
    pub fn post(
        &mut self,
        sender: usize,
        receiver: usize,
        ticket: &Ticket<L>,
    ) -> Result<Ticket<L>, NoMemory>
        ensures ticket { IfOk result (λ t. t ≡ row (length self.old.rows + 1) ticket.now.block ticket.now.words) }
        ensures table { IfOk result (λ t. (self.new.agents ≡ self.old.agents) × (self.new.rows ≡ self.old.rows ++ held_by (Port sender receiver) t ∷ [])) }
        ensures err { OnErr result (self.new ≡ self.old) }
    {
        self.entries.reserve(1)?;
        let row = Row {
            serial: self.entries.len() as u64 + 1,
            block: ticket.row.block,
            words: ticket.row.words,
        };
        self.entries.push_reserved(Entry {
            row,
            holder: Holder::Port { sender, receiver },
        });
        let word = &self.word;
        note(&word.shared, &mut self.seat, &self.entries);
        Ok(Ticket {
            row,
            of: PhantomData,
        })
    }

    /// The ticket, which lies in a port, goes to the stake's agent. It takes no memory.
    pub fn take(&mut self, stake: &mut Stake<L>, sender: usize, receiver: usize, ticket: &Ticket<L>)
        requires { Contains (in_port sender receiver self.old.rows) ticket.now }
        ensures stake { stake.new.agent ≡ stake.old.agent }
        ensures fresh { has_serial ticket.now.serial stake.old.rows ≡ false }
        ensures has { Contains stake.new.rows ticket.now }
        ensures counts { (p : Row → Bool) → count_by p stake.new.rows ≡ count_by p stake.old.rows + (if p ticket.now then 1 else 0) }
        ensures table { (self.new.agents ≡ self.old.agents) × (self.new.rows ≡ moved ticket.now.serial (Agent stake.old.agent) self.old.rows) }
        ensures told { stake.new.rows ≡ held stake.old.agent self.new.rows }
        ensures port { in_port sender receiver self.new.rows ≡ erase ticket.now.serial (in_port sender receiver self.old.rows) }
    {
        let word = &self.word;
        look(&word.shared, &mut self.seat, &mut stake.seat);
        let serial = ticket.row.serial;
        hand_over(&mut self.entries, serial, Holder::Agent(stake.number));
        change(
            &word.shared,
            &mut self.seat,
            &mut stake.seat,
            stake.number,
            &self.entries,
        );
    }

    /// Spends a ticket that lies in a port. It takes no memory.
    pub fn drain(&mut self, sender: usize, receiver: usize, ticket: Ticket<L>)
        requires { Contains (in_port sender receiver self.old.rows) ticket }
        ensures table { (self.new.agents ≡ self.old.agents) × (self.new.rows ≡ moved ticket.serial Nobody self.old.rows) }
        ensures port { in_port sender receiver self.new.rows ≡ erase ticket.serial (in_port sender receiver self.old.rows) }
    {
        let Ticket {
            row: drained,
            of: _,
        } = ticket;
        hand_over(&mut self.entries, drained.serial, Holder::Nobody);
        let word = &self.word;
        note(&word.shared, &mut self.seat, &self.entries);
    }
}

// The line of this serial gets another holder.
fn hand_over(entries: &mut Vec<Entry>, serial: u64, holder: Holder)
    requires there { (0 < serial) × (serial ≤ length entries.old.items) }
    requires numbered { IsNumberedFrom 1 entries.old.items }
    ensures { entries.new.items ≡ moved serial holder entries.old.items }
{
    entries[serial as usize - 1].holder = holder;
}
