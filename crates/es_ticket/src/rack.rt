//! Racks of tickets.

ghost use Rattle.std.specs.Prelude.{◌≡◌, ◌<◌, ◌≤◌, ◌+◌, ℕ, true, [], ◌∷◌, ◌++◌, Some, None, is_some, length, slice_index_or, IfOk, IfErr, OnOk, IsOk, IfSome, IfNone};
ghost use Rattle.std.specs.List.{insert, remove};
ghost use Rattle.es_ticket.specs.Stakes.{at, placed, removed, is_rising_from, among, besides};
ghost use Rattle.es_event.specs.declared.row.Row.{Row};

use crate::kept::Kept;
use crate::ledger_name::LedgerName;
use crate::parting::{count_among, part};
use crate::ticket::Ticket;
use es_value::{Id, IdSet, NoMemory};
use std::alloc::Global;
use std::marker::Model;
use std::mem;

/// The tickets of an agent, by buffer object (the SharedArrayBuffer objects over their blocks).
/// They lie by rising identity.
pub struct Rack<L: LedgerName> {
    kept: Vec<Kept<L>>,
}

impl<L: LedgerName> Model for Rack<L> {
    ghost use Rattle.std.specs.Prelude.{◌≡◌, ◌-◌, true, vec_len, vec_capacity};
    ghost use Rattle.es_ticket.specs.Stakes.{RackView, is_rising_from};

    ghost Value = { RackView };

    ghost view = { λ r. record { tickets = r.kept.items; room = vec_capacity r.kept - vec_len r.kept } };

    ghost invariant = { λ r. is_rising_from 0 r.kept.items ≡ true };
}

impl<L: LedgerName> Rack<L> {
    /// An empty rack. It takes no memory.
    pub fn new(alloc: Global) -> Rack<L>
        ensures { result.tickets ≡ [] }
    {
        Rack {
            kept: Vec::new(alloc),
        }
    }

    /// Makes room, so that the next `more` puts succeed.
    pub fn reserve(&mut self, more: usize) -> Result<(), NoMemory>
        ensures same { self.new.tickets ≡ self.old.tickets }
        ensures grown { self.old.room ≤ self.new.room }
        ensures room { OnOk result (more ≤ self.new.room) }
    {
        self.kept.reserve(more)?;
        Ok(())
    }

    /// Puts the ticket of a buffer object, which has none yet, in its place. It comes back where
    /// there is no memory.
    pub fn put(&mut self, id: Id, ticket: Ticket<L>) -> Result<(), (Ticket<L>, NoMemory)>
        requires { at id self.old.tickets ≡ None }
        ensures ok { OnOk result (self.new.tickets ≡ placed id ticket self.old.tickets) }
        ensures err { IfErr result (λ e. (e.0 ≡ ticket) × (self.new.tickets ≡ self.old.tickets)) }
        ensures roomy { 0 < self.old.room → IsOk result × (self.new.room + 1 ≡ self.old.room) }
    {
        let Err(place) = place_of(&self.kept, id) else {
            unreachable!()
        };
        match self.kept.insert(place, Kept { id, ticket }) {
            Ok(()) => Ok(()),
            Err(failed) => {
                let Kept { id: _, ticket } = failed.value;
                Err((ticket, NoMemory))
            }
        }
    }

    /// The ticket of a buffer object that has one.
    #[inline(always)]
    pub fn get(&self, id: Id) -> &Ticket<L>
        requires { is_some (at id self.now.tickets) ≡ true }
        ensures { Some result.now ≡ at id self.now.tickets }
    {
        match self.kept.first() {
            // most agents have one alone
            Some(first) if first.number() == id.number() => first.ticket(),
            _ => self.find(id),
        }
    }

    // The same, wherever it lies.
    #[inline(never)]
    fn find(&self, id: Id) -> &Ticket<L>
        requires { is_some (at id self.now.tickets) ≡ true }
        ensures { Some result.now ≡ at id self.now.tickets }
    {
        let Ok(place) = place_of(&self.kept, id) else {
            unreachable!()
        };
        self.kept[place].ticket()
    }

    /// Takes the ticket of a buffer object that has one. It takes no memory.
    pub fn take(&mut self, id: Id) -> Ticket<L>
        requires { is_some (at id self.old.tickets) ≡ true }
        ensures ticket { Some result ≡ at id self.old.tickets }
        ensures rest { self.new.tickets ≡ removed id self.old.tickets }
        ensures room { self.new.room ≡ self.old.room + 1 }
    {
        let Ok(place) = place_of(&self.kept, id) else {
            unreachable!()
        };
        let Kept { id: _, ticket } = self.kept.remove(place);
        ticket
    }

    /// Takes the ticket of the newest buffer object. It takes no memory.
    pub fn pop(&mut self) -> Option<Ticket<L>>
        ensures some { IfSome result (λ t. (i : ℕ) × (self.old.tickets ≡ self.new.tickets ++ (i, t) ∷ []) × (self.new.room ≡ self.old.room + 1)) }
        ensures none { IfNone result ((self.old.tickets ≡ []) × (self.new.tickets ≡ []) × (self.new.room ≡ self.old.room)) }
    {
        match self.kept.pop() {
            Some(kept) => {
                let Kept { id: _, ticket } = kept;
                Some(ticket)
            }
            None => None,
        }
    }

    /// An empty rack with room for the tickets of these buffer objects, as far as they are here. It
    /// takes memory for those alone, so none where there are none.
    pub fn room_for(&self, ids: &[Id]) -> Result<Rack<L>, NoMemory>
        ensures { IfOk result (λ r. (r.tickets ≡ []) × (length (among ids.now self.now.tickets) ≤ r.room)) }
    {
        let alloc = *self.kept.allocator();
        let count = count_among(&self.kept, &IdSet::of(ids));
        if count == 0 {
            return Ok(Rack::new(alloc));
        }
        let kept = Vec::with_capacity(alloc, count)?;
        Ok(Rack { kept })
    }

    /// Takes out the tickets of these buffer objects, in one pass, into an empty rack that has room for
    /// them; it takes no memory.
    pub fn extract(&mut self, ids: &[Id], room: Rack<L>) -> Rack<L>
        requires empty { room.tickets ≡ [] }
        requires room { length (among ids.now self.old.tickets) ≤ room.room }
        ensures taken { result.tickets ≡ among ids.now self.old.tickets }
        ensures rest { self.new.tickets ≡ besides ids.now self.old.tickets }
    {
        let Rack { kept: taken } = room;
        if taken.capacity() == 0 {
            return Rack { kept: taken };
        }
        let nothing = Vec::new(*self.kept.allocator());
        let kept = mem::replace(&mut self.kept, nothing);
        let (taken, rest) = part(kept, &IdSet::of(ids), taken);
        mem::replace(&mut self.kept, rest).destroy_empty();
        Rack { kept: taken }
    }

    /// How many tickets there are.
    pub fn len(&self) -> usize
        ensures { result ≡ length self.now.tickets }
    {
        self.kept.len()
    }

    /// Ends an empty rack.
    pub fn end(self)
        requires { self.tickets ≡ [] }
    {
        let Rack { kept } = self;
        kept.destroy_empty();
    }
}

// The place of a buffer object, or the one where it would come.
fn place_of<L: LedgerName>(kept: &[Kept<L>], id: Id) -> Result<usize, usize>
    requires { is_rising_from 0 kept.now ≡ true }
    ensures found { IfOk result (λ i. (i < length kept.now) × (removed id kept.now ≡ remove kept.now i) × ((d : ℕ × Row) → at id kept.now ≡ Some (slice_index_or kept.now i d).1)) }
    ensures positive { 0 < id }
    ensures missing { IfErr result (λ i. (i ≤ length kept.now) × (at id kept.now ≡ None) × ((r : Row) → placed id r kept.now ≡ insert kept.now i (id, r))) }
{
    kept.binary_search_by_key(&id.number(), |one| one.number())
}
