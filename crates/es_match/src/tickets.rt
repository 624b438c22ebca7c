//! The tickets of an agent's buffers.

ghost use Rattle.std.specs.Prelude.{◌≡◌, ◌++◌, ◌∷◌, [], ℕ, IfOk, OnOk, OnErr, Some, None, nat_eq, if◌then◌else◌};
ghost use Rattle.std.specs.Option.{option_copied, option_or};
ghost use Rattle.std.specs.HashMap.{get};
ghost use Rattle.es_event.specs.Identities.{object_of};
ghost use Rattle.es_event.specs.Sharing.{row_at, row_of};
ghost use Rattle.es_match.specs.Meets.{beyond, serials_of, within};
ghost use Rattle.es_match.specs.Shown.{said};

use es_event::Row;
use es_value::{Id, IdSet, NoMemory, Value};
use std::alloc::Global;
use std::collections::HashMap;
use std::marker::Model;

/// How many tickets are looked through from the first; of more the object is looked up.
const MOST_FEW: usize = 4;

/// The tickets of an agent's buffers, by object, the oldest first.
#[derive(Drop)]
pub(crate) struct BufferTickets {
    all: Vec<(Id, Row)>,
    // for each object its oldest ticket
    rows: HashMap<Id, Row>,
}

impl Model for BufferTickets {
    ghost use Rattle.std.specs.Prelude.{◌≡◌, ℕ, nat_eq, List};
    ghost use Rattle.std.specs.HashMap.{get};
    ghost use Rattle.es_event.specs.declared.row.Row.{Row as Ticket};
    ghost use Rattle.es_event.specs.Sharing.{row_at};

    ghost Value = { List (ℕ × Ticket) };

    ghost view = { λ r. r.all.items };

    ghost invariant = { λ r. (o : ℕ) → get nat_eq r.rows o ≡ row_at r.all.items o };
}

impl BufferTickets {
    /// No ticket; it takes no memory.
    pub fn new(alloc: Global) -> BufferTickets
        ensures { result ≡ [] }
    {
        BufferTickets {
            all: Vec::new(alloc),
            rows: HashMap::new(alloc),
        }
    }

    /// These tickets.
    #[tactic(auto, using(crate::proofs::Ticketed::row_more))]
    fn of(alloc: Global, all: Vec<(Id, Row)>) -> Result<BufferTickets, NoMemory>
        ensures { IfOk result (λ r. r ≡ all.items) }
    {
        let mut rows = HashMap::new(alloc);
        for (object, row) in &all {
            put_new(&mut rows, *object, *row)?;
        }
        Ok(BufferTickets { all, rows })
    }

    /// The tickets.
    pub fn as_slice(&self) -> &[(Id, Row)]
        ensures { result.now ≡ self.now }
    {
        self.all.as_slice()
    }

    /// Adds the ticket of an object; where there is no memory, nothing changes.
    #[tactic(auto, using(crate::proofs::Ticketed::row_added))]
    pub fn add(&mut self, object: Id, row: Row) -> Result<(), NoMemory>
        ensures { OnOk result (self.new ≡ self.old ++ (object, row) ∷ []) }
    {
        self.all.reserve(1)?;
        put_new(&mut self.rows, object, row)?;
        self.all.push_reserved((object, row));
        Ok(())
    }

    /// What the object's oldest ticket names.
    #[inline(always)]
    fn row(&self, object: Id) -> Option<&Row>
        ensures { option_copied result ≡ row_at self.now object }
    {
        match self.all.as_slice() {
            // most agents have one
            [(first, row), ..] if *first == object => Some(row),
            tickets if tickets.len() <= MOST_FEW => first_row(tickets, object),
            _ => self.rows.get(&object),
        }
    }

    /// What the buffer's ticket names, if the value is a buffer with a ticket.
    #[inline(always)]
    pub fn find(&self, value: Option<&Value>) -> Option<&Row>
        ensures { option_copied result ≡ row_of self.now (said value.entry) }
    {
        match object_in(value) {
            Some(object) => self.row(object),
            None => None,
        }
    }

    /// Takes out the tickets of these objects.
    #[tactic(auto, using(crate::proofs::Ticketed::all_beyond))]
    pub fn empty(&mut self, alloc: Global, ids: &IdSet<'_>) -> Result<(), NoMemory>
        ensures { OnOk result (self.new ≡ beyond ids.now self.old) }
    {
        let left = others(alloc, ids, &self.all)?;
        if left.len() == self.all.len() {
            return Ok(());
        }
        *self = BufferTickets::of(alloc, left)?;
        Ok(())
    }
}

/// Puts a row under an object that has none; an older one stays.
fn put_new(rows: &mut HashMap<Id, Row>, object: Id, row: Row) -> Result<(), NoMemory>
    ensures ok { OnOk result ((q : ℕ) → get nat_eq rows.new q ≡ option_or (get nat_eq rows.old q) (if nat_eq object q then Some row else None)) }
    ensures err { OnErr result ((q : ℕ) → get nat_eq rows.new q ≡ get nat_eq rows.old q) }
{
    if rows.contains_key(&object) {
        return Ok(());
    }
    rows.insert(object, row)?;
    Ok(())
}

/// What the first ticket of the object names, by a look at each.
fn first_row(tickets: &[(Id, Row)], object: Id) -> Option<&Row>
    ensures { option_copied result ≡ row_at tickets.now object }
{
    match tickets {
        [(first, row), rest @ ..] => {
            if *first == object {
                Some(row)
            } else {
                first_row(rest, object)
            }
        }
        [] => None,
    }
}

/// The object that the value is, if it is one.
pub(crate) fn object_in(value: Option<&Value>) -> Option<Id>
    ensures { result ≡ object_of (said value.entry) }
{
    match value {
        Some(Value::Object(object)) => Some(*object),
        _ => None,
    }
}

/// The serials of all.
pub(crate) fn serials_of(alloc: Global, tickets: &[(Id, Row)]) -> Result<Vec<u64>, NoMemory>
    ensures { IfOk result (λ v. v.items ≡ serials_of tickets.now) }
{
    let mut found = Vec::new(alloc);
    for (_, row) in tickets {
        found.push(row.serial)?;
    }
    Ok(found)
}

/// The serials of those whose object is listed.
pub(crate) fn serials_within(
    alloc: Global,
    ids: &IdSet<'_>,
    tickets: &[(Id, Row)],
) -> Result<Vec<u64>, NoMemory>
    ensures { IfOk result (λ v. v.items ≡ serials_of (within ids.now tickets.now)) }
{
    let mut found = Vec::new(alloc);
    for (object, row) in tickets {
        if ids.has(*object) {
            found.push(row.serial)?;
        }
    }
    Ok(found)
}

/// Those whose object is not listed.
fn others(alloc: Global, ids: &IdSet<'_>, tickets: &[(Id, Row)]) -> Result<Vec<(Id, Row)>, NoMemory>
    ensures { IfOk result (λ v. v.items ≡ beyond ids.now tickets.now) }
{
    let mut found = Vec::new(alloc);
    for (object, row) in tickets {
        if !ids.has(*object) {
            found.push((*object, *row))?;
        }
    }
    Ok(found)
}
