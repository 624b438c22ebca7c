//! The buffer objects that an agent ever had.

ghost use Rattle.std.specs.Prelude.{◌≡◌, ◌<◌, ◌≤◌, ◌∷◌, ℕ, [], Some, None, true, IfOk, IfErr, OnOk, length, reverse, slice_index_or};
ghost use Rattle.es_event.specs.declared.row.Row.{Row as RowSaid};
ghost use Rattle.es_event.specs.Sharing.{row_at};
ghost use Rattle.es_ticket.specs.Stakes.{at, is_rising_from};
ghost use Rattle.es_record.specs.Newest.{newest};

use es_event::Row;
use es_value::{Id, NoMemory};
use std::alloc::Global;
use std::marker::Model;

/// Each buffer object that an agent ever had, emptied ones too, with what its ticket named
/// (SharedArrayBuffer Objects). They lie by rising identity, which is the order of their coming;
/// contracts see the newest first.
#[derive(Drop)]
pub(crate) struct BufferTable {
    all: Vec<(Id, Row)>,
}

impl Model for BufferTable {
    ghost use Rattle.std.specs.Prelude.{◌≡◌, ◌-◌, true, reverse, vec_len, vec_capacity};
    ghost use Rattle.es_ticket.specs.Stakes.{is_rising_from};
    ghost use Rattle.es_record.specs.Newest.{BufferTableView};

    ghost Value = { BufferTableView };

    ghost view = { λ t. record { rows = reverse t.all.items; room = vec_capacity t.all - vec_len t.all } };

    ghost invariant = { λ t. is_rising_from 0 t.all.items ≡ true };
}

impl BufferTable {
    /// No buffer object; it takes no memory.
    pub(crate) fn new(alloc: Global) -> Self
        ensures { result.rows ≡ [] }
    {
        BufferTable {
            all: Vec::new(alloc),
        }
    }

    /// What the ticket of a buffer object named, if it is one.
    #[inline(always)]
    pub(crate) fn row(&self, buffer: Id) -> Option<Row>
        ensures { result ≡ row_at self.now.rows buffer }
    {
        match self.all.as_slice() {
            // most agents have one alone
            [(first, row), ..] if *first == buffer => Some(*row),
            _ => self.find(buffer),
        }
    }

    /// The same, wherever it lies.
    #[inline(never)]
    fn find(&self, buffer: Id) -> Option<Row>
        ensures { result ≡ row_at self.now.rows buffer }
    {
        match place_of(&self.all, buffer) {
            Ok(place) => Some(self.all[place].1),
            Err(_) => None,
        }
    }

    /// All of them, the oldest first.
    pub(crate) fn as_slice(&self) -> &[(Id, Row)]
        ensures { result.now ≡ reverse self.now.rows }
    {
        self.all.as_slice()
    }

    /// Makes room for one more.
    pub(crate) fn reserve(&mut self) -> Result<(), NoMemory>
        ensures same { self.new.rows ≡ self.old.rows }
        ensures room { OnOk result (0 < self.new.room) }
    {
        self.all.reserve(1)?;
        Ok(())
    }

    /// Adds a buffer object, which is newer than all others and for which there is room.
    pub(crate) fn add(&mut self, buffer: Id, row: Row)
        requires newer { newest self.old.rows < buffer }
        requires room { 0 < self.old.room }
        ensures { self.new.rows ≡ (buffer, row) ∷ self.old.rows }
    {
        let _ = self.all.push((buffer, row));
    }
}

/// Where a buffer object lies, or where it would come.
fn place_of(all: &[(Id, Row)], buffer: Id) -> Result<usize, usize>
    requires { is_rising_from 0 all.now ≡ true }
    ensures found { IfOk result (λ i. (i < length all.now) × ((d : ℕ × RowSaid) → at buffer all.now ≡ Some (slice_index_or all.now i d).1)) }
    ensures missing { IfErr result (λ i. at buffer all.now ≡ None) }
{
    all.binary_search_by_key(&buffer.number(), |one| one.0.number())
}
