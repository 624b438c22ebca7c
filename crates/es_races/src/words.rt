//! The newest accesses to each word.

ghost use Rattle.std.specs.Prelude.{◌≡◌, ◌≢◌, ◌==◌, ◌&&◌, ◌||◌, ◌<◌, ◌≤◌, ℕ, Bool, is_some, IfSome, IfNone};
ghost use Rattle.es_event.specs.Access.{written};
ghost use Rattle.es_races.specs.Pass.{IsUnknown, count_in, newest_at, newest_in, raise_if};

use crate::clock::{AGENTS, Clock};
use crate::maps::put;
use crate::race::Mark;
use es_event::Change;
use es_value::NoMemory;
use std::collections::HashMap;

/// For each block and index the newest accesses to the word there.
pub(crate) type Words = HashMap<(u64, usize), Word>;

/// Of each agent, one more than the number of its newest write to a word, and of its newest access to it; 0 where it
/// made none.
#[derive(Clone, Copy)]
pub(crate) struct Word {
    wrote: Clock,
    touched: Clock,
}

impl Word {
    /// Those with which an access that writes conflicts, or one that does not.
    pub fn newest(&self, writes: bool) -> &Clock
        ensures { result.now ≡ newest_in self.now writes }
    {
        if writes { &self.touched } else { &self.wrote }
    }

    /// Notes an access of an agent, by one more than its number.
    pub fn note(&mut self, agent: usize, count: usize, writes: bool)
        ensures { (w : Bool) (j : ℕ) → j < 8 → count_in (newest_in self.new w) j ≡ raise_if ((w || writes) && (agent == j)) count (count_in (newest_in self.old w) j) }
    {
        self.touched.raise(agent, count);
        if writes {
            self.wrote.raise(agent, count);
        }
    }
}

/// The newest accesses to the word at an index of a block.
pub(crate) fn word_at(words: &Words, block: u64, index: usize) -> Word
    ensures { (w : Bool) (j : ℕ) → count_in (newest_in result w) j ≡ newest_at words.now w block index j }
{
    match words.get(&(block, index)) {
        Some(word) => *word,
        None => Word {
            wrote: Clock::new(),
            touched: Clock::new(),
        },
    }
}

/// Whether a change writes.
pub(crate) fn is_write(change: &Change) -> bool
    ensures { (old : ℕ) → result ≡ is_some (written change.now old) }
{
    match change {
        Change::Keep => false,
        Change::Write(_) | Change::Add(_) => true,
    }
}

/// An access by another agent that is not known, among the newest of each.
pub(crate) fn unknown(newest: &Clock, known: &Clock, agent: usize) -> Option<Mark>
    ensures some { IfSome result (λ m. IsUnknown newest.now known.now agent m) }
    ensures none { IfNone result ((j : ℕ) → j < 8 → agent ≢ j → count_in newest.now j ≤ count_in known.now j) }
{
    for other in 0..AGENTS {
        let count = newest.count(other);
        if other != agent && count > known.count(other) {
            return Some(Mark {
                agent: other,
                number: count - 1,
            });
        }
    }
    None
}
