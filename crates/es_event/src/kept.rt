//! What was done, less the list of its command.

ghost use Rattle.std.specs.Prelude.{◌≡◌, ◌<◌, ◌++◌, ◌∷◌, [], true, length, OnOk, OnErr};
ghost use Rattle.es_event.specs.Answers.{answer_said};
ghost use Rattle.es_event.specs.declared.event.Answer.TheVariants.{Nothing as NothingSaid, Gives as GivesSaid, Listed as ListedSaid};
ghost use Rattle.es_event.specs.Held.{values_of};
ghost use Rattle.es_event.specs.Kept.{place_in, values_in, answer_in, has_room};

use crate::done::AnswerRef;
use crate::held::{Held, first_of};
use crate::{Sequence, SharedList};
use es_value::{Name, NoMemory, Value};
use std::alloc::Global;
use std::mem;

/// The place of a command in its list, what it read and what it gave.
#[derive(Drop)]
pub(crate) enum Kept {
    /// It read up to three values, the first of these. Where it gave one, that is the last of these, and it read
    /// up to two.
    Few {
        read: u8,
        gave: bool,
        place: u32,
        values: [Value; 3],
    },
    /// It read more values.
    More(u32, Sequence<Value>),
    /// It read more values than lie beside the one that it gave.
    MoreGave(u32, Box<Giving>),
    /// It gave keys.
    Listed(u32, Box<Listing>),
}

/// The values that a command read, and the one that it gave.
#[derive(Drop)]
pub(crate) struct Giving {
    values: Held,
    given: Value,
}

/// The values that a command read, and the keys that it gave.
#[derive(Drop)]
pub(crate) struct Listing {
    values: Held,
    keys: SharedList<Name>,
}

impl Kept {
    /// Of the command at this place, which read nothing yet.
    #[inline(always)]
    pub(crate) fn none(place: u32) -> Kept
        ensures place { place_in result ≡ place }
        ensures values { values_in result ≡ [] }
        ensures answer { answer_in result ≡ NothingSaid }
        ensures room { has_room result ≡ true }
    {
        Kept::Few {
            read: 0,
            gave: false,
            place,
            values: [Value::Undefined, Value::Undefined, Value::Undefined],
        }
    }

    /// It read this value too, which lies beside those that it read.
    #[inline(always)]
    #[tactic(auto, using(std::proofs::lemmas::List::take_more_set))]
    pub(crate) fn read(&mut self, value: Value)
        requires room { has_room self.old ≡ true }
        requires answer { answer_in self.old ≡ NothingSaid }
        ensures place { place_in self.new ≡ place_in self.old }
        ensures values { values_in self.new ≡ values_in self.old ++ value ∷ [] }
        ensures answer { answer_in self.new ≡ NothingSaid }
        ensures room { length (values_in self.new) < 3 → has_room self.new ≡ true }
    {
        let at = match self {
            Kept::Few { read, .. } => *read,
            _ => unreachable!(),
        };
        match self {
            Kept::Few { values, .. } => values[at as usize] = value,
            _ => unreachable!(),
        }
        match self {
            Kept::Few { read, .. } => *read = at + 1,
            _ => unreachable!(),
        }
    }

    /// It read all these values.
    pub(crate) fn read_all(&mut self, values: Sequence<Value>)
        ensures place { place_in self.new ≡ place_in self.old }
        ensures values { values_in self.new ≡ values }
        ensures answer { answer_in self.new ≡ NothingSaid }
    {
        *self = Kept::More(self.place(), values);
    }

    /// Where the command stands in its list.
    #[inline(always)]
    pub(crate) fn place(&self) -> u32
        ensures { result ≡ place_in self.now }
    {
        match self {
            Kept::Few { place, .. } => *place,
            Kept::More(place, _) | Kept::MoreGave(place, _) | Kept::Listed(place, _) => *place,
        }
    }

    /// What it read.
    #[inline(always)]
    pub(crate) fn values(&self) -> &[Value]
        ensures { result.now ≡ values_in self.now }
    {
        match self {
            Kept::Few { read, values, .. } => first_of(values.as_slice(), *read as usize),
            Kept::More(_, values) => values.as_slice(),
            Kept::MoreGave(_, giving) => giving.values.as_slice(),
            Kept::Listed(_, listing) => listing.values.as_slice(),
        }
    }

    /// What it gave.
    #[inline(always)]
    pub(crate) fn answer(&self) -> AnswerRef<'_>
        ensures { answer_said result ≡ answer_in self.now }
    {
        match self {
            Kept::Few { gave, values, .. } => {
                if *gave {
                    AnswerRef::Gives(&values[2])
                } else {
                    AnswerRef::Nothing
                }
            }
            Kept::More(_, _) => AnswerRef::Nothing,
            Kept::MoreGave(_, giving) => AnswerRef::Gives(&giving.given),
            Kept::Listed(_, listing) => AnswerRef::Listed(listing.keys.as_slice()),
        }
    }

    /// It gave this value. Where there is no memory, its place alone is left.
    #[inline(always)]
    pub(crate) fn give(&mut self, alloc: Global, given: Value) -> Result<(), NoMemory>
        requires { answer_in self.old ≡ NothingSaid }
        ensures place { place_in self.new ≡ place_in self.old }
        ensures values { OnOk result (values_in self.new ≡ values_in self.old) }
        ensures answer { OnOk result (answer_in self.new ≡ GivesSaid given) }
        ensures left { OnErr result (has_room self.new ≡ true) }
    {
        if self.has_room() {
            self.give_last(given);
            return Ok(());
        }
        self.give_beside(alloc, given)
    }

    /// Whether one value more lies beside those that it read.
    #[inline(always)]
    fn has_room(&self) -> bool
        ensures { result ≡ has_room self.now }
    {
        match self {
            Kept::Few { read, .. } => *read < 3,
            Kept::More(_, _) | Kept::MoreGave(_, _) | Kept::Listed(_, _) => false,
        }
    }

    /// It gave this value, which lies beside those that it read.
    #[inline(always)]
    fn give_last(&mut self, given: Value)
        requires { has_room self.old ≡ true }
        ensures place { place_in self.new ≡ place_in self.old }
        ensures values { values_in self.new ≡ values_in self.old }
        ensures answer { answer_in self.new ≡ GivesSaid given }
    {
        match self {
            Kept::Few { values, .. } => values[2] = given,
            _ => unreachable!(),
        }
        match self {
            Kept::Few { gave, .. } => *gave = true,
            _ => unreachable!(),
        }
    }

    /// The same, where what it gave does not lie beside what it read.
    #[inline(never)]
    fn give_beside(&mut self, alloc: Global, given: Value) -> Result<(), NoMemory>
        requires { answer_in self.old ≡ NothingSaid }
        ensures place { place_in self.new ≡ place_in self.old }
        ensures values { OnOk result (values_in self.new ≡ values_in self.old) }
        ensures answer { OnOk result (answer_in self.new ≡ GivesSaid given) }
        ensures left { OnErr result (has_room self.new ≡ true) }
    {
        let (place, values) = self.take_held();
        let giving = Box::new(alloc, Giving { values, given })?;
        *self = Kept::MoreGave(place, giving);
        Ok(())
    }

    /// Its place, which stays, and the values that it read, which leave it.
    fn take_held(&mut self) -> (u32, Held)
        requires { answer_in self.old ≡ NothingSaid }
        ensures place { (result.0 ≡ place_in self.old) × (place_in self.new ≡ place_in self.old) }
        ensures values { values_of result.1 ≡ values_in self.old }
        ensures room { has_room self.new ≡ true }
    {
        let place = self.place();
        let values = held(mem::replace(self, Kept::none(place)));
        (place, values)
    }

    /// It gave these keys. Where there is no memory, its place alone is left.
    #[inline(never)]
    pub(crate) fn list(&mut self, alloc: Global, keys: SharedList<Name>) -> Result<(), NoMemory>
        requires { answer_in self.old ≡ NothingSaid }
        ensures place { place_in self.new ≡ place_in self.old }
        ensures values { OnOk result (values_in self.new ≡ values_in self.old) }
        ensures answer { OnOk result (answer_in self.new ≡ ListedSaid keys) }
        ensures left { OnErr result (has_room self.new ≡ true) }
    {
        let (place, values) = self.take_held();
        let listing = Box::new(alloc, Listing { values, keys })?;
        *self = Kept::Listed(place, listing);
        Ok(())
    }
}

/// The values of what gave nothing.
fn held(kept: Kept) -> Held
    requires { answer_in kept ≡ NothingSaid }
    ensures { values_of result ≡ values_in kept }
{
    match kept {
        Kept::Few { read, values, .. } => Held::Few(read, values),
        Kept::More(_, values) => Held::More(values),
        Kept::MoreGave(_, _) | Kept::Listed(_, _) => unreachable!(),
    }
}
