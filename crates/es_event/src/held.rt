//! The values that a command read, where they do not lie in their event.

ghost use Rattle.std.specs.Prelude.{◌≡◌, take};
ghost use Rattle.es_event.specs.Held.{values_of};

use crate::Sequence;
use es_value::Value;

/// The values that a command read, in order.
#[derive(Drop)]
pub(crate) enum Held {
    /// So many, the first of these.
    Few(u8, [Value; 3]),
    /// As many as there are.
    More(Sequence<Value>),
}

impl Held {
    /// The values.
    pub(crate) fn as_slice(&self) -> &[Value]
        ensures { result.now ≡ values_of self.now }
    {
        match self {
            Held::Few(count, values) => first_of(values.as_slice(), *count as usize),
            Held::More(values) => values.as_slice(),
        }
    }
}

/// The first n of these values, or all where there are no more.
#[inline(always)]
pub(crate) fn first_of(values: &[Value], n: usize) -> &[Value]
    ensures { result.now ≡ take n values.now }
{
    if n < values.len() {
        &values[..n]
    } else {
        values
    }
}
