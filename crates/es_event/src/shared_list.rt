//! Lists that several places have.

ghost use Rattle.std.specs.Prelude.{◌≡◌, IfOk};

use crate::Sequence;
use es_value::NoMemory;
use std::marker::Model;
use std::sync::ArcSlice;

/// A list that several places have, which contracts see as its items alone, in order.
///
/// It takes 8 bytes in each place. Its owners are counted, by a count that threads may share.
pub struct SharedList<T> {
    all: ArcSlice<T>,
}

impl<T: Drop> Drop for SharedList<T> {
    #[inline]
    fn drop(self) {
        let SharedList { all: _ } = self;
    }
}

impl<T> Model for SharedList<T> {
    ghost use Rattle.std.specs.Prelude.{List};
    ghost use Rattle.std.specs.Arc.{arc_slice_items};

    ghost Value = { List T };

    ghost view = { λ s. arc_slice_items s.all };
}

impl<T> SharedList<T> {
    /// The items.
    pub fn as_slice(&self) -> &[T]
        ensures { result.now ≡ self.now }
    {
        self.all.as_slice()
    }
}

impl<T: Drop> SharedList<T> {
    /// The items of a list, which it keeps; it takes memory for their count.
    pub fn of(items: Sequence<T>) -> Result<SharedList<T>, NoMemory>
        ensures { IfOk result (λ s. s ≡ items) }
    {
        let all = ArcSlice::from_vec(items.into_vec())?;
        Ok(SharedList { all })
    }

    /// The same list again, in no memory of its own. An error only where it has more owners than can be
    /// counted.
    pub fn copy(&self) -> Result<SharedList<T>, NoMemory>
        ensures { IfOk result (λ s. s ≡ self.now) }
    {
        let all = self.all.clone()?;
        Ok(SharedList { all })
    }
}
