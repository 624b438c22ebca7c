//! A box as its pointer.
ghost use Rattle.std.specs.Prelude.{◌≡◌};
ghost use Rattle.std_alloc.specs.Box.Ownership.{box_owns};

use std::alloc::Allocator;
use std::marker::Model;

/// The pointer of a box, and what it takes to make the box of it again.
pub(crate) struct Pointer<T, A: Allocator> {
    pub(crate) to: *mut T,
    pub(crate) alloc: A,
    pub(crate) ghost value: { T },
}

impl<T, A: Allocator> Model for Pointer<T, A> {
    ghost also_owns = { λ p. box_owns (A.dealloc_token p.alloc) T.row p.to p.value };
}

impl<T: Drop, A: Allocator> Pointer<T, A> {
    /// The pointer of this box.
    pub(crate) fn of(boxed: Box<T, A>) -> Pointer<T, A>
        ensures { result.value ≡ boxed.value }
    {
        let (to, alloc) = Box::into_raw_with_allocator(boxed);
        Pointer { to, alloc }
    }

    /// The box again.
    pub(crate) fn boxed_again(self) -> Box<T, A>
        ensures { result.value ≡ self.value }
    {
        let Pointer { to, alloc } = self;
        unsafe { Box::from_raw(alloc, to) }
    }
}
