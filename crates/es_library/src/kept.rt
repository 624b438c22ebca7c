//! A text that C keeps: a box behind a pointer.

ghost use Rattle.std.specs.Prelude.{◌≡◌, cond, true};
ghost use base.Fml.{ftrue};
ghost use Rattle.es_library.specs.contracts.kept.Text.{the_row as text_row};
ghost use Rattle.es_library.specs.declared.kept.Text.{Text};
ghost use Rattle.std_alloc.specs.Box.Ownership.{box_owns};
ghost use Rattle.std_heap.specs.contracts.GlobalAllocator.TheImpl.{ghosts};

use crate::pointer::Pointer;
use std::alloc::Global;
use std::marker::Model;

/// The text of an answer.
#[derive(Drop)]
pub struct Text {
    /// Its bytes, without an end.
    pub(crate) bytes: Vec<u8>,
}

/// A text that is kept, where it is filled. C begins with one of zeros, which is not filled and owns nothing;
/// `struct clusterrun_answer` of clusterrun.h.
#[repr(C)]
#[derive(Drop)]
pub struct Kept {
    filled: bool,
    at: *mut u8,
    alloc: Global,
    ghost value: { Text },
}

impl Model for Kept {
    ghost also_owns = { λ k. cond k.filled (box_owns (ghosts.dealloc_token k.alloc) text_row k.at k.value) ftrue };
}

impl Kept {
    /// The text behind this pointer, kept.
    pub(crate) fn full(held: Pointer<Text, Global>) -> Kept
        ensures filled { result.filled ≡ true }
        ensures value { result.value ≡ held.value }
    {
        let Pointer { to, alloc } = held;
        Kept {
            filled: true,
            at: to as *mut u8,
            alloc,
        }
    }

    /// The pointer of the text that is kept.
    pub(crate) fn into_pointer(self) -> Pointer<Text, Global>
        requires { self.filled ≡ true }
        ensures { result.value ≡ self.value }
    {
        let Kept {
            filled: _,
            at,
            alloc,
        } = self;
        Pointer {
            to: at as *mut Text,
            alloc,
        }
    }
}
