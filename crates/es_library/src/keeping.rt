//! An answer that is kept until C gives it up.

ghost use Rattle.std.specs.Prelude.{◌≡◌, true, false, drop};
ghost use Rattle.es_library.specs.Keeps.{IsKept, IsNotKept, Keeps};
ghost use Rattle.es_library.specs.Replies.{Holds};
ghost use Rattle.es_script.specs.FaultText.{fault_text};

use crate::asked::{Asked, text_for};
use crate::kept::{Kept, Text};
use crate::pointer::Pointer;
use crate::reply::{DONE, NO_MEMORY, REFUSED, TOO_LONG, hand_over};
use es_script::{ScriptFault, write_fault};
use es_turns::TurnsFault;
use std::alloc::Global;

/// Does what is asked of a plan, and keeps what there is to say of it. Answers the status.
pub(crate) fn keep(
    alloc: Global,
    plan: &[u8],
    asked: Asked,
    kept: &mut Kept,
    length: &mut usize,
) -> u32
    requires empty { kept.old.filled ≡ false }
    ensures { Keeps asked plan.now kept.old kept.new length.new result }
{
    match text_for(alloc, plan, asked) {
        Ok(text) => {
            if put(alloc, text, kept, length) {
                DONE
            } else {
                NO_MEMORY
            }
        }
        Err(TurnsFault::Script(fault)) => {
            if put_fault(alloc, fault, kept, length) {
                REFUSED
            } else {
                NO_MEMORY
            }
        }
        Err(TurnsFault::NoMemory) => {
            *length = 0;
            NO_MEMORY
        }
        Err(TurnsFault::TooLong) => {
            *length = 0;
            TOO_LONG
        }
    }
}

/// Keeps the text of a fault, or nothing where there is no memory for it. Answers whether there was.
fn put_fault(alloc: Global, fault: ScriptFault, kept: &mut Kept, length: &mut usize) -> bool
    requires empty { kept.old.filled ≡ false }
    ensures told { result ≡ true → IsKept (fault_text fault) kept.new length.new }
    ensures nothing { result ≡ false → IsNotKept kept.old kept.new length.new }
{
    let mut text = Vec::new(alloc);
    match write_fault(fault, &mut text) {
        Ok(()) => put(alloc, text, kept, length),
        Err(_) => {
            *length = 0;
            false
        }
    }
}

/// Keeps a text, or nothing where there is no memory for it. Answers whether there was.
pub(crate) fn put(alloc: Global, bytes: Vec<u8>, kept: &mut Kept, length: &mut usize) -> bool
    requires empty { kept.old.filled ≡ false }
    ensures told { result ≡ true → IsKept bytes.items kept.new length.new }
    ensures nothing { result ≡ false → IsNotKept kept.old kept.new length.new }
{
    let count = bytes.as_slice().len();
    match Box::new(alloc, Text { bytes }) {
        Ok(held) => {
            *length = count;
            *kept = Kept::full(Pointer::of(held));
            true
        }
        Err(_) => {
            *length = 0;
            false
        }
    }
}

/// Puts what the text has from this place on to the front of `out`, as much of it as there is room for.
/// Answers how many bytes the text has from there on. The text goes on to be kept, in `next`.
pub(crate) fn copy_from(kept: Kept, place: usize, out: &mut [u8], next: &mut Kept) -> usize
    requires filled { kept.filled ≡ true }
    requires empty { next.old.filled ≡ false }
    ensures part { Holds (drop place kept.value.bytes.items) out.old out.new result }
    ensures stays { (next.new.filled ≡ true) × (next.new.value ≡ kept.value) }
{
    let held = kept.into_pointer().boxed_again();
    let text = held.bytes.as_slice();
    let mut left = 0;
    hand_over(&text[place.min(text.len())..], out, &mut left);
    *next = Kept::full(Pointer::of(held));
    left
}

/// Gives up a text that is kept.
pub(crate) fn give_up(kept: Kept)
    requires filled { kept.filled ≡ true }
{
    let _ = kept.into_pointer().boxed_again();
}
