//! What a call answers.

ghost use Rattle.std.specs.Prelude.{◌≡◌, true, false};
ghost use Rattle.es_library.specs.Replies.{Replies, Holds, HoldsNothing};
ghost use Rattle.es_script.specs.FaultText.{fault_text};

use crate::asked::{Asked, text_for};
use es_script::{ScriptFault, write_fault};
use es_turns::TurnsFault;
use std::alloc::Global;

/// The status where all went well.
pub(crate) const DONE: u32 = 0;

/// The status where the plan has a fault.
pub(crate) const REFUSED: u32 = 1;

/// The status where there was no memory.
pub(crate) const NO_MEMORY: u32 = 3;

/// The status where there are more bytes than a plan has at most.
pub(crate) const TOO_LONG: u32 = 4;

/// Does what is asked of a plan, and hands over what there is to say of it. Answers the status.
pub(crate) fn reply(
    alloc: Global,
    plan: &[u8],
    asked: Asked,
    out: &mut [u8],
    length: &mut usize,
) -> u32
    ensures { Replies asked plan.now out.old out.new length.new result }
{
    match text_for(alloc, plan, asked) {
        Ok(text) => {
            hand_over(text.as_slice(), out, length);
            DONE
        }
        Err(TurnsFault::Script(fault)) => {
            if tell(alloc, fault, out, length) {
                REFUSED
            } else {
                NO_MEMORY
            }
        }
        Err(TurnsFault::NoMemory) => {
            *length = 0;
            NO_MEMORY
        }
        Err(TurnsFault::TooLong) => {
            *length = 0;
            TOO_LONG
        }
    }
}

/// Hands the text of a fault over, or nothing where there is no memory for it. Answers whether there was.
pub(crate) fn tell(alloc: Global, fault: ScriptFault, out: &mut [u8], length: &mut usize) -> bool
    ensures told { result ≡ true → Holds (fault_text fault) out.old out.new length.new }
    ensures nothing { result ≡ false → HoldsNothing out.old out.new length.new }
{
    let mut text = Vec::new(alloc);
    match write_fault(fault, &mut text) {
        Ok(()) => {
            hand_over(text.as_slice(), out, length);
            true
        }
        Err(_) => {
            *length = 0;
            false
        }
    }
}

/// Puts as much of the text as there is room for to the front of `out`, and its whole length into `length`.
pub(crate) fn hand_over(text: &[u8], out: &mut [u8], length: &mut usize)
    ensures { Holds text.now out.old out.new length.new }
{
    let count = text.len().min(out.len());
    out[..count].copy_from_slice(&text[..count]);
    *length = text.len();
}
