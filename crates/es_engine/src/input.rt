//! The bytes of a plan, from a reader.

ghost use Rattle.std.specs.Prelude.{◌≡◌, ◌+◌, nat_le, IfOk, IfErr};
ghost use Rattle.es_value.specs.Limits.{longest_plan};
ghost use Rattle.es_engine.specs.Engine.{GaveAll, IsInputFault};

use crate::run_fault::RunFault;
use es_value::LONGEST_PLAN;
use std::alloc::Global;
use std::io::Read;

/// How many bytes are asked for at a time. They lie on the stack, which so has grown, before the plan takes memory, as
/// far as a text of many levels needs: where memory ended first, a stack that can't grow would end the program.
const PIECE: usize = 262_144;

/// The bytes that the reader gives, to its end.
///
/// Fails where the reader fails or gives more bytes than a plan has at most, or where there is no
/// memory. Then some bytes are taken from the reader.
pub fn read_all<R: Read>(alloc: Global, reader: &mut R) -> Result<Vec<u8>, RunFault>
    ensures all { IfOk result (λ bytes. GaveAll (R.remaining reader.old) (R.remaining reader.new) bytes.items) }
    ensures fault { IfErr result IsInputFault }
{
    let mut bytes = Vec::new(alloc);
    let mut piece = [0; PIECE];
    loop {
        let count = match reader.read(&mut piece) {
            Ok(count) => count,
            Err(_) => return Err(RunFault::Read),
        };
        if count == 0 {
            return Ok(bytes);
        }
        if !is_room(bytes.len(), count) {
            return Err(RunFault::Read);
        }
        let Ok(()) = bytes.extend_from_slice(&piece[..count]) else {
            return Err(RunFault::NoMemory);
        };
    }
}

// Whether a plan of so many bytes may have so many more.
fn is_room(length: usize, more: usize) -> bool
    ensures { result ≡ nat_le (length + more) longest_plan }
{
    more <= LONGEST_PLAN && length <= LONGEST_PLAN - more
}
