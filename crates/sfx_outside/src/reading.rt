ghost use Rattle.std.specs.Prelude.{◌≡◌, ◌+◌, ◌<◌, ◌≤◌, ◌⊎◌, length, vec_len, IfSome, IfOk, OnOk, IsOk, IsErrOf};
ghost use Rattle.sfx_outside.specs.Fault.{HasRisen};
ghost use Rattle.sfx_outside.specs.Source.{IsAtEnd, TakesAtMost, TakesExactly};

use crate::{ReadFault, Source};
use std::alloc::Global;

/// How many bytes are asked for at once.
const PIECE: usize = 65536;

/// Reads all that the source has left, at most `limit` bytes. It takes at least one byte a turn and
/// stops after `limit + 1` bytes.
///
/// # Errors
/// `TooLong` where more than `limit` bytes are left, `Failed` where a read failed, `Memory`. What was
/// read by then is lost.
pub fn read_to_end<A: Source>(
    alloc: Global,
    input: &mut A,
    limit: usize,
) -> Result<Vec<u8>, ReadFault>
    ensures all { IfOk result (λ bytes. IfSome (A.left input.old) (λ all. bytes.items ≡ all)) }
    ensures end { OnOk result (IsAtEnd (A.left input.new)) }
    ensures fits { IfOk result (λ bytes. vec_len bytes ≤ limit) }

    ensures too_long { IsErrOf result ReadFault.TooLong → IfSome (A.left input.old) (λ all. limit < length all) }
    ensures stopped { IsErrOf result ReadFault.TooLong →
        TakesExactly (limit + 1) (A.left input.old) (A.left input.new) }
    ensures taken { TakesAtMost (limit + 1) (A.left input.old) (A.left input.new) }

    ensures faults { A.faults input.old ≤ A.faults input.new }
    ensures cause { IsErrOf result ReadFault.Failed → HasRisen (A.faults input.old) (A.faults input.new) }

    // Where no read fails the length decides, but where memory ran out.
    ensures short { ¬ HasRisen (A.faults input.old) (A.faults input.new) →
        IfSome (A.left input.old) (λ all. length all ≤ limit → IsOk result ⊎ IsErrOf result ReadFault.Memory) }
    ensures long { ¬ HasRisen (A.faults input.old) (A.faults input.new) →
        IfSome (A.left input.old) (λ all. limit < length all →
        IsErrOf result ReadFault.TooLong ⊎ IsErrOf result ReadFault.Memory) }
{
    let mut buffer = [0; PIECE];
    let mut bytes = Vec::new(alloc);
    while bytes.len() <= limit {
        let room = (limit - bytes.len()).min(PIECE - 1) + 1;
        let count = input.read(&mut buffer[..room])?;
        if count == 0 {
            return Ok(bytes);
        }
        bytes.extend_from_slice(&buffer[..count])?;
    }
    Err(ReadFault::TooLong)
}
