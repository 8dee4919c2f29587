ghost use Rattle.std.specs.Prelude.{◌≡◌};
ghost use Rattle.sfx_outside.specs.declared.sink_fault.SinkFault.TheVariants as sink_faults;

use std::alloc::AllocError;
use std::error::Error;
use std::fmt;

/// Why a sink did not take a piece.
#[derive(Clone, Copy, Debug, PartialEq, Eq)]
pub enum SinkFault {
    /// The outside failed: the write could not be made, or could not be finished.
    Failed,
    /// An allocation was refused.
    Memory,
}

impl fmt::Display for SinkFault {
    fn fmt<W: fmt::Write>(&self, f: &mut fmt::Formatter<W>) -> fmt::Result {
        f.write_str(match self {
            SinkFault::Failed => "a write failed",
            SinkFault::Memory => "out of memory",
        })
    }
}

impl Error for SinkFault {}

impl From<AllocError> for SinkFault {
    ghost from_gives = { λ _ fault. fault ≡ sink_faults.Memory };

    fn from(_error: AllocError) -> Self {
        SinkFault::Memory
    }
}
