ghost use Rattle.std.specs.Prelude.{◌≡◌};
ghost use Rattle.sfx_outside.specs.declared.read_fault.ReadFault.TheVariants as read_faults;

use crate::Failed;
use std::alloc::AllocError;
use std::error::Error;
use std::fmt;

/// Why a source was not read to its end.
#[derive(Clone, Copy, Debug, PartialEq, Eq)]
pub enum ReadFault {
    /// A read failed.
    Failed,
    /// The source had more bytes than were asked for at most.
    TooLong,
    /// An allocation was refused.
    Memory,
}

impl fmt::Display for ReadFault {
    fn fmt<W: fmt::Write>(&self, f: &mut fmt::Formatter<W>) -> fmt::Result {
        f.write_str(match self {
            ReadFault::Failed => "a read failed",
            ReadFault::TooLong => "too many bytes",
            ReadFault::Memory => "out of memory",
        })
    }
}

impl Error for ReadFault {}

impl From<Failed> for ReadFault {
    ghost from_gives = { λ _ fault. fault ≡ read_faults.Failed };

    fn from(_failed: Failed) -> Self {
        ReadFault::Failed
    }
}

impl From<AllocError> for ReadFault {
    ghost from_gives = { λ _ fault. fault ≡ read_faults.Memory };

    fn from(_error: AllocError) -> Self {
        ReadFault::Memory
    }
}
