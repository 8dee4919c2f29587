ghost use Rattle.std.specs.Prelude.{◌≡◌};

use sfx_ids::Memory;
use std::alloc::{AllocError, AllocFailed};
use std::error::Error;
use std::fmt;

/// Why bytes were not read as a line.
#[derive(Clone, Copy, Debug, PartialEq, Eq)]
pub enum LineFault {
    /// They are no line: the least index at which they go wrong.
    Syntax(usize),
    /// An allocation was refused.
    Memory,
}

impl fmt::Display for LineFault {
    fn fmt<W: fmt::Write>(&self, f: &mut fmt::Formatter<W>) -> fmt::Result {
        match self {
            LineFault::Syntax(at) => write!(f, "no line has these bytes, from byte {at} on"),
            LineFault::Memory => f.write_str("out of memory"),
        }
    }
}

impl Error for LineFault {}

impl From<AllocError> for LineFault {
    ghost use Rattle.sfx_script.specs.declared.line_fault.LineFault.TheVariants as line_faults;

    ghost from_gives = { λ _ fault. fault ≡ line_faults.Memory };

    fn from(_error: AllocError) -> Self {
        LineFault::Memory
    }
}

impl From<Memory> for LineFault {
    ghost use Rattle.sfx_script.specs.declared.line_fault.LineFault.TheVariants as line_faults;

    ghost from_gives = { λ _ fault. fault ≡ line_faults.Memory };

    fn from(_error: Memory) -> Self {
        LineFault::Memory
    }
}

impl<T: Drop> From<AllocFailed<T>> for LineFault {
    ghost use Rattle.sfx_script.specs.declared.line_fault.LineFault.TheVariants as line_faults;

    ghost from_gives = { λ _ fault. fault ≡ line_faults.Memory };

    fn from(_failed: AllocFailed<T>) -> Self {
        LineFault::Memory
    }
}
