ghost use Rattle.std.specs.Prelude.{◌≡◌};

use std::alloc::AllocError;
use std::error::Error;
use std::fmt;

/// Why bytes were not read as a name.
#[derive(Clone, Copy, Debug, PartialEq, Eq)]
pub enum NameFault {
    /// They are no name: the least index at which something is wrong.
    BadName(usize),
    /// They are a name, but an allocation was refused.
    Memory,
}

impl fmt::Display for NameFault {
    fn fmt<W: fmt::Write>(&self, f: &mut fmt::Formatter<W>) -> fmt::Result {
        match self {
            NameFault::BadName(at) => write!(f, "no name has these bytes, from byte {at} on"),
            NameFault::Memory => f.write_str("out of memory"),
        }
    }
}

impl Error for NameFault {}

impl From<AllocError> for NameFault {
    ghost use Rattle.sfx_item.specs.declared.name_fault.NameFault.{NameFault};

    ghost from_gives = { λ _ fault. fault ≡ NameFault.Memory };

    fn from(_error: AllocError) -> Self {
        NameFault::Memory
    }
}
