ghost use Rattle.std.specs.Prelude.{◌≡◌};

use sfx_ids::Memory;
use std::alloc::{AllocError, AllocFailed};
use thiserror::Error;

/// Why a session gave no report. The first three are looked for in this order before anything changes.
#[derive(Clone, Copy, Debug, PartialEq, Eq, Error)]
pub enum SessionFault {
    /// Source and destination have one id.
    #[error("source and destination are one replica")]
    SameReplica,
    /// The source knows a version of the destination, or has forgotten a deletion, at the tick `tick`, while
    /// the destination's clock stands at `clock` and has not come so far: as where the destination was
    /// restored from an old copy.
    #[error("the source knows tick {tick} of the destination, whose clock stands at {clock}")]
    Ahead { tick: u64, clock: u64 },
    /// The source has forgotten deletions that the destination does not know, and recovery is not built.
    #[error("recovery is not built")]
    NotBuilt,
    /// The provider of the source failed.
    #[error("the storage of the source failed")]
    Source,
    /// The provider of the destination failed.
    #[error("the storage of the destination failed")]
    Destination,
    /// An allocation was refused.
    #[error("out of memory")]
    Memory,
}

impl From<AllocError> for SessionFault {
    ghost use Rattle.sfx_session.specs.declared.session_fault.SessionFault.{SessionFault};

    ghost from_gives = { λ _ fault. fault ≡ SessionFault.Memory };

    fn from(_error: AllocError) -> Self {
        SessionFault::Memory
    }
}

impl<T: Drop> From<AllocFailed<T>> for SessionFault {
    ghost use Rattle.sfx_session.specs.declared.session_fault.SessionFault.{SessionFault};

    ghost from_gives = { λ _ fault. fault ≡ SessionFault.Memory };

    fn from(_failed: AllocFailed<T>) -> Self {
        SessionFault::Memory
    }
}

impl From<Memory> for SessionFault {
    ghost use Rattle.sfx_session.specs.declared.session_fault.SessionFault.{SessionFault};

    ghost from_gives = { λ _ fault. fault ≡ SessionFault.Memory };

    fn from(_error: Memory) -> Self {
        SessionFault::Memory
    }
}
