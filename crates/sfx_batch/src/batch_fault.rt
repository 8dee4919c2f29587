ghost use Rattle.std.specs.Prelude.{◌≡◌};

use sfx_ids::Memory;
use std::alloc::{AllocError, AllocFailed};
use thiserror::Error;

/// Why a batch was not made.
#[derive(Clone, Copy, Debug, PartialEq, Eq, Error)]
pub enum BatchFault {
    /// The provider of the source failed.
    #[error("the storage of the source failed")]
    Provider,
    /// An allocation was refused.
    #[error("out of memory")]
    Memory,
}

impl From<AllocError> for BatchFault {
    ghost use Rattle.sfx_batch.specs.declared.batch_fault.BatchFault.{BatchFault};

    ghost from_gives = { λ _ fault. fault ≡ BatchFault.Memory };

    fn from(_error: AllocError) -> Self {
        BatchFault::Memory
    }
}

impl<T: Drop> From<AllocFailed<T>> for BatchFault {
    ghost use Rattle.sfx_batch.specs.declared.batch_fault.BatchFault.{BatchFault};

    ghost from_gives = { λ _ fault. fault ≡ BatchFault.Memory };

    fn from(_failed: AllocFailed<T>) -> Self {
        BatchFault::Memory
    }
}

impl From<Memory> for BatchFault {
    ghost use Rattle.sfx_batch.specs.declared.batch_fault.BatchFault.{BatchFault};

    ghost from_gives = { λ _ fault. fault ≡ BatchFault.Memory };

    fn from(_error: Memory) -> Self {
        BatchFault::Memory
    }
}
