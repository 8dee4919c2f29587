ghost use Rattle.std.specs.Prelude.{◌≡◌};

use sfx_ids::Memory;
use std::alloc::{AllocError, AllocFailed};
use thiserror::Error;

/// Why a provider did not answer.
#[derive(Clone, Copy, Debug, PartialEq, Eq, Error)]
pub enum ProviderFault {
    /// The storage of the provider failed.
    #[error("the storage failed")]
    Failed,
    /// An allocation was refused.
    #[error("out of memory")]
    Memory,
}

impl From<AllocError> for ProviderFault {
    ghost use Rattle.sfx_provider.specs.declared.provider_fault.ProviderFault.{ProviderFault};

    ghost from_gives = { λ _ fault. fault ≡ ProviderFault.Memory };

    fn from(_error: AllocError) -> Self {
        ProviderFault::Memory
    }
}

impl<T: Drop> From<AllocFailed<T>> for ProviderFault {
    ghost use Rattle.sfx_provider.specs.declared.provider_fault.ProviderFault.{ProviderFault};

    ghost from_gives = { λ _ fault. fault ≡ ProviderFault.Memory };

    fn from(_failed: AllocFailed<T>) -> Self {
        ProviderFault::Memory
    }
}

impl From<Memory> for ProviderFault {
    ghost use Rattle.sfx_provider.specs.declared.provider_fault.ProviderFault.{ProviderFault};

    ghost from_gives = { λ _ fault. fault ≡ ProviderFault.Memory };

    fn from(_error: Memory) -> Self {
        ProviderFault::Memory
    }
}
