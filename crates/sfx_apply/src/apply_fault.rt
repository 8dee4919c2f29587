ghost use Rattle.std.specs.Prelude.{◌≡◌};

use thiserror::Error;

/// Why a batch was not applied.
#[derive(Clone, Copy, Debug, PartialEq, Eq, Error)]
pub enum ApplyFault {
    /// The source knows of versions of the destination's replica, or forgot such, that this did not make: up
    /// to this tick, while its clock stands lower: as where the destination was restored from an old copy.
    #[error("the source knows the tick {tick} of the destination, whose clock is {clock}")]
    Ahead { tick: u64, clock: u64 },
    /// The provider of the destination failed.
    #[error("the storage of the destination failed")]
    Provider,
    /// An allocation was refused.
    #[error("out of memory")]
    Memory,
}
