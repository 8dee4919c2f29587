ghost use Rattle.std.specs.Prelude.{◌≡◌};

use sfx_ids::{ItemId, Memory};
use std::alloc::AllocError;
use thiserror::Error;

/// Why an edit of a replica was refused. Nothing has changed then. The causes are looked for in this
/// order, and the first that there is is answered.
#[derive(Clone, Copy, Debug, PartialEq, Eq, Error)]
pub enum EditFault {
    /// The replica holds no item with this id.
    #[error("no such item")]
    NoItem,
    /// The item is a tombstone.
    #[error("the item is deleted")]
    Deleted,
    /// The unit `k` is none of the item's `u` units.
    #[error("no unit {k} of {u}")]
    BadUnit { k: usize, u: usize },
    /// The value for unit 0 is no name: the least index at which something is wrong.
    #[error("no name has these bytes, from byte {0} on")]
    BadName(usize),
    /// The name clashes with that of another live item, of which this one has the least id.
    #[error("the name clashes with that of another item")]
    Clash(ItemId),
    /// The clock stands at its greatest tick, so that no version can be made.
    #[error("the clock is full at {0}")]
    ClockFull(u64),
    /// The item is live.
    #[error("the item is not deleted")]
    NotDeleted,
    /// An allocation was refused.
    #[error("out of memory")]
    Memory,
}

impl From<AllocError> for EditFault {
    ghost use Rattle.sfx_replica.specs.declared.edit_fault.EditFault.{EditFault};

    ghost from_gives = { λ _ fault. fault ≡ EditFault.Memory };

    fn from(_error: AllocError) -> Self {
        EditFault::Memory
    }
}

impl From<Memory> for EditFault {
    ghost use Rattle.sfx_replica.specs.declared.edit_fault.EditFault.{EditFault};

    ghost from_gives = { λ _ fault. fault ≡ EditFault.Memory };

    fn from(_error: Memory) -> Self {
        EditFault::Memory
    }
}
