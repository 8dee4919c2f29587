ghost use Rattle.std.specs.Prelude.{◌≡◌};

use crate::{ReplicaId, Tick, Version};

/// The id of an item: the tick and the replica of its creation. Ids are ordered by tick, then by
/// replica.
#[derive(Clone, Copy, Debug, PartialEq, Eq, PartialOrd, Ord)]
pub struct ItemId {
    pub tick: Tick,
    pub replica: ReplicaId,
}

impl ItemId {
    ghost use Rattle.sfx_ids.specs.ItemId.{creation_of};

    /// The version at which the item was created.
    pub fn creation(&self) -> Version
        ensures { result ≡ creation_of self.now }
    {
        Version {
            replica: self.replica,
            tick: self.tick,
        }
    }
}
