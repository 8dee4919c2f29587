use crate::{ReplicaId, Tick};

/// A version of a change unit: the replica that made it, and the tick of that replica's clock.
#[derive(Clone, Copy, Debug, PartialEq, Eq)]
pub struct Version {
    pub replica: ReplicaId,
    pub tick: Tick,
}
