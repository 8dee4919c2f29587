//! Ids, versions and clock vectors, which the tests make.

use sfx_ids::{ItemId, ReplicaId, Tick, UnitId, Version};
use sfx_vector::ClockVector;
use std::alloc::Global;
use std::process::Abort;

/// The replicas `a` and `b`.
pub const A: u128 = 10;

pub const B: u128 = 11;

/// The item that the replica created at this tick.
pub fn item_of(rt: &impl Abort, tick: u64, replica: u128) -> ItemId {
    ItemId {
        tick: Tick::new(tick).expect(rt, "a tick"),
        replica: ReplicaId::new(replica),
    }
}

/// The item that `a` created at this tick.
pub fn item(rt: &impl Abort, tick: u64) -> ItemId {
    item_of(rt, tick, A)
}

pub fn version(rt: &impl Abort, replica: u128, tick: u64) -> Version {
    item_of(rt, tick, replica).creation()
}

pub fn unit<const U: usize>(rt: &impl Abort, number: usize) -> UnitId<U> {
    UnitId::new(number).expect(rt, "a unit")
}

/// The empty vector, raised to these ticks of replicas in turn.
pub fn raised(rt: &impl Abort, alloc: Global, ticks: &[(u128, u64)]) -> ClockVector {
    let mut vector = ClockVector::new(alloc);
    for &(replica, tick) in ticks {
        let version = version(rt, replica, tick);
        vector.raise(&version).expect(rt, "memory");
    }
    vector
}
