//! What holds of each value by its type, for the proofs of those who hold one: each function here does
//! nothing but say so.

ghost use Rattle.std.specs.Prelude.{◌<◌, ◌≤◌, ◌^◌};
ghost use Rattle.sfx_ids.specs.Tick.{IsTick, max_tick};
ghost use Rattle.sfx_knowledge.specs.Vectors.{clock_of};
ghost use Rattle.sfx_vector.specs.Clocks.{AreClocks};

use sfx_ids::{ReplicaId, Tick, UnitId};
use sfx_vector::ClockVector;

/// A clock vector is in its one form.
pub(crate) fn vector_in_form(vector: &ClockVector)
    ensures { AreClocks vector.now }
{
    let _len = vector.len();
}

/// A replica is a number of 128 bits.
pub(crate) fn replica_in_range(id: &ReplicaId)
    ensures { id.now < 2 ^ 128 }
{
    let _number = id.number();
}

/// A unit is below the unit count.
pub(crate) fn unit_in_range<const U: usize>(unit: &UnitId<U>)
    ensures { unit.now < U }
{
    let _index = unit.get();
}

/// A tick is one that a clock can have.
pub(crate) fn tick_in_range(tick: &Tick)
    ensures { IsTick tick.now }
{
    let _count = tick.get();
}

/// A clock, with a tick or without one, is at most the greatest tick.
pub(crate) fn clock_in_range(tick: &Option<Tick>)
    ensures { clock_of tick.now ≤ max_tick }
{
    if let Some(tick) = tick {
        tick_in_range(tick);
    }
}
