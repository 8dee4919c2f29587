ghost use Rattle.std.specs.Prelude.{◌≡◌, ℕ, ◌<◌, ◌≤◌, ◌^◌, ◌↔◌, [], length, slice_get, max, Some, IsTrue, IfOk, OnOk, OnErr};
ghost use Rattle.sfx_vector.specs.Clocks.{AreClocks, ChangesOnly, tick_of};
ghost use Rattle.sfx_vector.specs.Places.{entry_place};

use sfx_ids::{Memory, Part, ReplicaId, Tick, Version};
use std::alloc::Global;
use std::marker::Model;

/// A clock vector: a tick for each of some replicas, and 0 for every other.
#[derive(Drop)]
pub struct ClockVector {
    entries: Vec<(ReplicaId, Tick)>,
}

impl Model for ClockVector {
    ghost use Rattle.std.specs.Prelude.{List, ℕ};
    ghost use Rattle.sfx_vector.specs.Clocks.{AreClocks};

    ghost Value = { List (ℕ × ℕ) };

    ghost view = { λ c. c.entries.items };

    ghost invariant = { λ c. AreClocks c.entries.items };
}

impl ClockVector {
    /// The vector that has the tick 0 for every replica.
    pub fn new(alloc: Global) -> ClockVector
        ensures { result ≡ [] }
    {
        ClockVector {
            entries: Vec::new(alloc),
        }
    }

    /// The replica's tick, or 0 where the vector has none.
    pub fn get(&self, r: &ReplicaId) -> u64
        ensures { result ≡ tick_of self.now r.now }
    {
        for entry in &self.entries {
            if entry.0 == *r {
                return entry.1.get();
            }
        }
        0
    }

    /// Whether the version's tick is at most its replica's.
    pub fn contains(&self, v: &Version) -> bool
        ensures { IsTrue result ↔ (v.now.tick ≤ tick_of self.now v.now.replica) }
    {
        v.tick.get() <= self.get(&v.replica)
    }

    /// Raises the tick of the version's replica to the version's, where that is greater. The one error
    /// is running out of memory.
    pub fn raise(&mut self, v: &Version) -> Result<(), Memory>
        ensures ok { OnOk result (ChangesOnly self.old self.new v.now.replica
            (max (tick_of self.old v.now.replica) v.now.tick)) }
        ensures err { OnErr result (self.new ≡ self.old) }
    {
        let tick = self.get(&v.replica);
        if v.tick.get() <= tick {
            return Ok(());
        }
        let place = place_of(self.entries.as_slice(), &v.replica);
        if tick > 0 {
            self.entries[place] = (v.replica, v.tick);
        } else {
            self.entries.insert(place, (v.replica, v.tick))?;
        }
        Ok(())
    }

    /// Takes the replica's tick away.
    pub fn without(&mut self, r: &ReplicaId)
        ensures { ChangesOnly self.old self.new r.now 0 }
    {
        if self.get(r) > 0 {
            let place = place_of(self.entries.as_slice(), r);
            self.entries.remove(place);
        }
    }

    /// Raises each replica's tick to the other vector's, where that is greater. The one error is want
    /// of memory.
    pub fn join(&mut self, other: &ClockVector) -> Result<(), Memory>
        ensures ok { OnOk result ((r : ℕ) → tick_of self.new r ≡ max (tick_of self.old r) (tick_of other.now r)) }
        ensures err { OnErr result (self.new ≡ self.old) }
    {
        let mut joined = self.copy(*self.entries.allocator())?;
        for entry in &other.entries {
            let version = Version {
                replica: entry.0,
                tick: entry.1,
            };
            joined.raise(&version)?;
        }
        *self = joined;
        Ok(())
    }

    /// Whether no replica's tick is greater than the other vector's.
    pub fn within(&self, other: &ClockVector) -> bool
        ensures { IsTrue result ↔ ((r : ℕ) → tick_of self.now r ≤ tick_of other.now r) }
    {
        for entry in &self.entries {
            if entry.1.get() > other.get(&entry.0) {
                return false;
            }
        }
        true
    }

    /// Whether both have the same tick for every replica.
    pub fn same(&self, other: &ClockVector) -> bool
        ensures { IsTrue result ↔ (self.now ≡ other.now) }
    {
        self.entries == other.entries
    }

    /// How many replicas have a tick.
    pub fn len(&self) -> usize
        ensures value { result ≡ length self.now }
        ensures valid { AreClocks self.now }
    {
        self.entries.len()
    }

    /// The replica at this index among those with a tick, ascending, and its tick.
    pub fn entry(&self, i: usize) -> (ReplicaId, Tick)
        requires { i < length self.now }
        ensures { slice_get self.now i ≡ Some result }
    {
        self.entries[i]
    }

    /// An equal vector. The one error is running out of memory.
    pub fn copy(&self, alloc: Global) -> Result<Self, Memory>
        ensures { IfOk result (λ copy. copy ≡ self.now) }
    {
        Ok(ClockVector {
            entries: Vec::from_slice(alloc, self.entries.as_slice())?,
        })
    }
}

impl Part for ClockVector {
    fn same(&self, other: &Self) -> bool {
        ClockVector::same(self, other)
    }

    fn copy(&self, alloc: Global) -> Result<Self, Memory> {
        ClockVector::copy(self, alloc)
    }
}

/// How many of the entries stand before the place of the replica.
fn place_of(entries: &[(ReplicaId, Tick)], replica: &ReplicaId) -> usize
    ensures place { result ≡ entry_place entries.now replica.now }
    ensures fits { replica.now < 2 ^ 128 }
{
    let number = replica.number();
    for (place, entry) in entries.iter().enumerate() {
        if entry.0.number() >= number {
            return place;
        }
    }
    entries.len()
}
