//! Clock vectors on literals.

use crate::fixtures::{A, B, raised, version};
use sfx_ids::{Part, ReplicaId};
use sfx_vector::ClockVector;

/// A third replica.
const C: u128 = 12;

/// How many replicas have a tick in the joined vector, and the tick of the second; and whether the part is
/// within the joined vector, and that within the part.
type Joined = (usize, u64, bool, bool);

fn facts(joined: &ClockVector, part: &ClockVector) -> Joined {
    let len = joined.len();
    let second = if len > 1 { joined.entry(1).1.get() } else { 0 };
    (len, second, part.within(joined), joined.within(part))
}

/// Joins `a=4 c=1` with `b=9 a=3`.
#[test]
fn raises_and_joins(rt: HostRuntime) {
    let mut vector = raised(&rt, rt.alloc(), &[(A, 4), (C, 1)]);
    let part = raised(&rt, rt.alloc(), &[(B, 9), (A, 3)]);
    vector.join(&part).expect(&rt, "memory");
    let is_so = facts(&vector, &part) == (3, 9, true, false);
    drop(part);
    drop(vector);
    assert!(rt; is_so);
}

/// Once `a` is taken away it has no tick, and its first version is not contained.
#[test]
fn takes_a_replica_away(rt: HostRuntime) {
    let a = ReplicaId::new(A);
    let mut vector = raised(&rt, rt.alloc(), &[(A, 4), (B, 9), (C, 1)]);
    vector.without(&a);
    let (tick, is_known) = (vector.get(&a), vector.contains(&version(&rt, A, 1)));
    drop(vector);
    assert!(rt; tick == 0 && !is_known);
}

#[test]
fn copies(rt: HostRuntime) {
    let vector = raised(&rt, rt.alloc(), &[(A, 4)]);
    let copy = Part::copy(&vector, rt.alloc()).expect(&rt, "a copy");
    let is_same = Part::same(&vector, &copy);
    drop(copy);
    drop(vector);
    assert!(rt; is_same);
}
