//! Knowledge of small items on literals.

use crate::fixtures::{A, B, item, raised, unit, version};
use sfx_ids::{Cut, ReplicaId, Version};
use sfx_knowledge::{Forgotten, Knowledge, Skips, UnitRow};
use sfx_segments::Segments;
use std::alloc::Global;
use std::process::Abort;

/// These ticks at every place and unit.
fn everywhere<const U: usize>(
    rt: &impl Abort,
    alloc: Global,
    ticks: &[(u128, u64)],
) -> Segments<UnitRow<U>> {
    let row = UnitRow::new(alloc, raised(rt, alloc, ticks));
    Segments::new(alloc, row).expect(rt, "memory")
}

/// `a=2 b=1`, but `a=1 b=1` in these units.
fn lacking_row<const U: usize>(rt: &impl Abort, alloc: Global, units: &[usize]) -> UnitRow<U> {
    let mut row = UnitRow::new(alloc, raised(rt, alloc, &[(A, 2), (B, 1)]));
    let less = raised(rt, alloc, &[(A, 1), (B, 1)]);
    for number in units {
        row.put(unit(rt, *number), &less).expect(rt, "memory");
    }
    drop(less);
    row
}

/// `a=2 b=1` everywhere, but `a=1 b=1` at the first item in these units.
fn lacking<const U: usize>(rt: &impl Abort, alloc: Global, units: &[usize]) -> Knowledge<U> {
    let mut segments = everywhere(rt, alloc, &[(A, 2), (B, 1)]);
    let row = lacking_row(rt, alloc, units);
    let (lo, hi) = (Cut::At(item(rt, 1)), Cut::After(item(rt, 1)));
    segments.set_range(&lo, &hi, &row).expect(rt, "memory");
    drop(row);
    Knowledge::from_segments(segments)
}

/// The ticks of `a` and `b` that are known of the unit of the item with this tick.
fn ticks<const U: usize>(
    rt: &impl Abort,
    k: &Knowledge<U>,
    tick: u64,
    number: usize,
) -> (u64, u64) {
    let vector = k.at(&item(rt, tick), unit(rt, number));
    (
        vector.get(&ReplicaId::new(A)),
        vector.get(&ReplicaId::new(B)),
    )
}

/// How knowledge is within other knowledge that was joined of it and a second.
type Parts = (bool, bool, bool, bool, usize);

/// Whether both contains the left and the right, whether the left contains the right, and that the left;
/// and how many segments both has.
fn parts<const U: usize>(left: &Knowledge<U>, right: &Knowledge<U>, both: &Knowledge<U>) -> Parts {
    (
        both.contains_all(left),
        both.contains_all(right),
        left.contains_all(right),
        right.contains_all(left),
        both.segments().len(),
    )
}

/// Joins `a=2` with `a=2 b=1` that lacks a tick in these units of an item. Together they know all that either
/// knows, the same everywhere; the left does not know what the right knows, and that lacks a tick of the left's
/// in these units.
fn join<const U: usize>(rt: &impl Abort, alloc: Global, units: &[usize]) {
    let left = Knowledge::from_segments(everywhere::<U>(rt, alloc, &[(A, 2)]));
    let right = lacking::<U>(rt, alloc, units);
    let both = left.union(alloc, &right).expect(rt, "memory");
    let wanted = (true, true, false, units.is_empty(), 1);
    assert!(rt; parts(&left, &right, &both) == wanted, "{units:?}");
    drop(both);
    drop(right);
    drop(left);
}

#[test]
fn joins(rt: HostRuntime) {
    join::<1>(&rt, rt.alloc(), &[]);
    join::<2>(&rt, rt.alloc(), &[1]);
    join::<2>(&rt, rt.alloc(), &[0]);
    join::<4>(&rt, rt.alloc(), &[1]);
    join::<4>(&rt, rt.alloc(), &[0, 3]);
    join::<8>(&rt, rt.alloc(), &[1]);
    join::<8>(&rt, rt.alloc(), &[2, 5, 7]);
}

/// The first unit whose ticks at the first item are not those of knowledge that lacks one in these units,
/// or that has ticks at the second item.
fn wrong_unit<const U: usize>(
    rt: &impl Abort,
    range: &Knowledge<U>,
    units: &[usize],
) -> Option<usize> {
    for number in 0..U {
        let tick = if units.contains(&number) { 1 } else { 2 };
        let is_there = ticks(rt, range, 1, number) == (tick, 1);
        if !is_there || ticks(rt, range, 2, number) != (0, 0) {
            return Some(number);
        }
    }
    None
}

/// Cuts knowledge that lacks a tick in these units of the first item down to that item.
fn project<const U: usize>(rt: &impl Abort, alloc: Global, units: &[usize]) {
    let known = lacking::<U>(rt, alloc, units);
    let (lo, hi) = (Cut::At(item(rt, 1)), Cut::After(item(rt, 1)));
    let range = known.project_range(alloc, &lo, &hi).expect(rt, "memory");
    drop(known);
    let is_so = range.segments().len() == 3 && wrong_unit(rt, &range, units).is_none();
    assert!(rt; is_so, "{units:?}");
    drop(range);
}

#[test]
fn projects(rt: HostRuntime) {
    project::<1>(&rt, rt.alloc(), &[]);
    project::<2>(&rt, rt.alloc(), &[1]);
    project::<2>(&rt, rt.alloc(), &[0]);
    project::<4>(&rt, rt.alloc(), &[0, 3]);
    project::<8>(&rt, rt.alloc(), &[2, 5, 7]);
}

/// Unit 0 of the first item and unit 1 of the second, in a copy.
fn skips(rt: &impl Abort, alloc: Global) -> Skips<2> {
    let mut skips = Skips::new(alloc);
    for &(tick, number) in &[(2, 1), (1, 0), (2, 1)] {
        let added = skips.add(&item(rt, tick), unit(rt, number));
        added.expect(rt, "memory");
    }
    let copy = skips.copy(alloc).expect(rt, "a copy");
    drop(skips);
    copy
}

#[test]
fn lists_skips(rt: HostRuntime) {
    let skips = skips(&rt, rt.alloc());
    let (first, second) = (item(&rt, 1), item(&rt, 2));
    let has_both = skips.has(&first, unit(&rt, 0)) && skips.has(&second, unit(&rt, 1));
    let has_more = skips.has(&first, unit(&rt, 1));
    drop(skips);
    assert!(rt; has_both && !has_more);
}

/// The ticks that are known of both units of the first item, then of the second.
type Ticks = [(u64, u64); 4];

fn all_ticks(rt: &impl Abort, k: &Knowledge<2>) -> Ticks {
    [
        ticks(rt, k, 1, 0),
        ticks(rt, k, 1, 1),
        ticks(rt, k, 2, 0),
        ticks(rt, k, 2, 1),
    ]
}

/// What is known that is learned from this knowledge of the items from the first on, but for the skips.
fn ticks_from_first(
    rt: &impl Abort,
    alloc: Global,
    from: &Knowledge<2>,
    skips: &Skips<2>,
) -> Ticks {
    let none = Knowledge::none(alloc).expect(rt, "memory");
    let learned = none.learn(alloc, from, &Cut::At(item(rt, 1)), &Cut::End, skips);
    drop(none);
    let learned = learned.expect(rt, "memory");
    let told = all_ticks(rt, &learned);
    drop(learned);
    told
}

/// How many segments there are once the second item is learned, what is known then, and whether `a=2` of its
/// first unit and `a=1` of its second are contained.
type Second = (usize, Ticks, bool, bool);

fn facts_of_second(rt: &impl Abort, learned: &Knowledge<2>) -> Second {
    let id = item(rt, 2);
    (
        learned.segments().len(),
        all_ticks(rt, learned),
        learned.contains(&id, unit(rt, 0), &version(rt, A, 2)),
        learned.contains(&id, unit(rt, 1), &version(rt, A, 1)),
    )
}

/// What is learned from this knowledge of the second item, but for the skips.
fn ticks_of_second(
    rt: &impl Abort,
    alloc: Global,
    from: &Knowledge<2>,
    skips: &Skips<2>,
) -> Second {
    let none = Knowledge::none(alloc).expect(rt, "memory");
    let learned = none.learn_item(alloc, from, &item(rt, 2), skips);
    drop(none);
    let learned = learned.expect(rt, "memory");
    let told = facts_of_second(rt, &learned);
    drop(learned);
    told
}

#[test]
fn learns_a_range_and_an_item(rt: HostRuntime) {
    let alloc = rt.alloc();
    let from = lacking::<2>(&rt, alloc, &[1]);
    let skips = skips(&rt, alloc);
    let range = [(0, 0), (1, 1), (2, 1), (0, 0)];
    assert!(rt; ticks_from_first(&rt, alloc, &from, &skips) == range);
    let second = (3, [(0, 0), (0, 0), (2, 1), (0, 0)], true, false);
    assert!(rt; ticks_of_second(&rt, alloc, &from, &skips) == second);
    drop(skips);
    drop(from);
}

/// The own tick 7 of `a` is laid over all.
#[test]
fn lays_the_own_tick_over_all(rt: HostRuntime) {
    let known = lacking::<4>(&rt, rt.alloc(), &[1, 2]);
    let a = ReplicaId::new(A);
    let own = known.with_own(rt.alloc(), &a, 7).expect(&rt, "memory");
    let most = (known.most(&a), own.most(&a));
    let is_same = own.same(&known);
    drop(known);
    let count = own.segments().len();
    drop(own);
    assert!(rt; (most, count, is_same) == ((2, 7), 1, false));
}

/// The greatest ticks of `a` and `b`, and whether the clock 0 of `a` and a copy leave all as it is.
fn bare_facts(rt: &impl Abort, alloc: Global, bare: &Knowledge<4>) -> (u64, u64, bool, bool) {
    let (a, b) = (ReplicaId::new(A), ReplicaId::new(B));
    let with_none = bare.with_own(alloc, &a, 0).expect(rt, "memory");
    let is_kept = bare.same(&with_none);
    drop(with_none);
    let copy = bare.copy(alloc).expect(rt, "a copy");
    let is_copied = bare.same(&copy);
    drop(copy);
    (bare.most(&a), bare.most(&b), is_kept, is_copied)
}

#[test]
fn takes_the_own_tick_away(rt: HostRuntime) {
    let known = lacking::<4>(&rt, rt.alloc(), &[1, 2]);
    let bare = known.without_own(rt.alloc(), &ReplicaId::new(A));
    drop(known);
    let bare = bare.expect(&rt, "memory");
    let is_so = bare_facts(&rt, rt.alloc(), &bare) == (0, 1, true, true);
    drop(bare);
    assert!(rt; is_so);
}

/// Forgotten deletions: this version.
fn forgotten(rt: &impl Abort, alloc: Global, version: &Version) -> Forgotten {
    let mut forgotten = Forgotten::none(alloc);
    forgotten.forget(version).expect(rt, "memory");
    forgotten
}

/// Whether nothing forgotten is within the knowledge.
fn none_within(alloc: Global, known: &Knowledge<2>) -> bool {
    let none = Forgotten::none(alloc);
    let is_within = none.within(known);
    drop(none);
    is_within
}

/// Whether `a=2`, forgotten, is within the knowledge, and within that of its first and its second item.
fn some_within(rt: &impl Abort, alloc: Global, known: &Knowledge<2>) -> (bool, bool, bool) {
    let some = forgotten(rt, alloc, &version(rt, A, 2));
    let told = (
        some.within(known),
        some.within_item(known, &item(rt, 1)),
        some.within_item(known, &item(rt, 2)),
    );
    drop(some);
    told
}

#[test]
fn forgets_deletions(rt: HostRuntime) {
    let known = lacking::<2>(&rt, rt.alloc(), &[1]);
    assert!(rt; none_within(rt.alloc(), &known));
    assert!(rt; some_within(&rt, rt.alloc(), &known) == (false, false, true));
    drop(known);
}

/// A copy of the deletions `b=1`, once `a=2` is forgotten too, has ticks of two replicas.
#[test]
fn joins_forgotten_deletions(rt: HostRuntime) {
    let mut other = forgotten(&rt, rt.alloc(), &version(&rt, B, 1));
    let one = forgotten(&rt, rt.alloc(), &version(&rt, A, 2));
    other.join(&one).expect(&rt, "memory");
    drop(one);
    let copy = other.copy(rt.alloc()).expect(&rt, "a copy");
    drop(other);
    let len = copy.vector().len();
    drop(copy);
    assert!(rt; len == 2);
}
