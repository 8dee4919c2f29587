//! Batches that are applied to small replicas.
ghost use Rattle.std.specs.Prelude.{◌≡◌, ◌≤◌};
ghost use Rattle.sfx_model.specs.declared.mode.Mode.TheVariants.{Normal};

use crate::fixtures::{
    SKIP, THREE, count_of, due, due_to_new, first_batch, item_of, known, learner, left, provider,
    second_hand,
};
use sfx_apply::{ApplyFault, apply_batch};
use sfx_batch::Batch;
use sfx_ids::{Cut, ItemId, UnitId, Version};
use sfx_item::Value;
use sfx_model::{ApplyEnd, EntryKind, Mode};
use sfx_replica::{MemoryProvider, Replica};
use std::alloc::Global;
use std::process::Abort;

/// Applies the batch, and tells how many entries it made, how many of them skipped, and how it ended.
fn apply(
    alloc: Global,
    batch: &Batch<2>,
    destination: &mut MemoryProvider<2>,
    group: u64,
    budget: Option<u64>,
) -> Result<(usize, usize, ApplyEnd), ApplyFault>
    requires normal { batch.now.mode ≡ Normal }
    requires group { 1 ≤ group }
{
    let applied = apply_batch(alloc, destination, batch, &SKIP, group, budget)?;
    let skipped = count_of(&applied, EntryKind::Skipped);
    let told = (applied.entries.len(), skipped, applied.end);
    drop(applied);
    Ok(told)
}

/// What is told of a batch that was applied, and how many items its destination has then.
type Told = (Result<(usize, usize, ApplyEnd), ApplyFault>, usize);

/// What is told of the batch where it is applied to a new replica with the id 11, whose listed calls fail.
fn bring(
    rt: &impl Abort,
    alloc: Global,
    batch: &Batch<2>,
    fails: &[u64],
    group: u64,
    budget: Option<u64>,
) -> Told
    requires normal { batch.now.mode ≡ Normal }
    requires group { 1 ≤ group }
{
    let mut to = provider(rt, alloc, 11, &[], fails);
    let told = apply(alloc, batch, &mut to, group, budget);
    (told, left(to))
}

/// The same of a batch of three items.
fn to_new(rt: &impl Abort, alloc: Global, fails: &[u64], group: u64, budget: Option<u64>) -> Told
    requires { 1 ≤ group }
{
    let batch = first_batch(rt, alloc, &Cut::Start, 10, Mode::Normal);
    let told = bring(rt, alloc, &batch, fails, group, budget);
    drop(batch);
    told
}

/// A budget, how many of three items come within it, each with its entry, and how the batch ends.
const BUDGETS: &[(Option<u64>, usize, ApplyEnd)] = &[
    (None, 3, ApplyEnd::Whole),
    (Some(3), 3, ApplyEnd::Whole),
    (Some(0), 0, ApplyEnd::Cut),
    (Some(1), 1, ApplyEnd::Cut),
    (Some(2), 2, ApplyEnd::Cut),
];

#[test]
fn ends_at_the_budget(rt: HostRuntime) {
    for &(budget, items, end) in BUDGETS {
        let told = to_new(&rt, rt.alloc(), &[], 2, budget);
        assert!(rt; told == (Ok((items, 0, end)), items), "{budget:?}");
    }
}

/// Where each of these calls fails, so many items as its row says are to be left.
fn expect_kept(rt: &impl Abort, alloc: Global, group: u64, rows: &[(u64, usize)])
    requires { 1 ≤ group }
{
    for &(call, items) in rows {
        let told = to_new(rt, alloc, &[call], group, None);
        assert!(rt; told == (Err(ApplyFault::Provider), items), "{call}");
    }
}

/// The calls of the destination in groups of one entry, and how many items are there where each fails.
const BY_ONE: &[(u64, usize)] = &[(1, 0), (2, 0), (4, 0), (5, 1), (7, 1), (8, 2), (10, 2)];

/// The same in groups of two entries.
const BY_TWO: &[(u64, usize)] = &[(1, 0), (3, 0), (5, 0), (6, 0), (7, 2), (9, 2)];

#[test]
fn keeps_what_was_committed_before_a_fault(rt: HostRuntime) {
    expect_kept(&rt, rt.alloc(), 1, BY_ONE);
    expect_kept(&rt, rt.alloc(), 2, BY_TWO);
}

/// Whether the batch is applied whole where this call of the destination would fail.
fn is_whole(rt: &impl Abort, alloc: Global, group: u64, call: u64) -> bool
    requires { 1 ≤ group }
{
    to_new(rt, alloc, &[call], group, None) == (Ok((3, 0, ApplyEnd::Whole)), 3)
}

#[test]
fn makes_no_further_calls(rt: HostRuntime) {
    assert!(rt; is_whole(&rt, rt.alloc(), 1, 11));
    assert!(rt; is_whole(&rt, rt.alloc(), 2, 10));
}

/// Whether the replica knows the version at this unit of the item.
fn knows(replica: &Replica<2>, item: &ItemId, k: usize, version: &Version) -> bool {
    match UnitId::new(k) {
        Some(unit) => replica.knows(item, unit, version),
        None => false,
    }
}

/// How many items the replica has, and at which units of this one it knows the version.
fn seen(replica: &Replica<2>, item: &ItemId, version: &Version) -> (usize, bool, bool) {
    (
        replica.items().len(),
        knows(replica, item, 0, version),
        knows(replica, item, 1, version),
    )
}

/// The batch that the source sends to this destination.
fn batch(
    rt: &impl Abort,
    alloc: Global,
    source: &mut MemoryProvider<2>,
    destination: &mut MemoryProvider<2>,
) -> Batch<2>
    ensures { result.mode ≡ Normal }
{
    let known = known(rt, alloc, destination);
    let batch = due(rt, alloc, source, &known, &Cut::Start, 10, Mode::Normal);
    drop(known);
    batch
}

/// How many entries of that batch are skipped, and what the destination has of the item and its version then.
fn left_alone(
    rt: &impl Abort,
    alloc: Global,
    source: &mut MemoryProvider<2>,
    mut destination: MemoryProvider<2>,
    item: &ItemId,
    version: &Version,
) -> (usize, (usize, bool, bool)) {
    let batch = batch(rt, alloc, source, &mut destination);
    let applied = apply(alloc, &batch, &mut destination, 1, None);
    drop(batch);
    let (_entries, skipped, _end) = applied.expect(rt, "entries");
    let replica = destination.into_replica();
    let seen = seen(&replica, item, version);
    drop(replica);
    (skipped, seen)
}

/// The replica after it wrote to unit 1 of the item.
fn writer(
    rt: &impl Abort,
    alloc: Global,
    provider: MemoryProvider<2>,
    item: &ItemId,
) -> MemoryProvider<2> {
    let mut replica = provider.into_replica();
    let written = replica.set(item, 1, Value::new(Vec::new(alloc)));
    written.expect(rt, "a version");
    MemoryProvider::new(replica, Vec::new(alloc))
}

/// What is left alone where a replica was brought all of the source, and both wrote to unit 1 of its item then.
fn conflict(
    rt: &impl Abort,
    alloc: Global,
    item: &ItemId,
    version: &Version,
) -> (usize, (usize, bool, bool)) {
    let mut source = provider(rt, alloc, 10, &["a"], &[]);
    let destination = learner(rt, alloc, &mut source, 11);
    let destination = writer(rt, alloc, destination, item);
    let mut source = writer(rt, alloc, source, item);
    let told = left_alone(rt, alloc, &mut source, destination, item, version);
    drop(source);
    told
}

#[test]
fn leaves_a_conflict_alone(rt: HostRuntime) {
    let theirs = item_of(&rt, 10, 2).creation();
    let told = conflict(&rt, rt.alloc(), &item_of(&rt, 10, 1), &theirs);
    assert!(rt; told == (1, (1, true, false)));
}

/// What is left alone where both created an item of one name.
fn clash(
    rt: &impl Abort,
    alloc: Global,
    item: &ItemId,
    version: &Version,
) -> (usize, (usize, bool, bool)) {
    let mut source = provider(rt, alloc, 10, &["a"], &[]);
    let destination = provider(rt, alloc, 11, &["a"], &[]);
    let told = left_alone(rt, alloc, &mut source, destination, item, version);
    drop(source);
    told
}

#[test]
fn leaves_a_clash_alone(rt: HostRuntime) {
    let item = item_of(&rt, 10, 1);
    let told = clash(&rt, rt.alloc(), &item, &item.creation());
    assert!(rt; told == (1, (1, false, false)));
}

/// What is told of a batch of a replica that was brought three items of another, where it comes to an old copy
/// of that.
fn to_old_copy(rt: &impl Abort, alloc: Global) -> Told {
    let mut source = second_hand(rt, alloc, 11, THREE);
    let batch = due_to_new(rt, alloc, &mut source, &Cut::Start, 10, Mode::Normal);
    drop(source);
    let told = bring(rt, alloc, &batch, &[], 1, None);
    drop(batch);
    told
}

#[test]
fn refuses_an_old_copy(rt: HostRuntime) {
    let ahead = ApplyFault::Ahead { tick: 3, clock: 0 };
    assert!(rt; to_old_copy(&rt, rt.alloc()) == (Err(ahead), 0));
}
