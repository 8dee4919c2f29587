//! Batches of a replica with three items.
ghost use Rattle.std.specs.Prelude.{◌≤◌};
ghost use Rattle.sfx_segments.specs.Segments.{IsPlace};

use crate::fixtures::{THREE, due, first_batch, item_of, known, provider};
use sfx_batch::{Batch, BatchFault, make_batch};
use sfx_ids::{Cut, ItemId, UnitId, Version};
use sfx_knowledge::Knowledge;
use sfx_model::Mode;
use std::alloc::Global;
use std::process::Abort;

/// Whether the batch has so many changes, lists these ids, and ends there, where none follows at the end alone.
fn is_such(batch: &Batch<2>, changes: usize, here: &[ItemId], to: &Cut) -> bool {
    batch.changes.len() == changes
        && batch.here.as_slice() == here
        && batch.to == *to
        && batch.last() == (*to == Cut::End)
}

/// Whether the first normal batch of this size has so many changes, lists no ids, and ends there.
fn is_normal(rt: &impl Abort, alloc: Global, size: usize, changes: usize, to: &Cut) -> bool
    requires { 1 ≤ size }
{
    let batch = first_batch(rt, alloc, &Cut::Start, size, Mode::Normal);
    let is_such = is_such(&batch, changes, &[], to);
    drop(batch);
    is_such
}

#[test]
fn ends_behind_the_last_change(rt: HostRuntime) {
    for (size, last) in [(1, 1), (2, 2)] {
        let to = Cut::After(item_of(&rt, 10, last));
        assert!(rt; is_normal(&rt, rt.alloc(), size, size, &to), "{size}");
    }
}

#[test]
fn ends_at_the_end_where_none_follows(rt: HostRuntime) {
    for size in [3, usize::MAX] {
        assert!(rt; is_normal(&rt, rt.alloc(), size, 3, &Cut::End), "{size}");
    }
}

/// Whether the batch in recovery of one change from this place is such a one.
fn is_recovering(
    rt: &impl Abort,
    alloc: Global,
    from: &Cut,
    changes: usize,
    here: &[ItemId],
    to: &Cut,
) -> bool
    requires { IsPlace from.now }
{
    let batch = first_batch(rt, alloc, from, 1, Mode::Recover);
    let is_such = is_such(&batch, changes, here, to);
    drop(batch);
    is_such
}

/// Whether the batch in recovery to a destination that knows all that the source does has no changes, lists
/// these ids, and is the last.
fn is_known(rt: &impl Abort, alloc: Global, here: &[ItemId]) -> bool {
    let mut source = provider(rt, alloc, 10, THREE, &[]);
    let known = known(rt, alloc, &mut source);
    let batch = due(
        rt,
        alloc,
        &mut source,
        &known,
        &Cut::Start,
        1,
        Mode::Recover,
    );
    drop(known);
    drop(source);
    let is_such = is_such(&batch, 0, here, &Cut::End);
    drop(batch);
    is_such
}

#[test]
fn lists_the_range_in_recovery(rt: HostRuntime) {
    let alloc = rt.alloc();
    let ids = [
        item_of(&rt, 10, 1),
        item_of(&rt, 10, 2),
        item_of(&rt, 10, 3),
    ];
    assert!(rt; is_recovering(&rt, alloc, &Cut::Start, 1, &ids[..1], &Cut::After(ids[0])));
    assert!(rt; is_recovering(&rt, alloc, &Cut::After(ids[2]), 0, &[], &Cut::End));
    assert!(rt; is_known(&rt, alloc, &ids));
}

/// Whether the knowledge has the version at unit 1 of the item.
fn knows(known: &Knowledge<2>, item: &ItemId, version: &Version) -> bool {
    match UnitId::new(1) {
        Some(unit) => known.contains(item, unit, version),
        None => false,
    }
}

/// Whether a destination learns of a copy of the first batch of two changes the version at unit 1 of the item,
/// and whether the batch was made with it.
fn learned(rt: &impl Abort, alloc: Global, item: &ItemId, version: &Version) -> (bool, bool) {
    let first = first_batch(rt, alloc, &Cut::Start, 2, Mode::Normal);
    let batch = first.copy(alloc).expect(rt, "a copy");
    drop(first);
    let is_made_with = knows(&batch.made_with, item, version);
    let learned = batch.learned(alloc).expect(rt, "memory");
    drop(batch);
    let is_learned = knows(&learned, item, version);
    drop(learned);
    (is_learned, is_made_with)
}

#[test]
fn learns_the_range(rt: HostRuntime) {
    let last = item_of(&rt, 10, 3).creation();
    for (count, is_learned) in [(1, true), (2, true), (3, false), (4, false)] {
        let told = learned(&rt, rt.alloc(), &item_of(&rt, 10, count), &last);
        assert!(rt; told == (is_learned, true), "{count}");
    }
}

/// Why no batch is made of a replica with three items, where the call with this number fails, for a
/// destination that knows nothing.
fn fault(rt: &impl Abort, alloc: Global, call: u64) -> Option<BatchFault> {
    let mut source = provider(rt, alloc, 10, THREE, &[call]);
    let nothing = Knowledge::none(alloc).expect(rt, "knowledge");
    let made = make_batch(alloc, &mut source, &nothing, &Cut::Start, 1, Mode::Recover);
    drop(nothing);
    drop(source);
    made.err()
}

#[test]
fn fails_with_its_source(rt: HostRuntime) {
    for call in [1, 2, 3, 4] {
        let is_so = fault(&rt, rt.alloc(), call) == Some(BatchFault::Provider);
        assert!(rt; is_so, "{call}");
    }
    assert!(rt; fault(&rt, rt.alloc(), 5) == None);
}
