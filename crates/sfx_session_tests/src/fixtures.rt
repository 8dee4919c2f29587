//! Small replicas of items with two units, their providers and their batches.
ghost use Rattle.std.specs.Prelude.{◌≡◌, ◌≤◌, length};
ghost use Rattle.sfx_segments.specs.Segments.{IsPlace};

use crate::session::sync;
use sfx_apply::Applied;
use sfx_batch::{Batch, make_batch};
use sfx_ids::{Cut, ItemId, ReplicaId, Tick};
use sfx_item::Value;
use sfx_knowledge::Knowledge;
use sfx_model::{EntryKind, Mode};
use sfx_provider::Provider;
use sfx_replica::{MemoryProvider, Replica};
use sfx_settle::{ClashRule, Keep, Longer, Rules};
use std::alloc::Global;
use std::process::Abort;

/// The rules that leave each conflict alone.
pub const SKIP: Rules<Longer> = Rules {
    keep: Keep::Skip,
    clash: ClashRule::Skip,
    merger: Longer,
};

/// The item that the replica with this id created as its version with this count.
pub fn item_of(rt: &impl Abort, replica: u128, count: u64) -> ItemId {
    ItemId {
        tick: Tick::new(count).expect(rt, "a tick"),
        replica: ReplicaId::new(replica),
    }
}

fn value(rt: &impl Abort, alloc: Global, text: &str) -> Value {
    Value::new(Vec::from_slice(alloc, text.as_bytes()).expect(rt, "memory"))
}

/// The values of an item with this name and an empty text.
fn named(rt: &impl Abort, alloc: Global, name: &str) -> Vec<Value>
    ensures { length result.items ≡ 2 }
{
    let values = [value(rt, alloc, name), value(rt, alloc, "")];
    Vec::from_array(alloc, values).expect(rt, "memory")
}

/// A provider of a replica with this id that created items with these names, whose listed calls fail.
pub fn provider(
    rt: &impl Abort,
    alloc: Global,
    id: u128,
    names: &[&str],
    fails: &[u64],
) -> MemoryProvider<2> {
    let mut replica = Replica::<2>::new(alloc, ReplicaId::new(id)).expect(rt, "a replica");
    for name in names {
        let created = replica.create(named(rt, alloc, name));
        created.expect(rt, "an item");
    }
    let fails = Vec::from_slice(alloc, fails).expect(rt, "calls");
    MemoryProvider::new(replica, fails)
}

/// How many items the provider has at last.
pub fn left(provider: MemoryProvider<2>) -> usize {
    let replica = provider.into_replica();
    let count = replica.items().len();
    drop(replica);
    count
}

/// A new replica with this id, after a session brought all of the source to it.
pub fn learner(
    rt: &impl Abort,
    alloc: Global,
    source: &mut MemoryProvider<2>,
    id: u128,
) -> MemoryProvider<2> {
    let mut to = provider(rt, alloc, id, &[], &[]);
    sync(alloc, source, &mut to, None).expect(rt, "a session");
    to
}

/// A replica with the id 10 that was brought the items of the replica with this id.
pub fn second_hand(rt: &impl Abort, alloc: Global, id: u128, names: &[&str]) -> MemoryProvider<2> {
    let mut maker = provider(rt, alloc, id, names, &[]);
    let learner = learner(rt, alloc, &mut maker, 10);
    drop(maker);
    learner
}

/// What the replica knows.
pub fn known(rt: &impl Abort, alloc: Global, of: &mut MemoryProvider<2>) -> Knowledge<2> {
    let head = of.head(alloc).expect(rt, "a head");
    let known = head.knowledge.copy(alloc).expect(rt, "a copy");
    drop(head);
    known
}

/// The batch of the source that is due to a destination that knows this.
#[tactic(auto, unfolding(sfx_model::specs::sessions::Batch::batch_from))]
pub fn due(
    rt: &impl Abort,
    alloc: Global,
    source: &mut MemoryProvider<2>,
    known: &Knowledge<2>,
    from: &Cut,
    size: usize,
    mode: Mode,
) -> Batch<2>
    requires size { 1 ≤ size }
    requires place { IsPlace from.now }
    ensures { result.mode ≡ mode }
{
    make_batch(alloc, source, known, from, size, mode).expect(rt, "a batch")
}

/// The batch that is due to a destination that knows nothing.
pub fn due_to_new(
    rt: &impl Abort,
    alloc: Global,
    source: &mut MemoryProvider<2>,
    from: &Cut,
    size: usize,
    mode: Mode,
) -> Batch<2>
    requires size { 1 ≤ size }
    requires place { IsPlace from.now }
    ensures { result.mode ≡ mode }
{
    let nothing = Knowledge::none(alloc).expect(rt, "knowledge");
    let batch = due(rt, alloc, source, &nothing, from, size, mode);
    drop(nothing);
    batch
}

/// The names of three items.
pub const THREE: &[&str] = &["a", "b", "c"];

/// The batch of a replica with three items that is due to a destination that knows nothing.
pub fn first_batch(rt: &impl Abort, alloc: Global, from: &Cut, size: usize, mode: Mode) -> Batch<2>
    requires size { 1 ≤ size }
    requires place { IsPlace from.now }
    ensures { result.mode ≡ mode }
{
    let mut source = provider(rt, alloc, 10, THREE, &[]);
    let batch = due_to_new(rt, alloc, &mut source, from, size, mode);
    drop(source);
    batch
}

/// How many of the entries are of this kind.
pub fn count_of(applied: &Applied<2>, kind: EntryKind) -> usize {
    let mut count: usize = 0;
    for entry in &applied.entries {
        if entry.kind == kind {
            count = count.saturating_add(1);
        }
    }
    count
}
