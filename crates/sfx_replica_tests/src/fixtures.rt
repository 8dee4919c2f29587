//! Small replicas, which the tests make, edit and compare.
ghost use Rattle.std.specs.Prelude.{◌≡◌, length};

use sfx_ids::{ItemId, ReplicaId, Tick, UnitId, Version};
use sfx_item::{Name, Value};
use sfx_knowledge::Knowledge;
use sfx_replica::{EditFault, Replica};
use std::alloc::Global;
use std::process::Abort;

pub fn value(rt: &impl Abort, alloc: Global, text: &str) -> Value {
    Value::new(Vec::from_slice(alloc, text.as_bytes()).expect(rt, "memory"))
}

/// The values of an item with one unit.
fn one(rt: &impl Abort, alloc: Global, name: &str) -> Vec<Value>
    ensures { length result.items ≡ 1 }
{
    Vec::from_array(alloc, [value(rt, alloc, name)]).expect(rt, "memory")
}

/// The values of an item with two units.
pub fn two(rt: &impl Abort, alloc: Global, name: &str, text: &str) -> Vec<Value>
    ensures { length result.items ≡ 2 }
{
    let values = [value(rt, alloc, name), value(rt, alloc, text)];
    Vec::from_array(alloc, values).expect(rt, "memory")
}

pub fn name(rt: &impl Abort, alloc: Global, text: &str) -> Name {
    Name::read(alloc, text.as_bytes()).expect(rt, "a name")
}

fn tick(rt: &impl Abort, count: u64) -> Tick
    ensures { result ≡ count }
{
    Tick::new(count).expect(rt, "a tick")
}

pub fn item_id(rt: &impl Abort, count: u64, replica: u128) -> ItemId
    ensures { result.tick ≡ count }
{
    ItemId {
        tick: tick(rt, count),
        replica: ReplicaId::new(replica),
    }
}

pub fn version(rt: &impl Abort, replica: u128, count: u64) -> Version {
    item_id(rt, count, replica).creation()
}

pub fn unit<const U: usize>(rt: &impl Abort, index: usize) -> UnitId<U> {
    UnitId::new(index).expect(rt, "a unit")
}

/// Creates an item of one unit in the replica.
pub fn create(
    rt: &impl Abort,
    alloc: Global,
    replica: &mut Replica<1>,
    name: &str,
) -> Result<ItemId, EditFault> {
    replica.create(one(rt, alloc, name))
}

/// Creates an item of two units in the replica.
pub fn create_two(
    rt: &impl Abort,
    alloc: Global,
    replica: &mut Replica<2>,
    name: &str,
    text: &str,
) -> Result<ItemId, EditFault> {
    replica.create(two(rt, alloc, name, text))
}

/// A replica that created items with these names, of one unit each.
pub fn with_names(rt: &impl Abort, alloc: Global, names: &[&str]) -> Replica<1> {
    let mut replica = Replica::<1>::new(alloc, ReplicaId::new(10)).expect(rt, "a replica");
    for name in names {
        create(rt, alloc, &mut replica, name).expect(rt, "an item");
    }
    replica
}

/// Writes the text to the unit of the item.
pub fn set(
    rt: &impl Abort,
    alloc: Global,
    replica: &mut Replica<2>,
    id: &ItemId,
    k: usize,
    text: &str,
) -> Result<Version, EditFault> {
    replica.set(id, k, value(rt, alloc, text))
}

/// A replica that created `a` and `b/c`, with two units each.
pub fn pair(rt: &impl Abort, alloc: Global, id: u128) -> Replica<2> {
    let mut replica = Replica::<2>::new(alloc, ReplicaId::new(id)).expect(rt, "a replica");
    create_two(rt, alloc, &mut replica, "a", "1").expect(rt, "an item");
    create_two(rt, alloc, &mut replica, "b/c", "2").expect(rt, "an item");
    replica
}

/// The clock of the replica, and how many items it has.
pub fn counts<const U: usize>(replica: &Replica<U>) -> (u64, u64) {
    (replica.clock(), replica.items().len() as u64)
}

/// What the replica knows, its own versions included.
pub fn known_to(rt: &impl Abort, alloc: Global, replica: &Replica<2>) -> Knowledge<2> {
    replica.knowledge(alloc).expect(rt, "knowledge")
}

/// Whether both have the same live items.
pub fn are_alike(a: &Replica<2>, b: &Replica<2>) -> bool {
    a.same_live(b)
}

/// Whether the replica has the live items of a pair as it is at first.
pub fn is_pair(rt: &impl Abort, alloc: Global, replica: &Replica<2>) -> bool {
    let pair = pair(rt, alloc, 10);
    let is_pair = are_alike(replica, &pair);
    drop(pair);
    is_pair
}
