//! What small replicas tell: what they know, and which of their items.
use crate::fixtures::{
    are_alike, counts, create_two, item_id, known_to, name, pair, set, unit, version, with_names,
};
use sfx_ids::{Cut, ItemId, ReplicaId, UnitId, Version};
use sfx_item::Item;
use sfx_knowledge::Knowledge;
use sfx_replica::Replica;
use std::alloc::Global;
use std::process::Abort;

/// Whether the version is known to the replica, by the knowledge that it gives, and by what it stores.
fn knowing(
    rt: &impl Abort,
    alloc: Global,
    replica: &Replica<2>,
    id: &ItemId,
    unit: UnitId<2>,
    version: &Version,
) -> (bool, bool, bool) {
    let known = known_to(rt, alloc, replica);
    let is_given = known.contains(id, unit, version);
    drop(known);
    let is_stored = replica.stored().contains(id, unit, version);
    (replica.knows(id, unit, version), is_given, is_stored)
}

/// Whether what a new replica knows is what it stores.
fn knows_as_stored(rt: &impl Abort, alloc: Global) -> bool {
    let empty = Replica::<2>::new(alloc, ReplicaId::new(10)).expect(rt, "a replica");
    let known = known_to(rt, alloc, &empty);
    let is_stored = known.same(empty.stored());
    drop(known);
    drop(empty);
    is_stored
}

/// The replica and tick of a version, and whether a pair knows it.
const KNOWN: &[(u128, u64, bool)] = &[(10, 1, true), (10, 2, true), (10, 3, false), (11, 1, false)];

/// A pair is to know the versions that it made, at the items that it holds and at any other.
fn expect_own_known(rt: &impl Abort, alloc: Global, replica: &Replica<2>, id: &ItemId) {
    let unit = unit::<2>(rt, 1);
    for &(maker, count, is_known) in KNOWN {
        let told = knowing(rt, alloc, replica, id, unit, &version(rt, maker, count));
        assert!(rt; told == (is_known, is_known, false), "{count}");
    }
}

#[test]
fn knows_its_own_versions(rt: HostRuntime) {
    let alloc = rt.alloc();
    let replica = pair(&rt, alloc, 10);
    for &(count, maker) in &[(1, 10), (2, 10), (5, 9)] {
        expect_own_known(&rt, alloc, &replica, &item_id(&rt, count, maker));
    }
    assert!(rt; knows_as_stored(&rt, alloc));
    drop(replica);
}

/// The tick of an item, 0 for none.
fn tick_of(item: Option<&Item<2>>) -> u64 {
    match item {
        Some(item) => item.id.tick.get(),
        None => 0,
    }
}

/// The ticks of the item with this id, of the first from there on, and of the first behind it, 0 for none.
fn found(replica: &Replica<2>, id: &ItemId) -> (u64, u64, u64) {
    (
        tick_of(replica.item(id)),
        tick_of(replica.next_from(&Cut::At(*id))),
        tick_of(replica.next_from(&Cut::After(*id))),
    )
}

/// The ticks of the first item from the start on, and of the first from the end on, 0 for none.
fn found_from_ends(replica: &Replica<2>) -> (u64, u64) {
    (
        tick_of(replica.next_from(&Cut::Start)),
        tick_of(replica.next_from(&Cut::End)),
    )
}

/// The tick and replica of an id, and what a pair finds by it.
const FOUND: &[(u64, u128, (u64, u64, u64))] = &[
    (1, 9, (0, 1, 1)),
    (1, 10, (1, 1, 2)),
    (1, 11, (0, 2, 2)),
    (2, 9, (0, 2, 2)),
    (2, 10, (2, 2, 0)),
    (2, 11, (0, 0, 0)),
    (3, 10, (0, 0, 0)),
];

/// A pair is to find its items by their ids, and by any place before them.
#[test]
fn finds_items(rt: HostRuntime) {
    let replica = pair(&rt, rt.alloc(), 10);
    for &(count, maker, told) in FOUND {
        let is_so = found(&replica, &item_id(&rt, count, maker)) == told;
        assert!(rt; is_so, "{count}");
    }
    let ends = found_from_ends(&replica);
    drop(replica);
    assert!(rt; ends == (1, 0));
}

/// The tick of the id at this place, 0 for none, and for one of another replica.
fn tick_at(ids: &[ItemId], place: usize) -> u64 {
    match ids.get(place) {
        Some(id) if id.replica == ReplicaId::new(10) => id.tick.get(),
        _ => 0,
    }
}

/// How many items clash with the name, and the ticks of the first two of them.
fn clashing(
    rt: &impl Abort,
    alloc: Global,
    replica: &Replica<1>,
    text: &str,
    except: Option<ItemId>,
) -> (usize, u64, u64) {
    let name = name(rt, alloc, text);
    let ids = replica.clashing(alloc, &name, except).expect(rt, "ids");
    drop(name);
    let (first, second) = (tick_at(ids.as_slice(), 0), tick_at(ids.as_slice(), 1));
    let count = ids.len();
    drop(ids);
    (count, first, second)
}

/// The item of this tick and replica, where there is one.
fn excepted(rt: &impl Abort, of: Option<(u64, u128)>) -> Option<ItemId> {
    let (count, replica) = of?;
    Some(item_id(rt, count, replica))
}

/// A name, the tick and replica of the excepted item, and how many others clash and the ticks of two of them.
type Clashing<'a> = (&'a str, Option<(u64, u128)>, (usize, u64, u64));

/// What a replica that created `dir/f`, `dir2` and `dir/g` lists.
const CLASHING: &[Clashing] = &[
    ("dir", None, (2, 1, 3)),
    ("dir", Some((1, 10)), (1, 3, 0)),
    ("dir", Some((1, 11)), (2, 1, 3)),
    ("dir/g", None, (1, 3, 0)),
    ("dir/g/h", None, (1, 3, 0)),
    ("dir/g/h", Some((3, 10)), (0, 0, 0)),
    ("di", None, (0, 0, 0)),
    ("dir2/x", Some((3, 10)), (1, 2, 0)),
];

/// The replica is to list those that clash but the excepted one.
#[test]
fn lists_clashing_items(rt: HostRuntime) {
    let replica = with_names(&rt, rt.alloc(), &["dir/f", "dir2", "dir/g"]);
    for &(text, except, told) in CLASHING {
        let except = excepted(&rt, except);
        let is_so = clashing(&rt, rt.alloc(), &replica, text, except) == told;
        assert!(rt; is_so, "{text}");
    }
    drop(replica);
}

/// The number of a replica, and which unit of its first item is written, and the text.
const WRITES: &[(usize, usize, &str)] = &[(3, 1, "1"), (4, 1, "2"), (5, 0, "a")];

/// Makes the edit of this number, where there is one.
fn edit(rt: &impl Abort, alloc: Global, replica: &mut Replica<2>, which: usize) {
    for &(number, k, text) in WRITES {
        if number == which {
            let written = set(rt, alloc, replica, &item_id(rt, 1, 10), k, text);
            written.expect(rt, "a version");
        }
    }
    if which == 6 {
        create_two(rt, alloc, replica, "c", "").expect(rt, "an item");
    }
}

/// What the replica of this number is before its edit: empty, or a pair.
fn unedited(rt: &impl Abort, alloc: Global, which: usize) -> Replica<2> {
    match which {
        0 => Replica::<2>::new(alloc, ReplicaId::new(10)).expect(rt, "a replica"),
        2 => pair(rt, alloc, 11),
        _ => pair(rt, alloc, 10),
    }
}

/// One of seven replicas, of which each has other live items.
fn unlike(rt: &impl Abort, alloc: Global, which: usize) -> Replica<2> {
    let mut replica = unedited(rt, alloc, which);
    edit(rt, alloc, &mut replica, which);
    replica
}

/// Whether these two of the seven, each made for itself, have the same live items.
fn alike_at(rt: &impl Abort, alloc: Global, i: usize, j: usize) -> bool {
    let (a, b) = (unlike(rt, alloc, i), unlike(rt, alloc, j));
    let is_alike = are_alike(&a, &b);
    drop(a);
    drop(b);
    is_alike
}

#[test]
fn compares_live_items(rt: HostRuntime) {
    for i in 0..7 {
        for j in 0..7 {
            assert!(rt; alike_at(&rt, rt.alloc(), i, j) == (i == j), "{i} {j}");
        }
    }
}

/// Whether the copy has the replica's live items, and its id, and the counts of the copy.
fn compared(copy: &Replica<2>, replica: &Replica<2>) -> (bool, bool, (u64, u64)) {
    let has_id = copy.id() == replica.id();
    (are_alike(copy, replica), has_id, counts(copy))
}

/// A copy is to stay as it is where the replica is changed.
#[test]
fn copies_a_replica(rt: HostRuntime) {
    let mut replica = pair(&rt, rt.alloc(), 10);
    let copy = replica.copy(rt.alloc()).expect(&rt, "a copy");
    let told = compared(&copy, &replica);
    create_two(&rt, rt.alloc(), &mut replica, "d", "").expect(&rt, "an item");
    drop(replica);
    let counts = counts(&copy);
    drop(copy);
    assert!(rt; told == (true, true, (2, 2)));
    assert!(rt; counts == (2, 2));
}

/// How many items the replica lists as unseen, and the tick of the first.
fn unseen(
    rt: &impl Abort,
    alloc: Global,
    replica: &Replica<2>,
    to: &Knowledge<2>,
    from: &Cut,
    limit: usize,
) -> (usize, u64) {
    let ids = replica.unseen(alloc, to, from, limit).expect(rt, "ids");
    let (count, first) = (ids.len(), tick_at(ids.as_slice(), 0));
    drop(ids);
    (count, first)
}

/// What the replica lists as unseen to one that knows nothing.
fn unseen_at_first(
    rt: &impl Abort,
    alloc: Global,
    replica: &Replica<2>,
    from: &Cut,
    limit: usize,
) -> (usize, u64) {
    let nothing = Knowledge::none(alloc).expect(rt, "knowledge");
    let told = unseen(rt, alloc, replica, &nothing, from, limit);
    drop(nothing);
    told
}

/// What the replica lists as unseen to itself.
fn unseen_to_itself(rt: &impl Abort, alloc: Global, replica: &Replica<2>) -> (usize, u64) {
    let known = known_to(rt, alloc, replica);
    let told = unseen(rt, alloc, replica, &known, &Cut::Start, 9);
    drop(known);
    told
}

/// A pair is to list its items from the cut on, at most as many as the limit says.
#[test]
fn lists_unseen_items(rt: HostRuntime) {
    let replica = pair(&rt, rt.alloc(), 10);
    for (from, limit, told) in [
        (Cut::Start, 9, (2, 1)),
        (Cut::Start, 1, (1, 1)),
        (Cut::Start, 0, (0, 0)),
        (Cut::At(item_id(&rt, 1, 10)), 9, (2, 1)),
        (Cut::After(item_id(&rt, 1, 10)), 9, (1, 2)),
        (Cut::End, 9, (0, 0)),
    ] {
        let is_so = unseen_at_first(&rt, rt.alloc(), &replica, &from, limit) == told;
        assert!(rt; is_so, "{limit}");
    }
    let unseen = unseen_to_itself(&rt, rt.alloc(), &replica);
    drop(replica);
    assert!(rt; unseen == (0, 0));
}

/// What a pair that wrote to a unit of the item lists as unseen to what it knew before.
fn unseen_edit(rt: &impl Abort, alloc: Global, id: &ItemId, k: usize) -> (usize, u64) {
    let mut replica = pair(rt, alloc, 10);
    let known = known_to(rt, alloc, &replica);
    set(rt, alloc, &mut replica, id, k, "d").expect(rt, "a version");
    let told = unseen(rt, alloc, &replica, &known, &Cut::Start, 9);
    drop(known);
    drop(replica);
    told
}

#[test]
fn lists_items_with_one_unseen_unit(rt: HostRuntime) {
    let second = item_id(&rt, 2, 10);
    for k in [0, 1] {
        assert!(rt; unseen_edit(&rt, rt.alloc(), &second, k) == (1, 2), "{k}");
    }
}
