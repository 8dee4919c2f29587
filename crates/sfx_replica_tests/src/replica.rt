//! The edits that the users of small replicas make.
use crate::fixtures::{
    counts, create, create_two, is_pair, item_id, pair, set, unit, version, with_names,
};
use sfx_ids::{ItemId, ReplicaId, UnitId, Version};
use sfx_item::State;
use sfx_knowledge::Knowledge;
use sfx_replica::{EditFault, Replica};
use std::alloc::Global;
use std::process::Abort;

/// Whether the replica stores that it knows nothing.
fn stores_nothing(rt: &impl Abort, alloc: Global, replica: &Replica<1>) -> bool {
    let nothing = Knowledge::none(alloc).expect(rt, "knowledge");
    let is_same = replica.stored().same(&nothing);
    drop(nothing);
    is_same
}

/// Whether the item is live, with this text at the unit, of this version.
fn holds<const U: usize>(
    replica: &Replica<U>,
    id: &ItemId,
    unit: UnitId<U>,
    text: &str,
    version: &Version,
) -> bool {
    match replica.item(id) {
        Some(item) => match &item.state {
            State::Live(row) => {
                let cell = row.cell(unit);
                cell.value.bytes() == text.as_bytes() && cell.version == *version
            }
            State::Dead(_) => false,
        },
        None => false,
    }
}

/// The id of the replica, its counts, and of how many replicas it has forgotten deletions.
fn told_of(replica: &Replica<1>) -> (ReplicaId, (u64, u64), usize) {
    (
        replica.id(),
        counts(replica),
        replica.forgotten().vector().len(),
    )
}

/// Creates an item: its id, the counts then, and whether the replica holds it with this name.
fn created(
    rt: &impl Abort,
    alloc: Global,
    replica: &mut Replica<1>,
    unit: UnitId<1>,
    name: &str,
) -> (ItemId, (u64, u64), bool) {
    let id = create(rt, alloc, replica, name).expect(rt, "an item");
    let is_held = holds(replica, &id, unit, name, &id.creation());
    (id, counts(replica), is_held)
}

/// The names of items, and the ticks that they are created at.
const NAMES: &[(&str, u64)] = &[("dir/f", 1), ("dir2", 2), ("di", 3), ("dir/g", 4)];

/// A new replica is to begin with nothing, and to create items at the ticks from 1 on.
#[test]
fn creates_items(rt: HostRuntime) {
    let id = ReplicaId::new(10);
    let mut replica = Replica::<1>::new(rt.alloc(), id).expect(&rt, "a replica");
    assert!(rt; told_of(&replica) == (id, (0, 0), 0));
    let unit = unit::<1>(&rt, 0);
    for &(name, count) in NAMES {
        let told = (item_id(&rt, count, 10), (count, count), true);
        let is_so = created(&rt, rt.alloc(), &mut replica, unit, name) == told;
        assert!(rt; is_so, "{name}");
    }
    let stores_nothing = stores_nothing(&rt, rt.alloc(), &replica);
    drop(replica);
    assert!(rt; stores_nothing);
}

/// What the replica answers where an item is to be created, and its counts then.
fn refused_name(
    rt: &impl Abort,
    alloc: Global,
    replica: &mut Replica<1>,
    name: &str,
) -> (Result<ItemId, EditFault>, (u64, u64)) {
    let answer = create(rt, alloc, replica, name);
    (answer, counts(replica))
}

/// Why an edit is refused; a clash is with the item of this tick.
enum Refusal {
    NoItem,
    BadUnit(usize),
    BadName(usize),
    Clash(u64),
}

/// The fault that tells so, where there are two units.
fn fault_of(rt: &impl Abort, refusal: &Refusal) -> EditFault {
    match refusal {
        Refusal::NoItem => EditFault::NoItem,
        Refusal::BadUnit(k) => EditFault::BadUnit { k: *k, u: 2 },
        Refusal::BadName(at) => EditFault::BadName(*at),
        Refusal::Clash(tick) => EditFault::Clash(item_id(rt, *tick, 10)),
    }
}

/// Names, and why a replica that created `a/x/y`, `a/z` and `b` refuses them.
const REFUSED_NAMES: &[(&str, Refusal)] = &[
    ("", Refusal::BadName(0)),
    ("b/", Refusal::BadName(2)),
    ("b//f", Refusal::BadName(2)),
    ("b\u{1}", Refusal::BadName(1)),
    ("b", Refusal::Clash(3)),
    ("b/f", Refusal::Clash(3)),
    ("a", Refusal::Clash(1)),
    ("a/x", Refusal::Clash(1)),
    ("a/z/x", Refusal::Clash(2)),
];

/// Each name is to be refused, and the replica to stay as it is.
#[test]
fn refuses_creation(rt: HostRuntime) {
    let mut replica = with_names(&rt, rt.alloc(), &["a/x/y", "a/z", "b"]);
    for (name, refusal) in REFUSED_NAMES {
        let answer = create(&rt, rt.alloc(), &mut replica, name);
        let is_refused = answer == Err(fault_of(&rt, refusal));
        assert!(rt; is_refused && counts(&replica) == (3, 3), "{name}");
    }
    let created = create(&rt, rt.alloc(), &mut replica, "a/x2");
    drop(replica);
    assert!(rt; created == Ok(item_id(&rt, 4, 10)));
}

/// Writes the text to the unit of the item: the version, the counts then, and whether the item has it.
fn written(
    rt: &impl Abort,
    alloc: Global,
    replica: &mut Replica<2>,
    id: &ItemId,
    unit: UnitId<2>,
    text: &str,
) -> (Version, (u64, u64), bool) {
    let made = set(rt, alloc, replica, id, unit.get(), text).expect(rt, "a version");
    let is_held = holds(replica, id, unit, text, &made);
    (made, counts(replica), is_held)
}

/// What is written to a pair, and the tick of that: an equal value, a name of its own, a name below its own, and
/// one that is free again. A row: the item, the unit, the text and the tick.
const WRITTEN: &[(u64, usize, &str, u64)] = &[
    (1, 1, "1", 3),
    (1, 0, "a", 4),
    (1, 0, "a/d", 5),
    (2, 0, "b", 6),
    (2, 1, "", 7),
    (1, 0, "a", 8),
    (1, 1, "b", 9),
];

/// The name of the first item and the text of the second are to stay as they were written last.
fn expect_kept(rt: &impl Abort, replica: &Replica<2>) {
    let named = version(rt, 10, 8);
    assert!(rt; holds(replica, &item_id(rt, 1, 10), unit::<2>(rt, 0), "a", &named));
    let cleared = version(rt, 10, 7);
    assert!(rt; holds(replica, &item_id(rt, 2, 10), unit::<2>(rt, 1), "", &cleared));
}

/// A pair is to take each text at its tick.
#[test]
fn sets_values(rt: HostRuntime) {
    let mut replica = pair(&rt, rt.alloc(), 10);
    for &(item, k, text, count) in WRITTEN {
        let (id, unit) = (item_id(&rt, item, 10), unit::<2>(&rt, k));
        let told = (version(&rt, 10, count), (count, 2), true);
        let is_so = written(&rt, rt.alloc(), &mut replica, &id, unit, text) == told;
        assert!(rt; is_so, "{text}");
    }
    expect_kept(&rt, &replica);
    drop(replica);
}

/// The tick and replica of an item, a unit, a text, and why a pair refuses it there.
type Refused<'a> = (u64, u128, usize, &'a str, Refusal);

/// Texts for units that are not there, and for names.
const REFUSED_TEXTS: &[Refused] = &[
    (3, 10, 2, "/", Refusal::NoItem),
    (1, 11, 0, "a", Refusal::NoItem),
    (1, 10, 2, "/", Refusal::BadUnit(2)),
    (1, 10, 7, "b", Refusal::BadUnit(7)),
    (1, 10, 0, "/", Refusal::BadName(0)),
    (1, 10, 0, "b/c/", Refusal::BadName(4)),
    (1, 10, 0, "b", Refusal::Clash(2)),
    (1, 10, 0, "b/c", Refusal::Clash(2)),
    (2, 10, 0, "a/d", Refusal::Clash(1)),
];

/// Whether the replica is a pair as it is at first, its clock included.
fn is_untouched(rt: &impl Abort, alloc: Global, replica: &Replica<2>) -> bool {
    counts(replica) == (2, 2) && is_pair(rt, alloc, replica)
}

/// Each text is to be refused, and the pair to stay as it is.
#[test]
fn refuses_values(rt: HostRuntime) {
    let mut replica = pair(&rt, rt.alloc(), 10);
    for (item, maker, k, text, refusal) in REFUSED_TEXTS {
        let id = item_id(&rt, *item, *maker);
        let answer = set(&rt, rt.alloc(), &mut replica, &id, *k, text);
        let is_refused = answer == Err(fault_of(&rt, refusal));
        assert!(rt;
            is_refused && is_untouched(&rt, rt.alloc(), &replica),
            "{text}"
        );
    }
    drop(replica);
}

/// Whether the item is a tombstone of this version.
fn is_dead_at(replica: &Replica<2>, id: &ItemId, version: &Version) -> bool {
    match replica.item(id) {
        Some(item) => match &item.state {
            State::Live(_) => false,
            State::Dead(deleted) => deleted == version,
        },
        None => false,
    }
}

/// What answers where the item is deleted, and then written to and deleted again.
fn deleted(
    rt: &impl Abort,
    alloc: Global,
    replica: &mut Replica<2>,
    id: &ItemId,
) -> [Result<Version, EditFault>; 3] {
    [
        replica.delete(id),
        set(rt, alloc, replica, id, 1, "x"),
        replica.delete(id),
    ]
}

/// A live item is to be deleted at the next tick, once, and to take no text then. Its name is free.
#[test]
fn deletes_an_item(rt: HostRuntime) {
    let mut replica = pair(&rt, rt.alloc(), 10);
    let id = item_id(&rt, 1, 10);
    let made = version(&rt, 10, 3);
    let answers = deleted(&rt, rt.alloc(), &mut replica, &id);
    let absent = replica.delete(&item_id(&rt, 3, 10));
    let is_dead = is_dead_at(&replica, &id, &made);
    let created = create_two(&rt, rt.alloc(), &mut replica, "a/c", "");
    let counts = counts(&replica);
    drop(replica);
    let gone = Err(EditFault::Deleted);
    assert!(rt; answers == [Ok(made), gone, gone]);
    assert!(rt; absent == Err(EditFault::NoItem) && is_dead);
    assert!(rt; created == Ok(item_id(&rt, 4, 10)) && counts == (4, 3));
}
