//! Small lists of items in order of their ids.
ghost use Rattle.sfx_model.specs.members.Members.{AreAscending};

use crate::fixtures::{item_id, version};
use sfx_ids::{Cut, ItemId};
use sfx_item::{Item, State};
use sfx_items::{
    copies, drop_all, find, first_from, last_before, neighbours_of, place_from, place_of, put,
    put_all, take_away,
};
use std::alloc::Global;
use std::process::Abort;

/// The ticks of an item's id, and of the version at which it was deleted.
type Dead = (u64, u64);

fn dead(rt: &impl Abort, ticks: Dead) -> Item<1> {
    Item {
        id: item_id(rt, ticks.0, 10),
        state: State::Dead(version(rt, 10, ticks.1)),
    }
}

fn add(rt: &impl Abort, items: &mut Vec<Item<1>>, ticks: Dead)
    requires { AreAscending items.old.items }
    ensures { AreAscending items.new.items }
{
    put(items, dead(rt, ticks)).expect(rt, "room");
}

fn list(rt: &impl Abort, alloc: Global, all: &[Dead]) -> Vec<Item<1>>
    ensures { AreAscending result.items }
{
    let mut items = Vec::new(alloc);
    for ticks in all {
        add(rt, &mut items, *ticks);
    }
    items
}

fn ticks_of(item: &Item<1>) -> Dead {
    match &item.state {
        State::Live(_) => (item.id.tick.get(), 0),
        State::Dead(version) => (item.id.tick.get(), version.tick.get()),
    }
}

fn are(items: &[Item<1>], all: &[Dead]) -> bool {
    for (place, item) in items.iter().enumerate() {
        if all.get(place) != Some(&ticks_of(item)) {
            return false;
        }
    }
    items.len() == all.len()
}

fn tick(item: Option<&Item<1>>) -> Option<u64> {
    match item {
        Some(item) => Some(item.id.tick.get()),
        None => None,
    }
}

/// What is told of an id in a list: where it stands, and the ticks of the item with it, of the first from its
/// place, and of those next to it.
#[derive(Clone, Copy, Debug, PartialEq)]
struct Told {
    place: Option<usize>,
    behind_all_before: usize,
    found: Option<u64>,
    from: Option<u64>,
    last: Option<u64>,
    before: Option<u64>,
    behind: Option<u64>,
}

fn told_of(items: &[Item<1>], id: &ItemId) -> Told
    requires { AreAscending items.now }
{
    let next = neighbours_of(items, id);
    Told {
        place: place_of(items, id),
        behind_all_before: place_from(items, &Cut::At(*id)),
        found: tick(find(items, id)),
        from: tick(first_from(items, &Cut::At(*id))),
        last: tick(last_before(items, &Cut::At(*id))),
        before: tick(next.before),
        behind: tick(next.behind),
    }
}

/// Ids by their ticks, and what is told of each in a list of items at the ticks 2, 4 and 6.
const TOLD: &[(u64, Told)] = &[
    (
        1,
        Told {
            place: None,
            behind_all_before: 0,
            found: None,
            from: Some(2),
            last: None,
            before: None,
            behind: Some(2),
        },
    ),
    (
        4,
        Told {
            place: Some(1),
            behind_all_before: 1,
            found: Some(4),
            from: Some(4),
            last: Some(2),
            before: Some(2),
            behind: Some(6),
        },
    ),
    (
        7,
        Told {
            place: None,
            behind_all_before: 3,
            found: None,
            from: None,
            last: Some(6),
            before: Some(6),
            behind: None,
        },
    ),
];

/// An item is to be found by its id, and what stands next to its place.
#[test]
fn finds_items_and_their_neighbours(rt: HostRuntime) {
    let items = list(&rt, rt.alloc(), &[(6, 6), (2, 2), (4, 4)]);
    for &(count, told) in TOLD {
        let id = item_id(&rt, count, 10);
        let is_so = told_of(items.as_slice(), &id) == told;
        assert!(rt; is_so, "{count}");
    }
    drop(items);
}

/// An item is to be put in its place by id, or in that of the one with its id.
#[test]
fn puts_an_item_in_its_place(rt: HostRuntime) {
    let mut items = list(&rt, rt.alloc(), &[(4, 4), (2, 2)]);
    add(&rt, &mut items, (3, 3));
    add(&rt, &mut items, (4, 9));
    let are_put = are(items.as_slice(), &[(2, 2), (3, 3), (4, 9)]);
    drop(items);
    assert!(rt; are_put);
}

/// An item that is taken away is answered, and the others stay.
#[test]
fn takes_an_item_away(rt: HostRuntime) {
    let mut items = list(&rt, rt.alloc(), &[(2, 2), (4, 4), (6, 6)]);
    let taken = take_away(&mut items, &item_id(&rt, 4, 10));
    let is_taken = tick(taken.as_ref()) == Some(4);
    let are_left = are(items.as_slice(), &[(2, 2), (6, 6)]);
    drop(items);
    drop(taken);
    assert!(rt; is_taken && are_left);
}

/// Of two items with one id the one that is put is to stay, and all others.
#[test]
fn puts_many_items_by_one_merge(rt: HostRuntime) {
    let mut items = list(&rt, rt.alloc(), &[(2, 2), (4, 4), (6, 6)]);
    let puts = list(&rt, rt.alloc(), &[(1, 8), (4, 9), (7, 8)]);
    put_all(&mut items, puts).expect(&rt, "room");
    let are_put = are(items.as_slice(), &[(1, 8), (2, 2), (4, 9), (6, 6), (7, 8)]);
    drop(items);
    assert!(rt; are_put);
}

/// The items with the ids that are dropped are to go, and no others.
#[test]
fn takes_many_items_away(rt: HostRuntime) {
    let mut items = list(&rt, rt.alloc(), &[(2, 2), (4, 4), (6, 6)]);
    let drops = [item_id(&rt, 2, 10), item_id(&rt, 6, 10)];
    drop_all(&mut items, &drops);
    let are_left = are(items.as_slice(), &[(4, 4)]);
    drop(items);
    assert!(rt; are_left);
}

/// Copies are to be the same items in the same order.
#[test]
fn copies_items_in_order(rt: HostRuntime) {
    let items = list(&rt, rt.alloc(), &[(2, 2), (4, 4)]);
    let copied = copies(rt.alloc(), items.as_slice()).expect(&rt, "room");
    let are_alike = are(copied.as_slice(), &[(2, 2), (4, 4)]);
    drop(items);
    drop(copied);
    assert!(rt; are_alike);
}
