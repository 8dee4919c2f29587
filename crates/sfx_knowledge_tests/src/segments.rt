//! Segments of heights on literals.
ghost use Rattle.std.specs.Prelude.{◌≡◌, nat_le, if◌then◌else◌};

use crate::fixtures::item;
use sfx_ids::{Cut, ItemId, Memory, Part};
use sfx_segments::{Combine, Segments};
use std::alloc::Global;
use std::process::Abort;

/// A height above the ground.
#[derive(Clone, Copy, Debug, PartialEq, Eq)]
struct Height {
    metres: u8,
}

impl Part for Height {
    fn same(&self, other: &Self) -> bool {
        self.metres == other.metres
    }

    fn copy(&self, _alloc: Global) -> Result<Self, Memory> {
        Ok(*self)
    }
}

/// The greater of two heights.
#[derive(Drop)]
struct Greater;

impl Combine<Height> for Greater {
    ghost meaning = { λ _ a b. (if nat_le b.metres a.metres then a else b) };

    fn combine(&self, _alloc: Global, a: &Height, b: &Height) -> Result<Height, Memory> {
        if b.metres <= a.metres { Ok(*a) } else { Ok(*b) }
    }
}

fn at(rt: &impl Abort, tick: u64) -> Cut {
    Cut::At(item(rt, tick))
}

fn after(rt: &impl Abort, tick: u64) -> Cut {
    Cut::After(item(rt, tick))
}

/// The height 1 at all places, but for ranges that are set to other metres in turn.
fn land(rt: &impl Abort, alloc: Global, ranges: &[(Cut, Cut, u8)]) -> Segments<Height> {
    let mut land = Segments::new(alloc, Height { metres: 1 }).expect(rt, "memory");
    for (lo, hi, metres) in ranges {
        let height = Height { metres: *metres };
        land.set_range(lo, hi, &height).expect(rt, "memory");
    }
    land
}

/// Whether the segments begin at these places, with these metres.
fn are(land: &Segments<Height>, wanted: &[(Cut, u8)]) -> bool {
    if land.len() != wanted.len() {
        return false;
    }
    for (i, (start, metres)) in wanted.iter().enumerate() {
        if land.start(i) != *start || land.value(i).metres != *metres {
            return false;
        }
    }
    true
}

/// Whether ranges that are set in turn make the segments.
fn makes(rt: &impl Abort, alloc: Global, ranges: &[(Cut, Cut, u8)], wanted: &[(Cut, u8)]) -> bool {
    let land = land(rt, alloc, ranges);
    let are = are(&land, wanted);
    drop(land);
    are
}

#[test]
fn sets_ranges(rt: HostRuntime) {
    let alloc = rt.alloc();
    let flat = [(Cut::Start, 1)];
    let steps = [(Cut::Start, 1), (at(&rt, 3), 4), (after(&rt, 5), 1)];
    let cliff = [(Cut::Start, 9), (at(&rt, 1), 1)];
    let hill = [(at(&rt, 3), after(&rt, 5), 4)];
    let levelled = [
        (at(&rt, 3), after(&rt, 5), 4),
        (at(&rt, 3), Cut::End, 1),
        (Cut::End, Cut::Start, 9),
    ];
    let front = [(Cut::Start, at(&rt, 1), 9)];
    assert!(rt; makes(&rt, alloc, &[], &flat));
    assert!(rt; makes(&rt, alloc, &hill, &steps));
    assert!(rt; makes(&rt, alloc, &levelled, &flat));
    assert!(rt; makes(&rt, alloc, &front, &cliff));
}

/// The metres at the start, at the item and behind it.
fn heights(land: &Segments<Height>, id: &ItemId) -> (u8, u8, u8) {
    (
        land.get(&Cut::Start).metres,
        land.get(&Cut::At(*id)).metres,
        land.get(&Cut::After(*id)).metres,
    )
}

/// The heights around the item in the land of these ranges, and whether the height is 1 everywhere.
fn survey(
    rt: &impl Abort,
    alloc: Global,
    ranges: &[(Cut, Cut, u8)],
    id: &ItemId,
) -> ((u8, u8, u8), bool) {
    let land = land(rt, alloc, ranges);
    let is_flat = land.all(|height| height.metres == 1);
    let heights = heights(&land, id);
    drop(land);
    (heights, is_flat)
}

#[test]
fn gives_every_place_a_value(rt: HostRuntime) {
    let fifth = item(&rt, 5);
    assert!(rt; survey(&rt, rt.alloc(), &[], &fifth) == ((1, 1, 1), true));
    let hill = [(at(&rt, 3), after(&rt, 5), 4)];
    assert!(rt; survey(&rt, rt.alloc(), &hill, &fifth) == ((1, 4, 1), false));
}

/// Whether the greater heights of the hill from `At(3)` up to `After(5)` and of its copy with a lake up to
/// `At(4)`, of the height 2, make these segments.
fn combine_hill(rt: &impl Abort, alloc: Global, wanted: &[(Cut, u8)]) -> bool {
    let hill = land(rt, alloc, &[(at(rt, 3), after(rt, 5), 4)]);
    let mut lake = hill.copy(alloc).expect(rt, "a copy");
    let set = lake.set_range(&Cut::Start, &at(rt, 4), &Height { metres: 2 });
    set.expect(rt, "memory");
    let greater = hill.zip_with(alloc, &lake, &Greater).expect(rt, "memory");
    drop(lake);
    drop(hill);
    let are = are(&greater, wanted);
    drop(greater);
    are
}

#[test]
fn combines_two_maps(rt: HostRuntime) {
    let wanted = [(Cut::Start, 2), (at(&rt, 3), 4), (after(&rt, 5), 1)];
    assert!(rt; combine_hill(&rt, rt.alloc(), &wanted));
}
