//! Values, names and rows on literals.

use crate::fixtures::{A, item, unit, version};
use sfx_ids::Version;
use sfx_item::{Cell, Item, Name, NameFault, Row, State, Value, clashes};
use std::alloc::Global;
use std::process::Abort;

fn cell(rt: &impl Abort, alloc: Global, version: Version, text: &str) -> Cell {
    let bytes = Vec::from_slice(alloc, text.as_bytes()).expect(rt, "memory");
    let value = Value::new(bytes);
    Cell { version, value }
}

#[test]
fn copies_a_cell(rt: HostRuntime) {
    let cell = cell(&rt, rt.alloc(), version(&rt, A, 3), "x");
    let copy = cell.copy(rt.alloc()).expect(&rt, "a copy");
    drop(cell);
    let is_text = copy.value.bytes() == b"x".as_slice();
    let tick = copy.version.tick.get();
    drop(copy);
    assert!(rt; is_text && tick == 3);
}

/// The row of one cell at this tick of `a`, if it is one for items with this many units.
fn row<const U: usize>(rt: &impl Abort, alloc: Global, tick: u64, text: &str) -> Option<Row<U>> {
    let cells = [cell(rt, alloc, version(rt, A, tick), text)];
    let cells = Vec::from_array(alloc, cells).expect(rt, "memory");
    Row::new(alloc, cells).expect(rt, "memory")
}

/// Whether one cell is a row for items with this many units.
fn is_row<const U: usize>(rt: &impl Abort, alloc: Global, text: &str) -> bool {
    let row = row::<U>(rt, alloc, 3, text);
    let is_row = row.is_some();
    drop(row);
    is_row
}

/// A cell is no row for two units, nor for one where it has no name.
#[test]
fn keeps_a_cell_for_each_unit(rt: HostRuntime) {
    assert!(rt; !is_row::<2>(&rt, rt.alloc(), "x"));
    assert!(rt; !is_row::<1>(&rt, rt.alloc(), ".."));
    assert!(rt; is_row::<1>(&rt, rt.alloc(), "x"));
}

/// The row of a cell with this name, at this tick of `a`.
fn named(rt: &impl Abort, alloc: Global, tick: u64, name: &str) -> Row<1> {
    row(rt, alloc, tick, name).expect(rt, "a row")
}

/// Whether the row takes this text at its first unit.
fn takes(rt: &impl Abort, alloc: Global, row: &mut Row<1>, text: &str) -> bool {
    let cell = cell(rt, alloc, version(rt, A, 3), text);
    row.put(alloc, unit(rt, 0), cell).expect(rt, "memory")
}

#[test]
fn puts_names_alone_at_the_first_unit(rt: HostRuntime) {
    let mut row = named(&rt, rt.alloc(), 3, "x");
    assert!(rt; !takes(&rt, rt.alloc(), &mut row, "y/"));
    assert!(rt; takes(&rt, rt.alloc(), &mut row, "y"));
    let has_name = row.name().bytes() == b"y".as_slice();
    drop(row);
    assert!(rt; has_name);
}

/// What items with one id are: live with a name, or a tombstone, at a tick of `a`.
const STATES: &[(Option<&str>, u64)] = &[
    (Some("x"), 3),
    (Some("y"), 3),
    (Some("x"), 4),
    (None, 3),
    (None, 4),
];

/// The item with this state.
fn item_so(rt: &impl Abort, alloc: Global, name: Option<&str>, tick: u64) -> Item<1> {
    let id = item(rt, 3);
    let state = match name {
        Some(name) => State::Live(named(rt, alloc, tick, name)),
        None => State::Dead(version(rt, A, tick)),
    };
    Item { id, state }
}

/// The items with these states.
fn items(rt: &impl Abort, alloc: Global) -> Vec<Item<1>> {
    let mut items = Vec::new(alloc);
    for &(name, tick) in STATES {
        let item = item_so(rt, alloc, name, tick);
        items.push(item).expect(rt, "memory");
    }
    items
}

/// The indices of the first two items that are the same and not one, or not the same and one.
fn confused(items: &[Item<1>]) -> Option<(usize, usize)> {
    for (i, item) in items.iter().enumerate() {
        for (j, other) in items.iter().enumerate() {
            if item.same(other) != (i == j) {
                return Some((i, j));
            }
        }
    }
    None
}

/// The tick of the item's copy, or 0 where that is not the same.
fn copied_tick(rt: &impl Abort, alloc: Global, item: &Item<1>) -> u64 {
    let copy = item.copy(alloc).expect(rt, "a copy");
    let is_same = item.same(&copy);
    let tick = copy.version(unit(rt, 0)).tick.get();
    drop(copy);
    if is_same { tick } else { 0 }
}

/// Each item is to have a copy with the tick of its state.
fn expect_copies(rt: &impl Abort, alloc: Global) {
    for &(name, tick) in STATES {
        let item = item_so(rt, alloc, name, tick);
        let is_so = copied_tick(rt, alloc, &item) == tick;
        drop(item);
        assert!(rt; is_so);
    }
}

#[test]
fn tells_items_apart_and_copies_them(rt: HostRuntime) {
    let items = items(&rt, rt.alloc());
    let are_told = items.len() == STATES.len() && confused(items.as_slice()).is_none();
    drop(items);
    assert!(rt; are_told);
    expect_copies(&rt, rt.alloc());
}

/// Bytes, and where they go wrong as a name.
const NAME_FAULTS: &[(&[u8], usize)] = &[
    (b"", 0),
    (b"/a", 0),
    (b"a/", 2),
    (b"a//b", 2),
    (b"a/./b", 2),
    (b"a/..", 2),
    (&[b'a'; 260], 255),
    (b"ab/\xFF/", 3),
    (b"a\xC3", 1),
    (b"ab\x7F", 2),
    (b"a\xC2\x9F", 1),
];

#[test]
fn says_where_a_name_goes_wrong(rt: HostRuntime) {
    for &(bytes, at) in NAME_FAULTS {
        let is_so = Name::read(rt.alloc(), bytes).err() == Some(NameFault::BadName(at));
        assert!(rt; is_so, "{bytes:?}");
    }
}

/// Whether a name that is read of the bytes has a copy with them.
fn reads(rt: &impl Abort, alloc: Global, bytes: &[u8]) -> bool {
    let name = Name::read(alloc, bytes).expect(rt, "a name");
    let copy = name.copy(alloc).expect(rt, "a copy");
    drop(name);
    let has_bytes = copy.bytes() == bytes;
    drop(copy);
    has_bytes
}

/// Bytes that are names.
const NAMES: &[&[u8]] = &[b"notes/\xC3\xA9t\xC3\xA9.txt", b".a/...", &[b'a'; 255]];

#[test]
fn reads_names(rt: HostRuntime) {
    for name in NAMES {
        let is_read = reads(&rt, rt.alloc(), name);
        assert!(rt; is_read, "{name:?}");
    }
}

/// Whether the first name clashes with the second, and the second with the first.
fn clash(rt: &impl Abort, alloc: Global, a: &str, b: &str) -> (bool, bool) {
    let a = Name::read(alloc, a.as_bytes()).expect(rt, "a name");
    let b = Name::read(alloc, b.as_bytes()).expect(rt, "a name");
    let told = (clashes(&a, &b), clashes(&b, &a));
    drop(b);
    drop(a);
    told
}

#[test]
fn finds_clashes(rt: HostRuntime) {
    assert!(rt; clash(&rt, rt.alloc(), "dir", "dir/f") == (true, true));
    assert!(rt; clash(&rt, rt.alloc(), "dir", "dir2/f") == (false, false));
    assert!(rt; clash(&rt, rt.alloc(), "dir", "dir") == (true, true));
}
