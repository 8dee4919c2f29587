//! What becomes of changes: their classes, the settling of conflicts and clashes, and fresh ticks.
use crate::fixtures::{item_id, two, unit, value, version};
use sfx_ids::{MAX_TICK, Memory, ReplicaId, Tick, Version};
use sfx_item::{Cell, Item, Row, State, Value};
use sfx_knowledge::{Forgotten, Knowledge, UnitRow};
use sfx_segments::Segments;
use sfx_settle::{
    ClashRule, Class, ClockFull, Draft, Keep, Longer, Mark, Rules, UnitClass, UnitClasses,
    classify, fresh, settle_clash, settle_units, settle_whole,
};
use sfx_vector::ClockVector;
use std::alloc::Global;
use std::process::Abort;

/// The replica `a`.
const A: u128 = 10;

/// The replica `b`.
const B: u128 = 11;

/// Of an item that is live.
const LIVE: bool = true;

/// Of an item that is a tombstone.
const DEAD: bool = false;

/// Raises the replica's entry to this tick; 0 is none.
fn raise(vector: &mut ClockVector, replica: u128, tick: u64) -> Result<(), Memory> {
    if let Some(tick) = Tick::new(tick) {
        let replica = ReplicaId::new(replica);
        vector.raise(&Version { replica, tick })?;
    }
    Ok(())
}

/// These ticks of `a` and `b`; 0 is none.
fn ticks(rt: &impl Abort, alloc: Global, a: u64, b: u64) -> ClockVector {
    let mut vector = ClockVector::new(alloc);
    raise(&mut vector, A, a).expect(rt, "memory");
    raise(&mut vector, B, b).expect(rt, "memory");
    vector
}

/// These ticks of `a` and `b`, at every place and unit; 0 is none.
fn known(rt: &impl Abort, alloc: Global, a: u64, b: u64) -> Knowledge<2> {
    let row = UnitRow::new(alloc, ticks(rt, alloc, a, b));
    Knowledge::from_segments(Segments::new(alloc, row).expect(rt, "memory"))
}

/// Deletions of `a` up to this tick; 0 is none.
fn forgotten(rt: &impl Abort, alloc: Global, tick: u64) -> Forgotten {
    let mut forgotten = Forgotten::none(alloc);
    if let Some(tick) = Tick::new(tick) {
        let replica = ReplicaId::new(A);
        let of = Version { replica, tick };
        forgotten.forget(&of).expect(rt, "memory");
    }
    forgotten
}

fn cell(rt: &impl Abort, alloc: Global, version: Version, text: &str) -> Cell {
    let value = value(rt, alloc, text);
    Cell { version, value }
}

/// Cells of the name `n` at `1@a`, and of this value and version.
fn row(rt: &impl Abort, alloc: Global, of: Version, text: &str) -> Row<2> {
    let name = cell(rt, alloc, version(rt, A, 1), "n");
    let cells = [name, cell(rt, alloc, of, text)];
    let cells = Vec::from_array(alloc, cells).expect(rt, "memory");
    let row = Row::new(alloc, cells).expect(rt, "memory");
    row.expect(rt, "a row")
}

/// The item that `a` created first, live with its value at this version, or dead by it.
fn item(rt: &impl Abort, alloc: Global, is_live: bool, of: Version) -> Item<2> {
    let id = item_id(rt, 1, A);
    let state = if is_live {
        State::Live(row(rt, alloc, of, "x"))
    } else {
        State::Dead(of)
    };
    Item { id, state }
}

/// What a class is, and of one unit by unit what units 0 and 1 are.
#[derive(Clone, Copy, PartialEq, Eq)]
enum Told {
    Known,
    Taken,
    Units(UnitClass, UnitClass),
    Conflict,
}

fn told_of(rt: &impl Abort, class: &Class<2>) -> Told {
    match class {
        Class::Known => Told::Known,
        Class::TakeWhole => Told::Taken,
        Class::Units(classes) => Told::Units(classes.get(unit(rt, 0)), classes.get(unit(rt, 1))),
        Class::WholeConflict => Told::Conflict,
    }
}

/// What the change is where the item is so, this is known, and deletions of `a` up to a tick are forgotten.
fn class_at(
    rt: &impl Abort,
    alloc: Global,
    change: &Item<2>,
    local: Option<&Item<2>>,
    made_with: &Knowledge<2>,
    known: &Knowledge<2>,
    gone: u64,
) -> Told {
    let forgotten = forgotten(rt, alloc, gone);
    let class = classify(alloc, change, made_with, local, known, &forgotten);
    drop(forgotten);
    let class = class.expect(rt, "a class");
    let told = told_of(rt, &class);
    drop(class);
    told
}

/// What a change of this version, whose source knows `a=1 b=1`, is where the item is absent.
fn absent(rt: &impl Abort, alloc: Global, of: Version, tick: u64, gone: u64) -> Told {
    let change = item(rt, alloc, LIVE, of);
    let made_with = known(rt, alloc, 1, 1);
    let known = known(rt, alloc, tick, 0);
    let told = class_at(rt, alloc, &change, None, &made_with, &known, gone);
    drop(known);
    drop(made_with);
    drop(change);
    told
}

/// The replica that made the change, the ticks of `a` that are known and forgotten, and the class.
const ABSENT: &[(u128, u64, u64, Told)] = &[
    (A, 1, 1, Told::Known),
    (A, 0, 1, Told::Taken),
    (B, 1, 1, Told::Taken),
    (B, 1, 2, Told::Conflict),
];

#[test]
fn classifies_what_is_absent(rt: HostRuntime) {
    for &(replica, tick, gone, told) in ABSENT {
        let is_so = absent(&rt, rt.alloc(), version(&rt, replica, 1), tick, gone) == told;
        assert!(rt; is_so, "{replica}");
    }
}

/// What the change is where the item is so and `a=1 b=1` is known; its source knows `a=2` and this tick of `b`.
fn class_with(rt: &impl Abort, alloc: Global, change: &Item<2>, local: &Item<2>, b: u64) -> Told {
    let made_with = known(rt, alloc, 2, b);
    let known = known(rt, alloc, 1, 1);
    let told = class_at(rt, alloc, change, Some(local), &made_with, &known, 0);
    drop(known);
    drop(made_with);
    told
}

/// What a change at `2@a`, whose source knows `a=2` and this tick of `b`, is where the item is at `1@b`; each of
/// them live or dead.
fn present(rt: &impl Abort, alloc: Global, is_live: bool, is_live_there: bool, b: u64) -> Told {
    let change = item(rt, alloc, is_live, version(rt, A, 2));
    let local = item(rt, alloc, is_live_there, version(rt, B, 1));
    let told = class_with(rt, alloc, &change, &local, b);
    drop(local);
    drop(change);
    told
}

/// Whether the change is live, whether the item is, the tick of `b` that the source knows, and the class.
const PRESENT: &[(bool, bool, u64, Told)] = &[
    (
        LIVE,
        LIVE,
        1,
        Told::Units(UnitClass::Known, UnitClass::Newer),
    ),
    (
        LIVE,
        LIVE,
        0,
        Told::Units(UnitClass::Known, UnitClass::Concurrent),
    ),
    (DEAD, LIVE, 1, Told::Taken),
    (DEAD, LIVE, 0, Told::Conflict),
    (LIVE, DEAD, 1, Told::Taken),
    (LIVE, DEAD, 0, Told::Conflict),
    (DEAD, DEAD, 1, Told::Taken),
    (DEAD, DEAD, 0, Told::Conflict),
];

#[test]
fn classifies_what_is_present(rt: HostRuntime) {
    for &(change, local, b, told) in PRESENT {
        let is_so = present(&rt, rt.alloc(), change, local, b) == told;
        assert!(rt; is_so, "{change} {local} {b}");
    }
}

/// How long the value for unit 1 is, 0 where there is none.
fn length_of(values: Option<&Vec<Value>>) -> usize {
    let Some(values) = values else {
        return 0;
    };
    match values.get(1) {
        Some(value) => value.bytes().len(),
        None => 0,
    }
}

/// The marks of a draft, and how long its value for unit 1 is; 0 where it has no values.
fn result_of(rt: &impl Abort, draft: Draft<2>) -> (Mark, Mark, usize) {
    let (name, value) = (draft.marks.get(unit(rt, 0)), draft.marks.get(unit(rt, 1)));
    let length = length_of(draft.values.as_ref());
    drop(draft);
    (name, value, length)
}

/// The classes of a conflict at unit 1; the name is known.
fn conflicting(rt: &impl Abort, alloc: Global) -> UnitClasses<2> {
    let mut classes = UnitClasses::all(alloc, UnitClass::Known).expect(rt, "classes");
    classes.put(unit(rt, 1), UnitClass::Concurrent);
    classes
}

/// What is drafted for two rows in conflict at unit 1.
fn settled_units(
    rt: &impl Abort,
    alloc: Global,
    change: &Row<2>,
    local: &Row<2>,
    keep: Keep,
) -> (Mark, Mark, usize) {
    let rules = Rules {
        keep,
        clash: ClashRule::Skip,
        merger: Longer,
    };
    let classes = conflicting(rt, alloc);
    let draft = settle_units(alloc, change, local, &classes, &rules).expect(rt, "a draft");
    drop(classes);
    drop(rules);
    result_of(rt, draft)
}

/// What is drafted for `aa` and `b` in conflict.
fn conflict(rt: &impl Abort, alloc: Global, keep: Keep) -> (Mark, Mark, usize) {
    let change = row(rt, alloc, version(rt, A, 2), "aa");
    let local = row(rt, alloc, version(rt, B, 1), "b");
    let told = settled_units(rt, alloc, &change, &local, keep);
    drop(local);
    drop(change);
    told
}

/// What is drafted for a deletion and a live item in conflict.
fn deletion(rt: &impl Abort, alloc: Global, keep: Keep) -> (Mark, Mark, usize) {
    let gone = item(rt, alloc, DEAD, version(rt, A, 2));
    let held = item(rt, alloc, LIVE, version(rt, B, 1));
    let draft = settle_whole(alloc, Some(&gone), Some(&held), keep).expect(rt, "a draft");
    drop(held);
    drop(gone);
    result_of(rt, draft)
}

/// A rule, and the mark and how long the value of unit 1 is: of two rows that are in conflict there, whose names
/// stay, and of a deletion and a live item, which have one mark at both units.
const SETTLED: &[(Keep, (Mark, usize), (Mark, usize))] = &[
    (Keep::Source, (Mark::Stamped, 2), (Mark::Stamped, 0)),
    (Keep::Destination, (Mark::Stamped, 1), (Mark::Stamped, 1)),
    (Keep::Merge, (Mark::Stamped, 2), (Mark::Stamped, 1)),
    (Keep::Skip, (Mark::Left, 1), (Mark::Left, 0)),
];

#[test]
fn settles_conflicts(rt: HostRuntime) {
    for &(keep, (mark, length), (whole, rest)) in SETTLED {
        let of_units = conflict(&rt, rt.alloc(), keep) == (Mark::Stays, mark, length);
        let of_items = deletion(&rt, rt.alloc(), keep) == (whole, whole, rest);
        assert!(rt; of_units && of_items, "{keep:?}");
    }
}

/// What is drafted for an item that is taken, after a clash.
fn clash(rt: &impl Abort, alloc: Global, rule: ClashRule) -> (Mark, Mark, usize) {
    let values = two(rt, alloc, "n", "x");
    let draft = Draft::all(alloc, Mark::Taken, Some(values)).expect(rt, "a draft");
    let copy = draft.copy(alloc).expect(rt, "a copy");
    drop(draft);
    let settled = settle_clash(alloc, copy, rule).expect(rt, "a draft");
    result_of(rt, settled)
}

/// A rule, the marks of both units and how long the value of unit 1 is.
const SETTLED_CLASHES: &[(ClashRule, (Mark, Mark, usize))] = &[
    (ClashRule::Source, (Mark::Taken, Mark::Taken, 1)),
    (ClashRule::RenameDestination, (Mark::Taken, Mark::Taken, 1)),
    (ClashRule::Destination, (Mark::Stamped, Mark::Stamped, 0)),
    (ClashRule::RenameSource, (Mark::Stamped, Mark::Taken, 1)),
    (ClashRule::Skip, (Mark::Left, Mark::Left, 0)),
];

#[test]
fn settles_clashes(rt: HostRuntime) {
    for &(rule, told) in SETTLED_CLASHES {
        let is_so = clash(&rt, rt.alloc(), rule) == told;
        assert!(rt; is_so, "{rule:?}");
    }
}

/// A clock, how many ticks are counted on, and the tick that comes of it.
const FRESH: &[(u64, u64, Result<u64, ClockFull>)] = &[
    (3, 2, Ok(5)),
    (MAX_TICK, 0, Ok(MAX_TICK)),
    (MAX_TICK - 1, 2, Err(ClockFull(MAX_TICK - 1))),
];

#[test]
fn counts_fresh_ticks(rt: HostRuntime) {
    for &(clock, count, told) in FRESH {
        let is_so = fresh(clock, count) == told;
        assert!(rt; is_so, "{clock}");
    }
}
