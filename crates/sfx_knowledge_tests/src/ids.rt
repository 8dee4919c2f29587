//! Texts of ids, versions and cuts on literals.

use crate::fixtures::{A, item_of};
use sfx_ids::{
    Cut, ItemId, ReplicaId, in_range, parse_cut, parse_item, parse_replica, parse_replica_exact,
    parse_version, write_cut, write_item, write_replica, write_version,
};
use std::alloc::Global;
use std::process::Abort;

/// Texts, whether each is one of the replica `a`, and whether it is its exact text.
const REPLICAS: &[(&str, bool, bool)] = &[
    ("00000000-0000-0000-0000-00000000000a", true, true),
    ("0000000000000000000000000000000A", true, false),
    ("{00000000-0000-0000-0000-00000000000a}", true, false),
    ("urn:uuid:00000000-0000-0000-0000-00000000000a", true, false),
    ("00000000-0000-0000-0000-00000000000A", true, false),
    ("a", false, false),
];

/// The replica `a`, or none.
fn a_if(is_a: bool) -> Option<ReplicaId> {
    if is_a { Some(ReplicaId::new(A)) } else { None }
}

#[test]
fn reads_replicas(rt: HostRuntime) {
    for &(text, is_read, is_exact) in REPLICAS {
        let read = parse_replica(text) == a_if(is_read);
        let exact = parse_replica_exact(text) == a_if(is_exact);
        assert!(rt; read && exact, "{text}");
    }
}

/// Where the text goes wrong as an item's.
fn item_fault(text: &str) -> Option<usize> {
    match parse_item(text) {
        Ok(_) => None,
        Err(bad) => Some(bad.at),
    }
}

/// Texts, and where each goes wrong as an item's.
const ITEM_FAULTS: &[(&str, usize)] = &[
    ("", 0),
    ("01:00000000-0000-0000-0000-00000000000a", 0),
    ("12", 2),
    ("1@", 1),
    ("9223372036854775808:", 18),
    ("1:00000000_", 10),
    ("1:00000000-0000-0000-0000-00000000000A", 37),
    ("1:00000000-0000-0000-0000-00000000000a ", 38),
];

#[test]
fn says_where_an_item_goes_wrong(rt: HostRuntime) {
    for &(text, at) in ITEM_FAULTS {
        let is_so = item_fault(text) == Some(at);
        assert!(rt; is_so, "{text}");
    }
    let item = parse_item("1:00000000-0000-0000-0000-00000000000a");
    assert!(rt; item == Ok(item_of(&rt, 1, A)));
}

/// Where the text goes wrong as a version's.
fn version_fault(text: &str) -> Option<usize> {
    match parse_version(text) {
        Ok(_) => None,
        Err(bad) => Some(bad.at),
    }
}

/// Texts, and where each goes wrong as a version's.
const VERSION_FAULTS: &[(&str, usize)] = &[
    ("12", 2),
    ("1:", 1),
    ("9223372036854775808@", 18),
    ("-1@", 0),
];

#[test]
fn says_where_a_version_goes_wrong(rt: HostRuntime) {
    for &(text, at) in VERSION_FAULTS {
        let is_so = version_fault(text) == Some(at);
        assert!(rt; is_so, "{text}");
    }
    let version = parse_version("9223372036854775807@00000000-0000-0000-0000-00000000000a");
    assert!(rt; version == Ok(item_of(&rt, 9223372036854775807, A).creation()));
}

/// The texts of the item, of its replica and version, and of cuts.
fn written(rt: &impl Abort, alloc: Global, one: &ItemId) -> Vec<u8> {
    let mut out = Vec::new(alloc);
    write_replica(&mut out, &one.replica).expect(rt, "memory");
    write_item(&mut out, one).expect(rt, "memory");
    write_version(&mut out, &one.creation()).expect(rt, "memory");
    for cut in [Cut::Start, Cut::At(*one), Cut::After(*one), Cut::End] {
        write_cut(&mut out, &cut).expect(rt, "memory");
    }
    out
}

/// The replica, the item, the version and the cuts in a row.
const WRITTEN: &str =
    "00000000-0000-0000-0000-00000000000a1:00000000-0000-0000-0000-00000000000a1@00000000-0000-0000-0000-00000000000astartat 1:00000000-0000-0000-0000-00000000000aafter 1:00000000-0000-0000-0000-00000000000aend";

#[test]
fn writes_texts(rt: HostRuntime) {
    let out = written(&rt, rt.alloc(), &item_of(&rt, 1, A));
    assert!(rt; out.as_slice() == WRITTEN.as_bytes());
    drop(out);
}

/// Whether texts of cuts in order are read as cuts in order.
fn are_cuts_in_order() -> bool {
    let cuts = [
        parse_cut("start"),
        parse_cut("at 1:00000000-0000-0000-0000-00000000000b"),
        parse_cut("after 1:00000000-0000-0000-0000-00000000000b"),
        parse_cut("at 2:00000000-0000-0000-0000-00000000000a"),
        parse_cut("end"),
    ];
    cuts.is_sorted()
}

#[test]
fn orders_cuts(rt: HostRuntime) {
    assert!(rt; are_cuts_in_order());
    assert!(rt; parse_cut("at").is_none());
}

/// Whether the item is in the range of its own place alone, and in that of all places before it.
fn in_ranges(one: &ItemId) -> (bool, bool) {
    let place = Cut::At(*one);
    (
        in_range(one, &place, &Cut::After(*one)),
        in_range(one, &Cut::Start, &place),
    )
}

#[test]
fn a_range_begins_at_its_first_cut(rt: HostRuntime) {
    assert!(rt; in_ranges(&item_of(&rt, 1, A)) == (true, false));
}
