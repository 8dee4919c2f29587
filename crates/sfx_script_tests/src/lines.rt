//! What lines say.

use sfx_ids::ReplicaId;
use sfx_item::Value;
use sfx_model::{ClashRule, Keep};
use sfx_script::{Line, Options, parse_line};
use std::alloc::Global;
use std::process::Abort;

/// What a line says: its first word, its first name, bytes and numbers.
type Said<'a> = (&'a str, &'a str, &'a [u8], [u64; 3]);

fn last_len(values: &[Value]) -> u64 {
    match values {
        [.., last] => last.bytes().len() as u64,
        [] => 0,
    }
}

/// The first value of an item to be created, how many values it has, and how many bytes the last.
fn said_of_values<'a>(name: &'a str, values: &'a [Value]) -> Said<'a> {
    match values {
        [first, ..] => {
            let numbers = [values.len() as u64, last_len(values), 0];
            ("create", name, first.bytes(), numbers)
        }
        [] => ("create", name, b"", [0, 0, 0]),
    }
}

/// 1 for the replica with the number 10, and 0 for any other.
fn is_a(id: &ReplicaId) -> u64 {
    u64::from(id.number() == 10)
}

/// What a line about no single item says: of `units` the number, of `replica` and `files` whether the
/// replica's number is 10, and of `equal` the second name as bytes.
fn said_of_replicas(line: &Line) -> Said {
    match line {
        Line::Units { n } => ("units", "", b"", [*n, 0, 0]),
        Line::Replica { name, id } => ("replica", name.as_str(), b"", [is_a(id), 0, 0]),
        Line::Files { name, id } => ("files", name.as_str(), b"", [is_a(id), 0, 0]),
        Line::Create { replica, values } => said_of_values(replica.as_str(), values.as_slice()),
        Line::Scan { replica } => ("scan", replica.as_str(), b"", [0, 0, 0]),
        Line::Show { replica } => ("show", replica.as_str(), b"", [0, 0, 0]),
        Line::Equal { first, second } => {
            let second = second.as_str().as_bytes();
            ("equal", first.as_str(), second, [0, 0, 0])
        }
        _ => ("", "", b"", [0, 0, 0]),
    }
}

/// What a line says: of `set` the tick, the unit and the value, of `delete` whether the item is of the
/// replica 10, of `clean` whether an item is named, and of `knows` the tick, the unit and the version's tick.
fn said_of(line: &Line) -> Said {
    match line {
        Line::Set {
            replica,
            item,
            unit,
            value,
        } => {
            let numbers = [item.tick.get(), *unit, 0];
            ("set", replica.as_str(), value.bytes(), numbers)
        }
        Line::Delete { replica, item } => {
            ("delete", replica.as_str(), b"", [is_a(&item.replica), 0, 0])
        }
        Line::Clean { replica, item } => {
            let count = u64::from(item.is_some());
            ("clean", replica.as_str(), b"", [count, 0, 0])
        }
        Line::Knows {
            replica,
            item,
            unit,
            version,
        } => {
            let numbers = [item.tick.get(), *unit, version.tick.get()];
            ("knows", replica.as_str(), b"", numbers)
        }
        _ => said_of_replicas(line),
    }
}

/// Whether the line's copy says this.
fn copy_says(rt: &impl Abort, alloc: Global, line: &Line, wanted: &Said) -> bool {
    let copy = line.copy(alloc).expect(rt, "a copy");
    let is_said = said_of(&copy) == *wanted;
    drop(copy);
    is_said
}

/// The text is to be read as a line that says this.
fn expect_said(rt: &impl Abort, alloc: Global, text: &str, wanted: &Said) {
    let line = parse_line(alloc, text.as_bytes()).expect(rt, "a line");
    let is_said = copy_says(rt, alloc, &line, wanted);
    assert!(rt; is_said, "{text}");
    drop(line);
}

/// Texts, and what they say as lines.
const LINES: &[(&str, Said)] = &[
    (
        "units 18446744073709551615",
        ("units", "", b"", [18446744073709551615, 0, 0]),
    ),
    (
        "replica A_9 00000000-0000-0000-0000-00000000000a",
        ("replica", "A_9", b"", [1, 0, 0]),
    ),
    (
        "replica aaaaaaaaaaaaaaaaaaaaaaaaaaaaaaaa 0000000000000000000000000000000A",
        (
            "replica",
            "aaaaaaaaaaaaaaaaaaaaaaaaaaaaaaaa",
            b"",
            [1, 0, 0],
        ),
    ),
    (
        "files A {00000000-0000-0000-0000-00000000000A}",
        ("files", "A", b"", [1, 0, 0]),
    ),
    (
        "files A urn:uuid:00000000-0000-0000-0000-00000000000a",
        ("files", "A", b"", [1, 0, 0]),
    ),
    ("create A 1 2 3 4 5 6 7 -", ("create", "A", b"1", [8, 0, 0])),
    (
        "set A 3:00000000-0000-0000-0000-00000000000a 7 %2D",
        ("set", "A", b"-", [3, 7, 0]),
    ),
    (
        "delete A 3:00000000-0000-0000-0000-00000000000a",
        ("delete", "A", b"", [1, 0, 0]),
    ),
    ("clean A", ("clean", "A", b"", [0, 0, 0])),
    (
        "clean A 3:00000000-0000-0000-0000-00000000000a",
        ("clean", "A", b"", [1, 0, 0]),
    ),
    ("scan A", ("scan", "A", b"", [0, 0, 0])),
    ("show A", ("show", "A", b"", [0, 0, 0])),
    (
        "knows A 3:00000000-0000-0000-0000-00000000000a 0 5@00000000-0000-0000-0000-00000000000a",
        ("knows", "A", b"", [3, 0, 5]),
    ),
    ("equal A B", ("equal", "A", b"B", [0, 0, 0])),
];

#[test]
fn reads_lines(rt: HostRuntime) {
    for (text, wanted) in LINES {
        expect_said(&rt, rt.alloc(), text, wanted);
    }
}

/// Texts, and the one value that they create an item with.
const VALUES: &[(&str, &[u8])] = &[
    ("create A Buy%20milk%0A", b"Buy milk\n"),
    ("create A -", b""),
    ("create A %2D", b"-"),
    ("create A --", b"--"),
    ("create A %25", b"%"),
    ("create A ~!%C3%A9", b"~!\xC3\xA9"),
    ("create A %", b"%"),
    ("create A a%2", b"a%2"),
    ("create A %zz%41", b"%zzA"),
    ("create A %c3", b"\xC3"),
];

#[test]
fn reads_values(rt: HostRuntime) {
    for &(text, bytes) in VALUES {
        let len = bytes.len() as u64;
        expect_said(&rt, rt.alloc(), text, &("create", "A", bytes, [1, len, 0]));
    }
}

/// A session: how conflicts and clashes are settled, the entries of a batch and of a group, those after which
/// it is cut, and whether it is traced.
type Session = (Keep, ClashRule, u64, u64, Option<u64>, bool);

/// Whether the options are those of the session.
fn are_of(options: &Options, session: &Session) -> bool {
    options.batch == session.2
        && options.group == session.3
        && options.cut == session.4
        && options.trace == session.5
}

/// Whether the line runs the session from `A`.
fn is_session(line: &Line, wanted: &Session) -> bool {
    match line {
        Line::Sync {
            source,
            destination: _destination,
            keep,
            clash,
            options,
        } => {
            let is_ruled = *keep == wanted.0 && *clash == wanted.1;
            source.as_str() == "A" && is_ruled && are_of(options, wanted)
        }
        _ => false,
    }
}

/// The text is to be read as the session from `A`.
fn expect_session(rt: &impl Abort, alloc: Global, text: &str, wanted: &Session) {
    let line = parse_line(alloc, text.as_bytes()).expect(rt, "a line");
    let is_session = is_session(&line, wanted);
    assert!(rt; is_session, "{text}");
    drop(line);
}

/// Texts, and the sessions that they run.
const SESSIONS: &[(&str, Session)] = &[
    (
        "sync A B keep=source clash=source",
        (Keep::Source, ClashRule::Source, 100, 1, None, false),
    ),
    (
        "sync A B keep=destination clash=destination trace",
        (
            Keep::Destination,
            ClashRule::Destination,
            100,
            1,
            None,
            true,
        ),
    ),
    (
        "sync A B keep=merge clash=rename-source batch=10000",
        (Keep::Merge, ClashRule::RenameSource, 10000, 1, None, false),
    ),
    (
        "sync A B keep=skip clash=rename-destination group=2 cut=1",
        (
            Keep::Skip,
            ClashRule::RenameDestination,
            100,
            2,
            Some(1),
            false,
        ),
    ),
    (
        "sync A B keep=skip clash=skip batch=1 group=10000 cut=1000000000 trace",
        (
            Keep::Skip,
            ClashRule::Skip,
            1,
            10000,
            Some(1_000_000_000),
            true,
        ),
    ),
];

#[test]
fn reads_options(rt: HostRuntime) {
    for (text, wanted) in SESSIONS {
        expect_session(&rt, rt.alloc(), text, wanted);
    }
}
