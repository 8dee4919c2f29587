//! Where bytes that are no line go wrong.

use sfx_script::{LineFault, parse_line};
use std::alloc::Global;
use std::process::Abort;

/// Each row, bytes and where they go wrong as a line, is to be so.
fn expect_faults(rt: &impl Abort, alloc: Global, rows: &[(&[u8], usize)]) {
    for &(line, at) in rows {
        let is_so = parse_line(alloc, line).err() == Some(LineFault::Syntax(at));
        assert!(rt; is_so, "{line:?}");
    }
}

/// Bytes that are no line, and where they go wrong.
const LINES: &[(&[u8], usize)] = &[
    (b"", 0),
    (b"# x", 0),
    (b"creat A x", 0),
    (b"show  A", 5),
    (b"show A ", 7),
    (b" show A", 0),
    (b"show", 4),
    (b"show A B", 7),
    (b"show A B\x01", 7),
    (b"show A\x01", 5),
    (b"sh\x01w A", 0),
    (b"create A x\x01", 10),
    (b"create A \xC3\xA9", 9),
    (b"create A x\x7F y  z", 10),
    (b"show \xE9", 5),
    (b"show A-B", 5),
    (b"show aaaaaaaaaaaaaaaaaaaaaaaaaaaaaaaaa", 5),
    (b"units", 5),
    (b"units 02", 6),
    (b"units +2", 6),
    (b"units 18446744073709551616", 6),
    (b"units 2 2", 8),
    (b"replica A 0000", 10),
    (b"files A", 7),
    (b"create A", 8),
    (b"create A 1 2 3 4 5 6 7 8 9", 25),
    (b"set A 12 0 v", 8),
    (b"set A 12", 8),
    (b"set A 1:00000000-0000-0000-0000-00000000000a x v", 45),
    (b"set A 1:00000000-0000-0000-0000-00000000000a 0", 46),
    (b"delete A 1@", 10),
    (b"delete A 1\xFF", 10),
    (b"delete A 1:00000000-0000-0000-0000-00000000000a\xFF", 47),
    (b"clean A 12", 10),
    (b"clean A 1:00000000-0000-0000-0000-00000000000a x", 47),
    (b"scan", 4),
    (
        b"knows A 01:00000000-0000-0000-0000-00000000000a 0 1@00000000-0000-0000-0000-00000000000a",
        8,
    ),
    (
        b"knows A 1:00000000-0000-0000-0000-00000000000a 0 1:00000000-0000-0000-0000-00000000000a",
        50,
    ),
    (b"equal A", 7),
    (b"equal A B C", 10),
];

#[test]
fn says_where_a_line_goes_wrong(rt: HostRuntime) {
    expect_faults(&rt, rt.alloc(), LINES);
}

/// Bytes that are no session, and where they go wrong.
const SESSIONS: &[(&[u8], usize)] = &[
    (b"sync A B keep=none clash=skip", 9),
    (b"sync A B clash=skip keep=skip", 9),
    (b"sync A B keep=skip clash=rename", 19),
    (b"sync A B keep=skip", 18),
    (b"sync A B keep=skip clash=skip group=2 batch=3", 38),
    (b"sync A B keep=skip clash=skip batch=3 batch=3", 38),
    (b"sync A B keep=skip clash=skip batch=0", 30),
    (b"sync A B keep=skip clash=skip batch=10001", 30),
    (b"sync A B keep=skip clash=skip batch=03", 30),
    (b"sync A B keep=skip clash=skip batch=", 30),
    (b"sync A B keep=skip clash=skip cut=1000000001", 30),
    (b"sync A B keep=skip clash=skip trace trace", 36),
    (b"sync A B keep=skip clash=skip trace cut=1", 36),
    (b"sync A B keep=skip clash=skip trace=1", 30),
    (
        b"sync A B keep=skip clash=skip batch=9 group=1 cut=5 trace x",
        58,
    ),
];

#[test]
fn says_where_a_session_goes_wrong(rt: HostRuntime) {
    expect_faults(&rt, rt.alloc(), SESSIONS);
}
