//! How values and vectors are printed.

use sfx_ids::{ReplicaId, Tick, Version};
use sfx_item::Value;
use sfx_script::{write_value, write_vector};
use sfx_vector::ClockVector;
use std::alloc::Global;
use std::process::Abort;

/// Whether these bytes are printed so behind other bytes.
fn prints_as(rt: &impl Abort, alloc: Global, bytes: &[u8], word: &[u8]) -> bool {
    let value = Value::new(Vec::from_slice(alloc, bytes).expect(rt, "memory"));
    let mut out = Vec::from_slice(alloc, b"=").expect(rt, "memory");
    write_value(&mut out, &value).expect(rt, "memory");
    drop(value);
    let is_so = out.as_slice().get(1..) == Some(word);
    drop(out);
    is_so
}

/// Words, and the bytes that are printed so.
const WORDS: &[(&str, &[u8])] = &[
    ("Buy%20milk%0A", b"Buy milk\n"),
    ("-", b""),
    ("%2D", b"-"),
    ("--", b"--"),
    ("%25", b"%"),
    ("~!%C3%A9", b"~!\xC3\xA9"),
];

#[test]
fn prints_values(rt: HostRuntime) {
    for &(word, bytes) in WORDS {
        let is_so = prints_as(&rt, rt.alloc(), bytes, word.as_bytes());
        assert!(rt; is_so, "{word}");
    }
}

/// Whether `x` and the byte are printed as `x` and the byte's escape.
fn is_escaped(rt: &impl Abort, alloc: Global, byte: u8) -> bool {
    let escaped = format!(in alloc; "x%{byte:02X}").expect(rt, "memory");
    let is_so = prints_as(rt, alloc, &[b'x', byte], escaped.as_bytes());
    drop(escaped);
    is_so
}

/// Each byte is to be escaped where it is a control character, a blank, `%` or not ASCII, and to be printed as
/// it is elsewhere.
#[test]
fn escapes_bytes(rt: HostRuntime) {
    for byte in 0..=255u8 {
        let is_right = if byte <= 0x20 || byte == 0x25 || byte >= 0x7F {
            is_escaped(&rt, rt.alloc(), byte)
        } else {
            prints_as(&rt, rt.alloc(), &[b'x', byte], &[b'x', byte])
        };
        assert!(rt; is_right, "{byte}");
    }
}

fn version(rt: &impl Abort, replica: u128, tick: u64) -> Version {
    Version {
        replica: ReplicaId::new(replica),
        tick: Tick::new(tick).expect(rt, "a tick"),
    }
}

/// The text of an empty vector, and of the one that is raised to `b=9` and `a=40`.
fn printed(rt: &impl Abort, alloc: Global) -> Vec<u8> {
    let mut out = Vec::new(alloc);
    let mut vector = ClockVector::new(alloc);
    write_vector(&mut out, &vector).expect(rt, "memory");
    vector.raise(&version(rt, 11, 9)).expect(rt, "memory");
    vector.raise(&version(rt, 10, 40)).expect(rt, "memory");
    write_vector(&mut out, &vector).expect(rt, "memory");
    drop(vector);
    out
}

const PRINTED: &str =
    "-00000000-0000-0000-0000-00000000000a=40,00000000-0000-0000-0000-00000000000b=9";

#[test]
fn prints_vectors(rt: HostRuntime) {
    let out = printed(&rt, rt.alloc());
    assert!(rt; out.as_slice() == PRINTED.as_bytes());
    drop(out);
}
