//! Sources, sinks and texts, and what is read and written in pieces.
use sfx_outside::{
    MemorySink, MemorySource, ReadFault, SinkFault, StdSink, StdSource, Text, read_to_end,
    write_all,
};
use std::alloc::Global;
use std::io;
use std::io::{ErrorKind, Read, Write};
use std::process::Abort;

const TEXT: &[u8] = b"create";

/// How many bytes are read, or the fault; 0 where they are not the text from this place on.
fn count_read(
    alloc: Global,
    input: &mut MemorySource,
    limit: usize,
    from: usize,
) -> Result<usize, ReadFault> {
    let bytes = read_to_end(alloc, input, limit)?;
    let is_text = TEXT.get(from..) == Some(bytes.as_slice());
    let count = if is_text { bytes.len() } else { 0 };
    drop(bytes);
    Ok(count)
}

fn write_text(out: &mut MemorySink) -> Result<(), SinkFault> {
    write_all(out, b"cre")?;
    write_all(out, b"")?;
    write_all(out, b"ate")
}

fn source(rt: &impl Abort, alloc: Global, piece: usize, fails: &[u64]) -> MemorySource {
    let bytes = Vec::from_slice(alloc, TEXT).expect(rt, "memory");
    let fails = Vec::from_slice(alloc, fails).expect(rt, "memory");
    MemorySource::new(bytes, piece.max(1), fails)
}

/// The size of pieces, how many bytes may be read, and what is told of reading.
const READ: &[(usize, usize, Result<usize, ReadFault>)] = &[
    (1, 6, Ok(6)),
    (2, 6, Ok(6)),
    (1000, 6, Ok(6)),
    (4, 5, Err(ReadFault::TooLong)),
];

/// What is told of reading the text in pieces of this size.
fn read_by(rt: &impl Abort, alloc: Global, piece: usize, limit: usize) -> Result<usize, ReadFault> {
    let mut input = source(rt, alloc, piece, &[]);
    let told = count_read(alloc, &mut input, limit, 0);
    drop(input);
    told
}

#[test]
fn reads_to_the_end(rt: HostRuntime) {
    for &(piece, limit, told) in READ {
        let is_so = read_by(&rt, rt.alloc(), piece, limit) == told;
        assert!(rt; is_so, "by {piece}");
    }
}

/// What is told of reading in pieces of two bytes where the first and the third call fail.
fn read_thrice(rt: &impl Abort, alloc: Global) -> [Result<usize, ReadFault>; 3] {
    let mut input = source(rt, alloc, 2, &[1, 3]);
    let first = count_read(alloc, &mut input, 6, 0);
    let second = count_read(alloc, &mut input, 6, 0);
    let third = count_read(alloc, &mut input, 6, 2);
    drop(input);
    [first, second, third]
}

#[test]
fn goes_on_after_a_failed_read(rt: HostRuntime) {
    let failed = Err(ReadFault::Failed);
    assert!(rt; read_thrice(&rt, rt.alloc()) == [failed, failed, Ok(4)]);
}

/// What is told of writing the text, and whether the sink holds these bytes then.
fn written(out: &mut MemorySink, held: &[u8]) -> (Result<(), SinkFault>, bool) {
    let told = write_text(out);
    (told, out.held() == held)
}

#[test]
fn writes_whole_pieces(rt: HostRuntime) {
    let fails = Vec::from_slice(rt.alloc(), &[2]).expect(&rt, "memory");
    let mut out = MemorySink::new(rt.alloc(), fails);
    assert!(rt; written(&mut out, b"cre") == (Err(SinkFault::Failed), true));
    assert!(rt; written(&mut out, b"crecreate") == (Ok(()), true));
    drop(out);
}

fn text_of(rt: &impl Abort, alloc: Global, text: &str) -> Text {
    Text::new(String::from_str(alloc, text).expect(rt, "memory"))
}

/// Whether a copy of the first text has its characters, equals it, and not the second.
fn copied(rt: &impl Abort, alloc: Global, text: &str, other: &str) -> (bool, bool, bool) {
    let first = text_of(rt, alloc, text);
    let second = text_of(rt, alloc, other);
    let copy = first.copy(alloc).expect(rt, "a copy");
    let told = (copy.as_str() == text, first == copy, first == second);
    drop(copy);
    drop(second);
    drop(first);
    told
}

#[test]
fn keeps_texts(rt: HostRuntime) {
    let told = copied(&rt, rt.alloc(), "\u{E9}1", "\u{E9}2");
    assert!(rt; told == (true, true, false));
}

/// Gives a byte a call, but a signal comes before the first and the third call fails.
#[derive(Drop)]
struct FlakyReader {
    calls: u8,
}

impl Read for FlakyReader {
    fn read(&mut self, buf: &mut [u8]) -> io::Result<usize> {
        self.calls = self.calls.saturating_add(1);
        match (self.calls, buf) {
            (1, _) => Err(ErrorKind::Interrupted.into()),
            (3, _) => Err(ErrorKind::Other.into()),
            (2 | 4, [first, ..]) => {
                *first = self.calls;
                Ok(1)
            }
            _ => Ok(0),
        }
    }
}

/// What the input that gives these bytes tells: the fault, if any, and how many there were until then.
fn flaky_read(
    alloc: Global,
    input: &mut StdSource<FlakyReader>,
    wanted: &[u8],
) -> (Result<bool, ReadFault>, u64) {
    let read = read_to_end(alloc, input, 9);
    let told = match &read {
        Ok(bytes) => Ok(bytes.as_slice() == wanted),
        Err(fault) => Err(*fault),
    };
    drop(read);
    (told, input.faults())
}

#[test]
fn counts_a_failed_read(rt: HostRuntime) {
    let mut input = StdSource::new(FlakyReader { calls: 0 });
    let first = flaky_read(rt.alloc(), &mut input, &[4]);
    assert!(rt; first == (Err(ReadFault::Failed), 1));
    let second = flaky_read(rt.alloc(), &mut input, &[4]);
    assert!(rt; second == (Ok(true), 1));
    drop(input);
}

/// Takes a byte a call, but a signal comes before the first. The flush after the fourth call fails, and the
/// fifth call takes nothing.
#[derive(Drop)]
struct FlakyWriter {
    calls: u8,
    taken: Vec<u8>,
}

impl Write for FlakyWriter {
    fn write(&mut self, buf: &[u8]) -> io::Result<usize> {
        self.calls = self.calls.saturating_add(1);
        match (self.calls, buf) {
            (1, _) => Err(ErrorKind::Interrupted.into()),
            (5, _) | (_, []) => Ok(0),
            (_, [first, ..]) => {
                self.taken.push(*first)?;
                Ok(1)
            }
        }
    }

    fn flush(&mut self) -> io::Result<()> {
        if self.calls == 4 {
            return Err(ErrorKind::Other.into());
        }
        Ok(())
    }
}

/// What is told of writing the bytes, and how many faults there were until then.
fn flaky_write(out: &mut StdSink<FlakyWriter>, bytes: &[u8]) -> (Result<(), SinkFault>, u64) {
    let told = write_all(out, bytes);
    (told, out.faults())
}

/// Bytes that are written in turn, and what is told of them.
const FLAKY: &[(&[u8], (Result<(), SinkFault>, u64))] = &[
    (b"ab", (Ok(()), 0)),
    (b"cd", (Err(SinkFault::Failed), 1)),
    (b"cd", (Err(SinkFault::Failed), 2)),
    (b"ef", (Ok(()), 2)),
];

#[test]
fn counts_a_failed_write(rt: HostRuntime) {
    let calls = 0;
    let taken = Vec::new(rt.alloc());
    let mut out = StdSink::new(FlakyWriter { calls, taken });
    for &(bytes, told) in FLAKY {
        let is_so = flaky_write(&mut out, bytes) == told;
        assert!(rt; is_so, "{bytes:?}");
    }
    let is_taken = out.writer().taken.as_slice() == b"abcef".as_slice();
    assert!(rt; is_taken);
    drop(out);
}

#[test]
fn writes_to_standard_output(rt: HostRuntime) {
    let mut out = StdSink::new(rt.stdout());
    write_all(&mut out, b"a line of standard output\n").expect(&rt, "standard output");
    drop(out);
}
