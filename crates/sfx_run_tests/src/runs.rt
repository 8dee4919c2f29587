//! Runs of small scripts whose input comes in pieces, whose ends fail, or whose input is at the limit.
use sfx_outside::{MemorySink, MemorySource};
use sfx_run::{MAX_INPUT, Status, run};
use std::alloc::{AllocError, Global};
use std::process::Abort;

/// Which end of a run fails, at its first call.
#[derive(Clone, Copy)]
enum Failing {
    Neither,
    Input,
    Output,
}

/// What a run is given: the words behind the program's name, the input and how many bytes of it a read gives at
/// most, and which end fails.
#[derive(Drop)]
struct Given<'a> {
    words: &'a [&'a str],
    input: &'a [u8],
    piece: usize,
    failing: Failing,
}

/// How a run ended, and what it wrote.
#[derive(Drop)]
struct Ran {
    status: Status,
    out: MemorySink,
}

/// The words, each a text of its own.
fn owned(alloc: Global, words: &[&str]) -> Result<Vec<String>, AllocError> {
    let mut texts = Vec::new(alloc);
    for word in words {
        texts.push(String::from_str(alloc, word)?)?;
    }
    Ok(texts)
}

/// The numbers of the calls of an end that fail: the first, or none.
fn failing_calls(alloc: Global, fails: bool) -> Result<Vec<u64>, AllocError> {
    let mut calls = Vec::new(alloc);
    if fails {
        calls.push(1)?;
    }
    Ok(calls)
}

/// The input that is given.
fn input(alloc: Global, given: &Given<'_>) -> Result<MemorySource, AllocError> {
    let bytes = Vec::from_slice(alloc, given.input)?;
    let fails = failing_calls(alloc, matches!(given.failing, Failing::Input))?;
    Ok(MemorySource::new(bytes, given.piece.max(1), fails))
}

/// Runs the program on what is given.
fn run_on(alloc: Global, given: &Given<'_>) -> Result<Ran, AllocError> {
    let words = owned(alloc, given.words)?;
    let mut input = input(alloc, given)?;
    let fails = failing_calls(alloc, matches!(given.failing, Failing::Output))?;
    let mut out = MemorySink::new(alloc, fails);
    let status = run(alloc, &words, &mut input, &mut out);
    Ok(Ran { status, out })
}

/// The run of what is given is to end with this status, and to write these replies.
fn expect_run(rt: &impl Abort, alloc: Global, given: &Given<'_>, status: Status, replies: &[u8]) {
    let ran = run_on(alloc, given).expect(rt, "memory");
    assert_eq!(rt; ran.out.held(), replies);
    assert_eq!(rt; ran.status, status);
}

/// A script in which the replies to a line stand below it, behind `#> `; and how its run ends.
#[derive(Drop)]
struct Example {
    script: &'static str,
    status: Status,
}

/// The replies of an example, a line each.
fn replies_of(alloc: Global, script: &str) -> Result<String, AllocError> {
    let mut replies = String::new(alloc);
    for line in script.lines() {
        if let Some(reply) = line.strip_prefix("#> ") {
            replies.push_str(reply)?;
            replies.push('\n')?;
        }
    }
    Ok(replies)
}

const EXAMPLES: &[Example] = &[
    Example {
        script: "",
        status: Status::Done,
    },
    Example {
        script: "# a comment\n\nunits 2\n#> ok\n",
        status: Status::Done,
    },
    Example {
        script: "units 2\n#> ok\nunits 2\n#> no UnitsSet\n",
        status: Status::Refused,
    },
    Example {
        script: "\
units 2
#> ok
replica A 00000000-0000-0000-0000-00000000000a
#> ok
replica B 00000000-0000-0000-0000-00000000000b
#> ok
create A n1 x
#> ok 1:00000000-0000-0000-0000-00000000000a
sync A B keep=skip clash=skip
#> batch normal start end changes=1
#> took 1:00000000-0000-0000-0000-00000000000a tt
#> done batches=1 entries=1
equal A B
#> knowledge=yes items=yes
",
        status: Status::Done,
    },
];

/// Inputs that come in small pieces and in larger ones.
#[test]
fn answers_whatever_the_pieces(rt: HostRuntime) {
    for example in EXAMPLES {
        let replies = replies_of(rt.alloc(), example.script).expect(&rt, "memory");
        for piece in [1, 3, 7, 65_536] {
            let given = Given {
                words: &["play"],
                input: example.script.as_bytes(),
                piece,
                failing: Failing::Neither,
            };
            expect_run(&rt, rt.alloc(), &given, example.status, replies.as_bytes());
        }
    }
}

#[test]
fn answers_a_last_line_without_its_end(rt: HostRuntime) {
    let given = Given {
        words: &["play"],
        input: b"units 2\nunits 3",
        piece: 3,
        failing: Failing::Neither,
    };
    let replies = b"ok\nno BadUnits(3)\n";
    expect_run(&rt, rt.alloc(), &given, Status::Refused, replies);
}

#[test]
fn tells_of_a_failing_output(rt: HostRuntime) {
    let given = Given {
        words: &["play"],
        input: b"units 3\n",
        piece: 3,
        failing: Failing::Output,
    };
    expect_run(&rt, rt.alloc(), &given, Status::SinkFault, b"");
}

#[test]
fn tells_of_a_failing_input(rt: HostRuntime) {
    let given = Given {
        words: &["play"],
        input: b"units 2\n",
        piece: 3,
        failing: Failing::Input,
    };
    expect_run(&rt, rt.alloc(), &given, Status::SourceFault, b"");
}

/// Words that are no command.
const NO_COMMANDS: &[&[&str]] = &[&[], &["play", "x"]];

#[test]
fn refuses_other_words(rt: HostRuntime) {
    for words in NO_COMMANDS {
        let given = Given {
            words,
            input: b"units 2\n",
            piece: 3,
            failing: Failing::Neither,
        };
        expect_run(&rt, rt.alloc(), &given, Status::Usage, b"");
    }
}

/// The run of so many bytes `#` is to end with this status, and to write nothing.
fn expect_comment(rt: &impl Abort, alloc: Global, bytes: usize, status: Status) {
    let input = vec![in alloc; b'#'; bytes].expect(rt, "memory");
    let given = Given {
        words: &["play"],
        input: input.as_slice(),
        piece: 65_536,
        failing: Failing::Neither,
    };
    expect_run(rt, alloc, &given, status, b"");
}

#[test]
fn takes_inputs_up_to_the_limit(rt: HostRuntime) {
    expect_comment(&rt, rt.alloc(), MAX_INPUT, Status::Done);
    expect_comment(&rt, rt.alloc(), MAX_INPUT + 1, Status::TooLong);
}
