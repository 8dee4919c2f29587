//! `syncfx`: a synchronization runtime. `syncfx play` runs a script from standard input.
#![tactic(auto)]

use sfx_outside::{StdSink, StdSource};
use sfx_run::{Status, run};
use std::io::ErrorKind;
use std::process::ExitCode;
use std::{env, io};

fn main(rt: HostRuntime) -> ExitCode {
    let status = status_of(&rt);
    if let Some(message) = status.message() {
        // Where standard error fails, nobody is left to be told.
        let _told = eprintln!(rt; "{message}");
    }
    ExitCode::from(status.number())
}

/// Runs the program with the words and the ends of the process. Words that are no text are no command.
fn status_of(rt: &HostRuntime) -> Status {
    let words = match arguments(rt) {
        Ok(words) => words,
        Err(error) if error.kind() == ErrorKind::OutOfMemory => return Status::Memory,
        Err(_) => return Status::Usage,
    };
    let mut input = StdSource::new(rt.stdin());
    let mut out = StdSink::new(rt.stdout());
    run(rt.alloc(), &words, &mut input, &mut out)
}

/// The words behind the program's name.
fn arguments(rt: &HostRuntime) -> io::Result<Vec<String>> {
    let words = env::args(rt)?.skip(1).collect(rt.alloc())?;
    Ok(words)
}
