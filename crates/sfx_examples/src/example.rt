ghost use Rattle.std.specs.Prelude.{◌≡◌, ◌↔◌, None};

use sfx_community::State;
use sfx_outside::{MemorySink, SinkFault};
use sfx_run::play;
use std::alloc::Global;
use std::io;

/// What stands before a reply. For the program that is a comment, so an example is a script that it plays.
const MARK: &str = "#> ";

/// The example as it is played: its lines but for the replies, each with the replies that come of it.
pub fn replayed(alloc: Global, example: &str) -> io::Result<String> {
    let mut state = State::new();
    let mut played = String::new(alloc);
    for line in example.lines() {
        if !line.starts_with(MARK) {
            add_line(&mut played, "", line)?;
            add_replies(alloc, &mut state, line, &mut played)?;
        }
    }
    Ok(played)
}

/// Plays a line, and adds its replies.
fn add_replies(
    alloc: Global,
    state: &mut State,
    line: &str,
    played: &mut String,
) -> io::Result<()> {
    let mut out = MemorySink::new(alloc, Vec::new(alloc));
    match play(alloc, state, line.as_bytes(), &mut out) {
        Ok(_) => {}
        Err(SinkFault::Memory | SinkFault::Failed) => return Err(io::ErrorKind::OutOfMemory.into()),
    }
    let Ok(replies) = str::from_utf8(out.held()) else {
        return Err(io::ErrorKind::InvalidData.into());
    };
    for reply in replies.lines() {
        add_line(played, MARK, reply)?;
    }
    Ok(())
}

/// Adds a line behind a mark.
fn add_line(played: &mut String, mark: &str, line: &str) -> io::Result<()> {
    played.push_str(mark)?;
    played.push_str(line)?;
    played.push('\n')?;
    Ok(())
}

/// The index of the first line at which two texts differ; none exactly where they are the same.
pub fn difference(one: &str, other: &str) -> Option<usize>
    ensures { (result ≡ None) ↔ (one.now ≡ other.now) }
{
    if one == other {
        return None;
    }
    let same = one
        .lines()
        .zip(other.lines())
        .take_while(|pair| pair.0 == pair.1);
    Some(same.count())
}
