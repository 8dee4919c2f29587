ghost use Rattle.std.specs.Prelude.{◌≡◌, ℕ, Some, Err, IfOk, IfErr, IsSome, option_and_then, option_map};
ghost use Rattle.sfx_script.specs.Faults.{IsLineFault};
ghost use Rattle.sfx_script.specs.Grammar.{line_kind};
ghost use Rattle.sfx_script.specs.Limits.{IsLimited};
ghost use Rattle.sfx_script.specs.Reading.{Answers, line_of, reading_of};
ghost use Rattle.sfx_script.specs.Wrong.{wrong_at};
ghost use Rattle.sfx_script.specs.declared.line_fault.LineFault.TheVariants as line_faults;

use crate::kind::Kind;
use crate::line::Line;
use crate::line_fault::LineFault;
use crate::line_words::kind_line;
use crate::word::text_of;
use crate::words::Words;
use std::alloc::Global;

/// The line that these bytes are. Its numbers are within their limits.
///
/// # Errors
/// `Syntax` exactly where they are none, with the least index at which they go wrong: a byte that is neither a
/// blank nor a printable character of ASCII at its index, an empty word where it would stand, an unknown first
/// word at 0, a word that has not its form at its first byte, or behind the longest prefix that begins an item's
/// or a version's text where it must be one, a word too many at its first byte, a word too few at the length of
/// the line. `Memory` where an allocation was refused.
pub fn parse_line(alloc: Global, line: &[u8]) -> Result<Line, LineFault>
    ensures ok { IfOk result (λ read. line_of line.now ≡ Some read) }
    ensures limits { IfOk result IsLimited }
    ensures err { IfErr result (λ fault. IsLineFault line.now fault) }
    ensures place { (at : ℕ) → result ≡ Err (line_faults.Syntax at) → wrong_at line.now ≡ Some at }
    ensures whole { IsSome (line_of line.now) → IfErr result (λ fault. fault ≡ line_faults.Memory) }
{
    read_line(alloc, line)
}

/// The line that these bytes are, read word by word.
fn read_line(alloc: Global, line: &[u8]) -> Result<Line, LineFault>
    ensures { Answers result (reading_of line.now) }
{
    let mut words = Words::new(line);
    let first = words.word()?;
    match kind_of(first.text) {
        Some(kind) => kind_line(alloc, kind, &mut words),
        None => Err(LineFault::Syntax(0)),
    }
}

/// The kind of line that begins with the word.
fn kind_of(word: &[u8]) -> Option<Kind>
    ensures { result ≡ line_kind word.now }
{
    Kind::of(text_of(word)?)
}
