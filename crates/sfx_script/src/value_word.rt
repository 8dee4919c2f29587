//! Words that stand for values, and the texts of values.
ghost use Rattle.std.specs.Prelude.{◌≡◌, ◌+◌, ◌<◌, ◌^◌, ◌++◌, length, OnOk, OnErr};
ghost use Rattle.sfx_script.specs.Grammar.{value};
ghost use Rattle.sfx_script.specs.Reading.{Answers, formed, placed_word};
ghost use Rattle.sfx_script.specs.Word.{printed, value_of};

use crate::line_fault::LineFault;
use crate::word::printable_len;
use crate::words::Word;
use percent_encoding::percent_decode;
use sfx_item::Value;
use std::alloc::Global;

/// The value that the word stands for. It goes wrong at its first byte that may not stand in a line, or at its
/// begin where it is empty.
pub fn value_in(alloc: Global, word: &Word<'_>) -> Result<Value, LineFault>
    requires { word.now.at + length word.now.text.now < 2 ^ 64 }
    ensures { Answers result (formed value (placed_word word.now) (printed value_of word.now.text.now)) }
{
    let len = printable_len(word.text);
    if len == 0 || len < word.text.len() {
        return Err(LineFault::Syntax(word.at + len));
    }
    let mut bytes = Vec::new(alloc);
    if word.text != b"-".as_slice() {
        percent_decode(word.text).append_to(&mut bytes)?;
    }
    Ok(Value::new(bytes))
}
