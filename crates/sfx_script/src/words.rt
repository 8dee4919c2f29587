//! The words of a line, read from left to right.
ghost use Rattle.std.specs.Prelude.{◌≡◌, ◌≤◌, ◌<◌, ◌+◌, ◌^◌, [], ◌∷◌, length, option_map, Some, Ok, IfSome, IfOk, IfErr};
ghost use Rattle.std.specs.List.{position_or_len};
ghost use Rattle.sfx_script.specs.Grammar.{batch, clash, cut, group, item, keep, name, number, trace, uuid, value, version};
ghost use Rattle.sfx_script.specs.Reading.{Answers, Fails, Gives, behind_next, first_of, given, is_given, item_if_any, last, left_at, next, next_word, options_of, placed_word, some_values};
ghost use Rattle.sfx_script.specs.Script.{is_blank};
ghost use Rattle.sfx_script.specs.Word.{clash_of, item_of, keep_of, name_of, number_of, setting_of, trace_of, uuid_of, value_of, version_of};

use crate::line_fault::LineFault;
use crate::options::Options;
use crate::value_word::value_in;
use crate::values::Values;
use crate::word::{
    clash_in, is_trace, item_in, keep_in, name_in, number_in, setting_in, uuid_in, version_in,
};
use sfx_ids::{ItemId, ReplicaId, Version};
use sfx_item::Value;
use sfx_model::{ClashRule, Keep};
use sfx_outside::Text;
use std::alloc::Global;
use std::marker::Model;

/// How many values an item has at most.
const MAX_VALUES: usize = 8;

/// A word of a line.
#[derive(Clone, Copy)]
pub struct Word<'a> {
    /// The index of its first byte.
    pub at: usize,
    /// Its bytes.
    pub text: &'a [u8],
}

/// The words of a line that are left to read.
#[derive(Drop)]
pub struct Words<'a> {
    line: &'a [u8],
    at: usize,
}

impl<'a> Model for Words<'a> {
    ghost use Rattle.std.specs.Prelude.{◌≤◌, ◌+◌, length};
    ghost use Rattle.sfx_script.specs.Reading.{WordsData, left_at};

    ghost Value = { WordsData };

    ghost view = { λ w. left_at w.line.now w.at };

    ghost invariant = { λ w. w.at ≤ length w.line.now + 1 };
}

/// How many bytes stand before the first blank.
fn word_len(bytes: &[u8]) -> usize
    ensures value { result ≡ position_or_len is_blank bytes.now }
    ensures within { result ≤ length bytes.now }
{
    for (i, byte) in bytes.iter().enumerate() {
        if *byte == b' ' {
            return i;
        }
    }
    bytes.len()
}

impl<'a> Words<'a> {
    /// All words of the line.
    pub fn new(line: &'a [u8]) -> Self
        ensures { result ≡ left_at line.now 0 }
    {
        Words { line, at: 0 }
    }

    /// The next word, or `None` where none is left.
    pub fn peek(&self) -> Option<Word<'a>>
        ensures word { option_map placed_word result ≡ first_of self.now.left }
        ensures fits { IfSome result (λ word. word.at + length word.text.now < 2 ^ 64) }
    {
        if self.at > self.line.len() {
            return None;
        }
        let rest = &self.line[self.at..];
        Some(Word {
            at: self.at,
            text: &rest[..word_len(rest)],
        })
    }

    /// Passes over the next word.
    pub fn pass(&mut self, word: &Word<'a>)
        requires { first_of self.old.left ≡ Some (placed_word word.now) }
        ensures { self.new ≡ behind_next self.old }
    {
        self.at += word.text.len() + 1;
    }

    /// The next word, or a fault at the end of the line where none is left.
    pub fn word(&mut self) -> Result<Word<'a>, LineFault>
        ensures ok { IfOk result (λ word. next_word self.old ≡ Ok (placed_word word, self.new)) }
        ensures fits { IfOk result (λ word. word.at + length word.text.now < 2 ^ 64) }
        ensures err { IfErr result (λ fault. Fails fault (next_word self.old)) }
    {
        match self.peek() {
            Some(word) => {
                self.pass(&word);
                Ok(word)
            }
            None => Err(LineFault::Syntax(self.line.len())),
        }
    }

    /// A fault at the next word, where one is left.
    pub fn last(&self) -> Result<(), LineFault>
        ensures { Answers result (last self.now) }
    {
        match self.peek() {
            Some(word) => Err(LineFault::Syntax(word.at)),
            None => Ok(()),
        }
    }

    /// The name of a replica.
    pub fn name(&mut self, alloc: Global) -> Result<Text, LineFault>
        ensures { Gives result self.new (next name name_of self.old) }
    {
        let word = self.word()?;
        match name_in(word.text) {
            Some(name) => Ok(Text::new(String::from_str(alloc, name)?)),
            None => Err(LineFault::Syntax(word.at)),
        }
    }

    /// A number.
    pub fn number(&mut self) -> Result<u64, LineFault>
        ensures { Gives result self.new (next number number_of self.old) }
    {
        let word = self.word()?;
        match number_in(word.text) {
            Some(number) => Ok(number),
            None => Err(LineFault::Syntax(word.at)),
        }
    }

    /// A UUID.
    pub fn uuid(&mut self) -> Result<ReplicaId, LineFault>
        ensures { Gives result self.new (next uuid uuid_of self.old) }
    {
        let word = self.word()?;
        match uuid_in(word.text) {
            Some(id) => Ok(id),
            None => Err(LineFault::Syntax(word.at)),
        }
    }

    /// An item.
    pub fn item(&mut self) -> Result<ItemId, LineFault>
        ensures { Gives result self.new (next item item_of self.old) }
    {
        let word = self.word()?;
        match item_in(word.text) {
            Ok(item) => Ok(item),
            Err(place) => Err(LineFault::Syntax(word.at + place)),
        }
    }

    /// A version.
    pub fn version(&mut self) -> Result<Version, LineFault>
        ensures { Gives result self.new (next version version_of self.old) }
    {
        let word = self.word()?;
        match version_in(word.text) {
            Ok(version) => Ok(version),
            Err(place) => Err(LineFault::Syntax(word.at + place)),
        }
    }

    /// A value.
    pub fn value(&mut self, alloc: Global) -> Result<Value, LineFault>
        ensures { Gives result self.new (next value value_of self.old) }
    {
        let word = self.word()?;
        value_in(alloc, &word)
    }

    /// What becomes of concurrent changes.
    pub fn keep(&mut self) -> Result<Keep, LineFault>
        ensures { Gives result self.new (next keep keep_of self.old) }
    {
        let word = self.word()?;
        match keep_in(word.text) {
            Some(rule) => Ok(rule),
            None => Err(LineFault::Syntax(word.at)),
        }
    }

    /// What becomes of names that clash.
    pub fn clash(&mut self) -> Result<ClashRule, LineFault>
        ensures { Gives result self.new (next clash clash_of self.old) }
    {
        let word = self.word()?;
        match clash_in(word.text) {
            Some(rule) => Ok(rule),
            None => Err(LineFault::Syntax(word.at)),
        }
    }

    /// One value, and seven further ones at most, up to the last word.
    pub fn values(&mut self, alloc: Global) -> Result<Values, LineFault>
        ensures { Answers result (some_values self.old) }
    {
        let mut items = Vec::new(alloc);
        items.push(self.value(alloc)?)?;
        'more: while let Some(word) = self.peek() {
            if items.len() >= MAX_VALUES {
                return Err(LineFault::Syntax(word.at));
            }
            self.pass(&word);
            items.push(value_in(alloc, &word)?)?;
        }
        Ok(Values::new(items))
    }

    /// An item, where a word is left.
    pub fn item_if_any(&mut self) -> Result<Option<ItemId>, LineFault>
        ensures { Answers result (item_if_any self.old) }
    {
        match self.peek() {
            None => Ok(None),
            Some(_) => {
                let item = self.item()?;
                self.last()?;
                Ok(Some(item))
            }
        }
    }

    /// The number behind the key, where the next word is that setting.
    fn setting(&mut self, key: &str, most: u64) -> Option<u64>
        ensures { (result, self.new) ≡ given (setting_of key.now most) self.old }
    {
        let word = self.peek()?;
        let number = setting_in(word.text, key, most)?;
        self.pass(&word);
        Some(number)
    }

    /// Whether the next word is `trace`.
    fn trace(&mut self) -> bool
        ensures { (result, self.new) ≡ is_given (given trace_of self.old) }
    {
        let Some(word) = self.peek() else {
            return false;
        };
        if !is_trace(word.text) {
            return false;
        }
        self.pass(&word);
        true
    }

    /// The options that are given, in their order.
    pub fn options(&mut self) -> Options
        ensures { (result, self.new) ≡ options_of self.old }
    {
        let usual = Options::default();
        let batch = self.setting("batch=", 10_000).unwrap_or(usual.batch);
        let group = self.setting("group=", 10_000).unwrap_or(usual.group);
        let cut = self.setting("cut=", 1_000_000_000);
        let trace = self.trace();
        Options {
            batch,
            group,
            cut,
            trace,
        }
    }
}
