//! What the words of a line stand for. Each reading asks first whether the bytes may stand in a line.
ghost use Rattle.std.specs.Prelude.{◌≡◌, ◌&&◌, ◌==◌, None, Some, if◌then◌else◌, IfOk, IfErr, length, take, option_map, is_some};
ghost use Rattle.std.specs.List.{list_all, prefix_len};
ghost use Rattle.sfx_ids.specs.Prefix.{BeginsItem, BeginsVersion, IsLongestPrefix};
ghost use Rattle.sfx_script.specs.Word.{clash_of, is_in_name, is_name, is_printable, item_of, keep_of, name_of, number_of, printed, setting_of, trace_of, uuid_of, version_of};

use itoa::Buffer;
use sfx_ids::{ItemId, ReplicaId, Version, parse_item, parse_replica, parse_version};
use sfx_model::{ClashRule, Keep};
use std::str;

/// Whether the byte may stand in a line: a blank or a printable character of ASCII.
fn is_printable(byte: u8) -> bool
    ensures { result ≡ is_printable byte }
{
    byte >= 32 && byte <= 126
}

/// How many bytes stand before the first that may not stand in a line.
pub fn printable_len(word: &[u8]) -> usize
    ensures { result ≡ prefix_len is_printable word.now }
{
    for (i, byte) in word.iter().enumerate() {
        if !is_printable(*byte) {
            return i;
        }
    }
    word.len()
}

/// The bytes before the first that may not stand in a line.
pub fn printable_prefix(word: &[u8]) -> &str
    ensures { result.now ≡ take (prefix_len is_printable word.now) word.now }
{
    match str::from_utf8(&word[..printable_len(word)]) {
        Ok(text) => text,
        Err(_) => "",
    }
}

/// The word as a text, where all its bytes may stand in a line.
pub fn text_of(word: &[u8]) -> Option<&str>
    ensures { option_map (λ text. text.now) result ≡ printed Some word.now }
{
    let prefix = printable_prefix(word);
    if prefix.len() == word.len() {
        Some(prefix)
    } else {
        None
    }
}

/// The greatest length of the name of a replica in bytes.
const MAX_NAME_LEN: usize = 32;

/// Whether the byte may stand in the name of a replica.
fn is_in_name(byte: u8) -> bool
    ensures { result ≡ is_in_name byte }
{
    byte.is_ascii_alphanumeric() || byte == b'_'
}

/// Whether each byte may stand in the name of a replica.
fn all_in_name(word: &[u8]) -> bool
    ensures { result ≡ list_all is_in_name word.now }
{
    word.iter().all(|byte| is_in_name(*byte))
}

/// The name of a replica that the word is.
pub fn name_in(word: &[u8]) -> Option<&str>
    ensures { option_map (λ name. name.now) result ≡ printed name_of word.now }
{
    let name = text_of(word)?;
    if !name.is_empty() && name.len() <= MAX_NAME_LEN && all_in_name(name.as_bytes()) {
        Some(name)
    } else {
        None
    }
}

/// The number that a text spells: `0`, or digits with no leading zero, below 2^64.
fn number_of(text: &str) -> Option<u64>
    ensures { result ≡ number_of text.now }
{
    let number = text.parse::<u64>().ok()?;
    if Buffer::new().format(number) == text {
        Some(number)
    } else {
        None
    }
}

/// The number that the word spells.
pub fn number_in(word: &[u8]) -> Option<u64>
    ensures { result ≡ printed number_of word.now }
{
    number_of(text_of(word)?)
}

/// The replica that the word spells, in any of the four forms of a UUID (RFC 9562).
pub fn uuid_in(word: &[u8]) -> Option<ReplicaId>
    ensures { result ≡ printed uuid_of word.now }
{
    parse_replica(text_of(word)?)
}

/// The item that the word spells, or how many bytes of it begin some item's text.
pub fn item_in(word: &[u8]) -> Result<ItemId, usize>
    ensures ok { IfOk result (λ item. printed item_of word.now ≡ Some item) }
    ensures none { IfErr result (λ _. printed item_of word.now ≡ None) }
    ensures place { IfErr result (λ place. IsLongestPrefix BeginsItem word.now place) }
{
    let prefix = printable_prefix(word);
    match parse_item(prefix) {
        Ok(item) => {
            if prefix.len() == word.len() {
                Ok(item)
            } else {
                Err(prefix.len())
            }
        }
        Err(bad) => Err(bad.at),
    }
}

/// The version that the word spells, or how many bytes of it begin some version's text.
pub fn version_in(word: &[u8]) -> Result<Version, usize>
    ensures ok { IfOk result (λ version. printed version_of word.now ≡ Some version) }
    ensures none { IfErr result (λ _. printed version_of word.now ≡ None) }
    ensures place { IfErr result (λ place. IsLongestPrefix BeginsVersion word.now place) }
{
    let prefix = printable_prefix(word);
    match parse_version(prefix) {
        Ok(version) => {
            if prefix.len() == word.len() {
                Ok(version)
            } else {
                Err(prefix.len())
            }
        }
        Err(bad) => Err(bad.at),
    }
}

fn keep_of(text: &str) -> Option<Keep>
    ensures { result ≡ keep_of text.now }
{
    match text {
        "keep=source" => Some(Keep::Source),
        "keep=destination" => Some(Keep::Destination),
        "keep=merge" => Some(Keep::Merge),
        "keep=skip" => Some(Keep::Skip),
        _ => None,
    }
}

/// What becomes of concurrent changes, where the word says it.
pub fn keep_in(word: &[u8]) -> Option<Keep>
    ensures { result ≡ printed keep_of word.now }
{
    keep_of(text_of(word)?)
}

fn clash_of(text: &str) -> Option<ClashRule>
    ensures { result ≡ clash_of text.now }
{
    match text {
        "clash=source" => Some(ClashRule::Source),
        "clash=destination" => Some(ClashRule::Destination),
        "clash=rename-source" => Some(ClashRule::RenameSource),
        "clash=rename-destination" => Some(ClashRule::RenameDestination),
        "clash=skip" => Some(ClashRule::Skip),
        _ => None,
    }
}

/// What becomes of names that clash, where the word says it.
pub fn clash_in(word: &[u8]) -> Option<ClashRule>
    ensures { result ≡ printed clash_of word.now }
{
    clash_of(text_of(word)?)
}

fn setting_of(text: &str, key: &str, most: u64) -> Option<u64>
    ensures { result ≡ setting_of key.now most text.now }
{
    let number = number_of(text.strip_prefix(key)?)?;
    if number >= 1 && number <= most {
        Some(number)
    } else {
        None
    }
}

/// The number that stands behind the key, where it is from 1 to the most.
pub fn setting_in(word: &[u8], key: &str, most: u64) -> Option<u64>
    ensures { result ≡ printed (setting_of key.now most) word.now }
{
    setting_of(text_of(word)?, key, most)
}

/// Whether the word is `trace`.
pub fn is_trace(word: &[u8]) -> bool
    ensures { result ≡ is_some (printed trace_of word.now) }
{
    matches!(text_of(word), Some("trace"))
}
