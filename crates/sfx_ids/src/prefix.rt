ghost use Rattle.std.specs.Prelude.{◌≡◌, ◌≤◌};
ghost use Rattle.sfx_ids.specs.Prefix.{BeginsTick, BeginsReplica, BeginsPair, IsLongestPrefix};
ghost use Rattle.sfx_ids.specs.PrefixLen.{pair_prefix};
ghost use Rattle.sfx_ids.specs.Steps.{next_tick, fits_place};
ghost use Rattle.sfx_ids.specs.Text.{IsSeparator};

use crate::MAX_TICK;
use crate::replica_text::REPLICA_LEN;

/// The length of the longest prefix of the text that begins the text of some tick and replica with
/// this separator.
pub fn prefix_len(text: &[u8], separator: u8) -> usize
    requires { IsSeparator separator }
    ensures longest { IsLongestPrefix (BeginsPair separator) text.now result }
    ensures decided { result ≡ pair_prefix separator text.now }
{
    let digits = tick_prefix_len(text);
    if digits == 0 || digits == text.len() || text[digits] != separator {
        return digits;
    }
    digits + 1 + replica_prefix_len(&text[digits + 1..])
}

/// The length of the longest prefix of the text that begins some tick's digits.
fn tick_prefix_len(text: &[u8]) -> usize
    ensures { IsLongestPrefix BeginsTick text.now result }
{
    let mut number = 0;
    for (i, byte) in text.iter().enumerate() {
        match next_tick(number, *byte) {
            Some(next) => number = next,
            None => return i,
        }
    }
    text.len()
}

/// The number with this digit behind it, where that is a tick.
fn next_tick(number: u64, byte: u8) -> Option<u64>
    requires { number ≤ MAX_TICK }
    ensures { result ≡ next_tick number byte }
{
    if !byte.is_ascii_digit() {
        return None;
    }
    let next = u128::from(number) * 10 + u128::from(byte - b'0');
    if (1..=u128::from(MAX_TICK)).contains(&next) {
        Some(next as u64)
    } else {
        None
    }
}

/// The length of the longest prefix of the text that begins some replica's text.
fn replica_prefix_len(text: &[u8]) -> usize
    ensures { IsLongestPrefix BeginsReplica text.now result }
{
    for (place, byte) in text.iter().enumerate() {
        if !fits_place(place, *byte) {
            return place;
        }
    }
    text.len()
}

/// Whether the byte may stand at this place of a replica's text.
fn fits_place(place: usize, byte: u8) -> bool
    ensures { result ≡ fits_place place byte }
{
    match place {
        8 | 13 | 18 | 23 => byte == b'-',
        _ => place < REPLICA_LEN && matches!(byte, b'0'..=b'9' | b'a'..=b'f'),
    }
}
