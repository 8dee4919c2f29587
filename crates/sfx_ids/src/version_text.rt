ghost use Rattle.std.specs.Prelude.{◌≡◌, ◌++◌, Ok, OnOk, OnErr, IfOk, IfErr};
ghost use Rattle.sfx_ids.specs.declared.version.Version.{Version};
ghost use Rattle.sfx_ids.specs.Prefix.{BeginsVersion, IsLongestPrefix};
ghost use Rattle.sfx_ids.specs.PrefixLen.{version_prefix};
ghost use Rattle.sfx_ids.specs.Version.{IsVersion};
ghost use Rattle.sfx_ids.specs.Text.{version_text};

use crate::pair_text::{read_pair, write_pair};
use crate::prefix::prefix_len;
use crate::{Memory, Version};
use std::error::Error;
use std::fmt;

/// A text that is no version's, and where it goes wrong.
#[derive(Clone, Copy, Debug, PartialEq, Eq)]
pub struct BadVersion {
    /// The length in bytes of the longest prefix of the text that begins some version's text. Where
    /// the whole text does, that is its length.
    pub at: usize,
}

impl fmt::Display for BadVersion {
    fn fmt<W: fmt::Write>(&self, f: &mut fmt::Formatter<W>) -> fmt::Result {
        write!(f, "no version: the text goes wrong at byte {}", self.at)
    }
}

impl Error for BadVersion {}

/// Appends the text of a version: its tick, `@` and its replica. Where memory runs out, nothing is
/// appended.
#[tactic(auto, unfolding(crate::specs::Text::version_text))]
pub fn write_version(out: &mut Vec<u8>, version: &Version) -> Result<(), Memory>
    ensures ok { OnOk result (out.new.items ≡ out.old.items ++ version_text version.now) }
    ensures err { OnErr result (out.new.items ≡ out.old.items) }
{
    write_pair(out, &version.tick, b'@', &version.replica)
}

/// The version whose text this is, exactly as `write_version` writes it. Any other text is refused, with
/// the place where it goes wrong.
pub fn parse_version(text: &str) -> Result<Version, BadVersion>
    ensures ok { IfOk result (λ version. IsVersion version × (text.now ≡ version_text version)) }
    ensures only { (version : Version) → IsVersion version → text.now ≡ version_text version → result ≡ Ok version }
    ensures err { IfErr result (λ bad. IsLongestPrefix BeginsVersion text.now bad.at) }
    ensures place { IfErr result (λ bad. bad.at ≡ version_prefix text.now) }
{
    match read_pair(text, b'@') {
        Some(pair) => Ok(Version {
            replica: pair.1,
            tick: pair.0,
        }),
        None => Err(BadVersion {
            at: prefix_len(text.as_bytes(), b'@'),
        }),
    }
}
