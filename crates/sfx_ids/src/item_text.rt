ghost use Rattle.std.specs.Prelude.{◌≡◌, ◌++◌, Ok, OnOk, OnErr, IfOk, IfErr};
ghost use Rattle.sfx_ids.specs.declared.item_id.ItemId.{ItemId};
ghost use Rattle.sfx_ids.specs.Prefix.{BeginsItem, IsLongestPrefix};
ghost use Rattle.sfx_ids.specs.PrefixLen.{item_prefix};
ghost use Rattle.sfx_ids.specs.ItemId.{IsItemId};
ghost use Rattle.sfx_ids.specs.Text.{item_text};

use crate::pair_text::{read_pair, write_pair};
use crate::prefix::prefix_len;
use crate::{ItemId, Memory};
use std::error::Error;
use std::fmt;

/// A text that is no item's, and where it goes wrong.
#[derive(Clone, Copy, Debug, PartialEq, Eq)]
pub struct BadItemId {
    /// The length in bytes of the longest prefix of the text that begins some item's text. Where
    /// the whole text does, that is its length.
    pub at: usize,
}

impl fmt::Display for BadItemId {
    fn fmt<W: fmt::Write>(&self, f: &mut fmt::Formatter<W>) -> fmt::Result {
        write!(f, "no item: the text goes wrong at byte {}", self.at)
    }
}

impl Error for BadItemId {}

/// Appends the text of an item: its tick, `:` and its replica. Where memory runs out, nothing is
/// appended.
#[tactic(auto, unfolding(crate::specs::Text::item_text))]
pub fn write_item(out: &mut Vec<u8>, id: &ItemId) -> Result<(), Memory>
    ensures ok { OnOk result (out.new.items ≡ out.old.items ++ item_text id.now) }
    ensures err { OnErr result (out.new.items ≡ out.old.items) }
{
    write_pair(out, &id.tick, b':', &id.replica)
}

/// The item whose text this is, exactly as `write_item` writes it. Any other text is refused, with
/// the place where it goes wrong.
pub fn parse_item(text: &str) -> Result<ItemId, BadItemId>
    ensures ok { IfOk result (λ id. IsItemId id × (text.now ≡ item_text id)) }
    ensures only { (id : ItemId) → IsItemId id → text.now ≡ item_text id → result ≡ Ok id }
    ensures err { IfErr result (λ bad. IsLongestPrefix BeginsItem text.now bad.at) }
    ensures place { IfErr result (λ bad. bad.at ≡ item_prefix text.now) }
{
    match read_pair(text, b':') {
        Some(pair) => Ok(ItemId {
            tick: pair.0,
            replica: pair.1,
        }),
        None => Err(BadItemId {
            at: prefix_len(text.as_bytes(), b':'),
        }),
    }
}
