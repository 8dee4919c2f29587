ghost use Rattle.std.specs.Prelude.{◌≡◌, ◌++◌, OnOk, OnErr, IfSome};
ghost use Rattle.sfx_ids.specs.declared.cut.Cut.{Cut};
ghost use Rattle.sfx_ids.specs.declared.item_id.ItemId.{ItemId};
ghost use Rattle.sfx_ids.specs.Cut.{IsCut};
ghost use Rattle.sfx_ids.specs.ItemId.{IsItemId};
ghost use Rattle.sfx_ids.specs.Text.{cut_text, item_text};

use crate::item_text::{parse_item, write_item};
use crate::{Cut, ItemId, Memory};

/// Appends the text of a cut: `start`, `at ` and an item, `after ` and an item, or `end`. Where
/// memory runs out, nothing is appended.
#[tactic(auto, unfolding(crate::specs::Text::cut_text))]
pub fn write_cut(out: &mut Vec<u8>, cut: &Cut) -> Result<(), Memory>
    ensures ok { OnOk result (out.new.items ≡ out.old.items ++ cut_text cut.now) }
    ensures err { OnErr result (out.new.items ≡ out.old.items) }
{
    match cut {
        Cut::Start => Ok(out.extend_from_slice(b"start")?),
        Cut::At(id) => write_behind(out, b"at ", id),
        Cut::After(id) => write_behind(out, b"after ", id),
        Cut::End => Ok(out.extend_from_slice(b"end")?),
    }
}

/// Appends the word and the text of the item, or nothing.
fn write_behind(out: &mut Vec<u8>, word: &[u8], id: &ItemId) -> Result<(), Memory>
    ensures ok { OnOk result (out.new.items ≡ out.old.items ++ (word.now ++ item_text id.now)) }
    ensures err { OnErr result (out.new.items ≡ out.old.items) }
{
    let len = out.len();
    out.extend_from_slice(word)?;
    let written = write_item(out, id);
    if written.is_err() {
        out.truncate(len);
    }
    written
}

/// The cut whose text this is, exactly as `write_cut` writes it, or `None` where the text is no
/// cut's.
pub fn parse_cut(text: &str) -> Option<Cut>
    ensures some { IfSome result (λ cut. IsCut cut × (text.now ≡ cut_text cut)) }
    ensures only { (cut : Cut) → IsCut cut → text.now ≡ cut_text cut → result ≡ Some cut }
{
    if text == "start" {
        return Some(Cut::Start);
    }
    if text == "end" {
        return Some(Cut::End);
    }
    if let Some(id) = parse_behind(text, "at ") {
        return Some(Cut::At(id));
    }
    let id = parse_behind(text, "after ")?;
    Some(Cut::After(id))
}

/// The item whose text stands behind this word.
fn parse_behind(text: &str, word: &str) -> Option<ItemId>
    ensures some { IfSome result (λ id. IsItemId id × (text.now ≡ word.now ++ item_text id)) }
    ensures only { (id : ItemId) → IsItemId id → text.now ≡ word.now ++ item_text id → result ≡ Some id }
{
    let rest = text.strip_prefix(word)?;
    parse_item(rest).ok()
}
