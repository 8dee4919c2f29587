ghost use Rattle.std.specs.Prelude.{◌≡◌, ℕ, ◌<◌, ◌^◌, List, Some, true, length};
ghost use Rattle.std.specs.Cmp.{IsTotalOrder};
ghost use Rattle.std.specs.Int.{to_be_bytes, w128};
ghost use Rattle.std.specs.declared.cmp.Ordering.TheVariants.{Equal};
ghost use Rattle.uuid.specs.Text.{parsed};
ghost use Rattle.sfx_ids.specs.declared.cut.Cut.{Cut};
ghost use Rattle.sfx_ids.specs.declared.cut.Cut.TheVariants.{Start, At, After, End};
ghost use Rattle.sfx_ids.specs.declared.item_id.ItemId.{ItemId};
ghost use Rattle.sfx_ids.specs.declared.version.Version.{Version};
ghost use Rattle.sfx_ids.specs.Cut.{IsCut, cut_cmp, cut_lt, cut_le, is_between};
ghost use Rattle.sfx_ids.specs.Prefix.{BeginsItem, BeginsVersion, IsLongestPrefix};
ghost use Rattle.sfx_ids.specs.PrefixLen.{item_prefix, version_prefix};
ghost use Rattle.sfx_ids.specs.ItemId.{IsItemId};
ghost use Rattle.sfx_ids.specs.Text.{replica_text, item_text, version_text, cut_text};
ghost use Rattle.sfx_ids.specs.Version.{IsVersion};

/// The text of a replica is that of the UUID of its number, of 36 bytes. No two values of a kind
/// have one text.
pub fn texts_tell_apart()
    ensures uuid { (id : ℕ) → parsed (replica_text id) ≡ Some (to_be_bytes w128 id) }
    ensures replica_length { (id : ℕ) → length (replica_text id) ≡ 36 }
    ensures replicas { (a b : ℕ) → a < 2 ^ 128 → b < 2 ^ 128 → replica_text a ≡ replica_text b → a ≡ b }
    ensures items { (a b : ItemId) → IsItemId a → IsItemId b → item_text a ≡ item_text b → a ≡ b }
    ensures versions { (a b : Version) → IsVersion a → IsVersion b → version_text a ≡ version_text b → a ≡ b }
    ensures cuts { (a b : Cut) → IsCut a → IsCut b → cut_text a ≡ cut_text b → a ≡ b }
{}

/// Where a text goes wrong, as a function of it: `item_prefix` is the length of the longest prefix of
/// any text that begins some item's text, and `version_prefix` that of the longest that begins some
/// version's.
pub fn prefixes_are_measured()
    ensures item { (text : List ℕ) → IsLongestPrefix BeginsItem text (item_prefix text) }
    ensures version { (text : List ℕ) → IsLongestPrefix BeginsVersion text (version_prefix text) }
{}

/// The order of cuts is total and tells them apart. `Start` is the first and `End` the last, and the
/// range from `At(x)` up to `After(x)` is the place of `x` alone.
pub fn cuts_are_ordered()
    ensures total { IsTotalOrder cut_cmp }
    ensures exact { (a b : Cut) → cut_cmp a b ≡ Equal → a ≡ b }
    ensures first { (a : Cut) → cut_le Start a ≡ true }
    ensures last { (a : Cut) → cut_le a End ≡ true }
    ensures behind { (x : ItemId) → cut_lt (At x) (After x) ≡ true }
    ensures alone { (x : ItemId) → (a : Cut) → is_between (At x) (After x) a ≡ true → a ≡ At x }
{}
