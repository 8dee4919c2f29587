//! The search by halves, on which every look-up rests.
ghost use Rattle.std.specs.Prelude.{◌≡◌, if◌then◌else◌, length, Some, None};
ghost use Rattle.std.specs.List.{position_from};
ghost use Rattle.sfx_ids.specs.Cut.{cut_cmp};
ghost use Rattle.sfx_ids.specs.declared.cut.Cut.TheVariants.{At};
ghost use Rattle.sfx_ids.specs.declared.item_id.ItemId.{ItemId};
ghost use Rattle.sfx_model.specs.members.Members.{AreAscending};
ghost use Rattle.sfx_items.specs.Places.{AreFew, count_before, has_id};

use sfx_ids::Cut;
use sfx_item::Item;
use std::cmp::Ordering;

/// Where a search for a cut ended.
#[derive(Clone, Copy)]
pub(crate) struct Found {
    /// How many items stand before the cut.
    pub(crate) place: usize,
    /// Whether the cut is the place of the item there.
    pub(crate) exact: bool,
    /// With how many items the cut was compared.
    pub(crate) compared: usize,
}

/// Searches items in order of their ids for a cut, by halves: among N items it is compared with at most
/// log2(N) + 1 of them.
pub(crate) fn search<const U: usize>(items: &[Item<U>], cut: &Cut) -> Found
    requires ascending { AreAscending items.now }
    ensures place { result.place ≡ count_before cut.now items.now }
    ensures exact { (i : ItemId) → cut.now ≡ Cut.At i →
        position_from (has_id i) 0 items.now ≡ (if result.exact then Some result.place else None) }
    ensures few { AreFew (length items.now) result.compared }
{
    let mut low = 0;
    let mut high = items.len();
    let mut compared = 0;
    'halves: while low < high {
        let middle = low + (high - low) / 2;
        compared += 1;
        match compare(&items[middle], cut) {
            Ordering::Less => low = middle + 1,
            Ordering::Greater => high = middle,
            Ordering::Equal => {
                return Found {
                    place: middle,
                    exact: true,
                    compared,
                };
            }
        }
    }
    Found {
        place: low,
        exact: false,
        compared,
    }
}

/// How the place of an item stands to a cut.
fn compare<const U: usize>(item: &Item<U>, cut: &Cut) -> Ordering
    ensures { result ≡ cut_cmp (At item.now.id) cut.now }
{
    Cut::At(item.id).cmp(cut)
}
