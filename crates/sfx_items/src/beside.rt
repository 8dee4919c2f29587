//! What stands next to a place in a list of items in order of their ids.
ghost use Rattle.std.specs.Prelude.{◌≡◌};
ghost use Rattle.std.specs.Option.{option_map};
ghost use Rattle.sfx_model.specs.members.Members.{AreAscending};
ghost use Rattle.sfx_model.specs.members.Readings.{first_from};
ghost use Rattle.sfx_items.specs.Neighbours.{last_before};

use crate::finding::{first_from, place_from};
use sfx_ids::{Cut, ItemId};
use sfx_item::Item;

/// The items next to the place of one: the last before it and the first behind it, where there are such.
#[derive(Drop)]
pub struct Neighbours<'a, const U: usize> {
    pub before: Option<&'a Item<U>>,
    pub behind: Option<&'a Item<U>>,
}

/// The last item whose place is before `place`, or `None` where there is none. Among N items the cut is
/// compared with at most log2(N) + 1 of them.
pub fn last_before<'a, const U: usize>(items: &'a [Item<U>], place: &Cut) -> Option<&'a Item<U>>
    requires ascending { AreAscending items.now }
    ensures { option_map (λ x. x.now) result ≡ last_before place.now items.now }
{
    let count = place_from(items, place);
    if count == 0 {
        return None;
    }
    Some(&items[count - 1])
}

/// The neighbours of the item with this id, whether it stands there or not: neither is the item itself.
pub fn neighbours_of<'a, const U: usize>(items: &'a [Item<U>], id: &ItemId) -> Neighbours<'a, U>
    requires ascending { AreAscending items.now }
    ensures before { let last = last_before (Cut.At id.now) items.now in
        option_map (λ x. x.now) result.before ≡ last }
    ensures behind { let first = first_from (Cut.After id.now) items.now in
        option_map (λ x. x.now) result.behind ≡ first }
{
    Neighbours {
        before: last_before(items, &Cut::At(*id)),
        behind: first_from(items, &Cut::After(*id)),
    }
}
