//! What stands in a list of items in order of their ids, and where.
ghost use Rattle.std.specs.Prelude.{◌≡◌, IfSome};
ghost use Rattle.std.specs.List.{position_from};
ghost use Rattle.std.specs.Option.{option_map};
ghost use Rattle.sfx_model.specs.members.Members.{AreAscending, state_of};
ghost use Rattle.sfx_model.specs.members.Readings.{first_from};
ghost use Rattle.sfx_items.specs.Places.{count_before, has_id};

use crate::search::search;
use sfx_ids::{Cut, ItemId};
use sfx_item::Item;

/// Where the item with this id stands, or `None` where there is none. Among N items the id is compared with
/// at most log2(N) + 1 of them.
pub fn place_of<const U: usize>(items: &[Item<U>], id: &ItemId) -> Option<usize>
    requires ascending { AreAscending items.now }
    ensures { result ≡ position_from (has_id id.now) 0 items.now }
{
    let found = search(items, &Cut::At(*id));
    if found.exact { Some(found.place) } else { None }
}

/// The item with this id, or `None` where there is none. Among N items the id is compared with at most
/// log2(N) + 1 of them.
pub fn find<'a, const U: usize>(items: &'a [Item<U>], id: &ItemId) -> Option<&'a Item<U>>
    requires ascending { AreAscending items.now }
    ensures state { option_map (λ x. x.now.state) result ≡ state_of items.now id.now }
    ensures same { IfSome result (λ x. x.now.id ≡ id.now) }
{
    match place_of(items, id) {
        Some(place) => Some(&items[place]),
        None => None,
    }
}

/// How many items stand before the cut: where the first one stands that does not. Among N items the cut is
/// compared with at most log2(N) + 1 of them.
pub fn place_from<const U: usize>(items: &[Item<U>], from: &Cut) -> usize
    requires ascending { AreAscending items.now }
    ensures { result ≡ count_before from.now items.now }
{
    search(items, from).place
}

/// The first item whose place is not before `from`, or `None` where there is none. Among N items the cut is
/// compared with at most log2(N) + 1 of them.
pub fn first_from<'a, const U: usize>(items: &'a [Item<U>], from: &Cut) -> Option<&'a Item<U>>
    requires ascending { AreAscending items.now }
    ensures { option_map (λ x. x.now) result ≡ first_from from.now items.now }
{
    items.get(place_from(items, from))
}
