//! One item that is put into a list in order of its ids, or taken away.
ghost use Rattle.std.specs.Prelude.{◌≡◌, OnOk, OnErr, IfSome};
ghost use Rattle.std.specs.Option.{option_map};
ghost use Rattle.sfx_model.specs.members.Members.{AreAscending, state_of};
ghost use Rattle.sfx_model.specs.members.ItemLists.{drop_item, put_item};

use crate::finding::place_of;
use crate::search::search;
use sfx_ids::{Cut, ItemId, Memory};
use sfx_item::Item;

/// Puts the item in the place of the one with its id, or in its place by id where there is none.
///
/// # Errors
/// `Memory`. Nothing has changed then.
pub fn put<const U: usize>(items: &mut Vec<Item<U>>, item: Item<U>) -> Result<(), Memory>
    requires ascending { AreAscending items.old.items }
    ensures ok { let all = put_item item.entry items.old.items in
        OnOk result (items.new.items ≡ all) }
    ensures err { OnErr result (items.new.items ≡ items.old.items) }
{
    let found = search(items.as_slice(), &Cut::At(item.id));
    if found.exact {
        items[found.place] = item;
    } else {
        items.insert(found.place, item)?;
    }
    Ok(())
}

/// Takes the item with this id away, and answers it, or `None` where there is none.
pub fn take_away<const U: usize>(items: &mut Vec<Item<U>>, id: &ItemId) -> Option<Item<U>>
    requires ascending { AreAscending items.old.items }
    ensures items { items.new.items ≡ drop_item id.now items.old.items }
    ensures state { option_map (λ x. x.state) result ≡ state_of items.old.items id.now }
    ensures same { IfSome result (λ x. x.id ≡ id.now) }
{
    match place_of(items.as_slice(), id) {
        Some(place) => Some(items.remove(place)),
        None => None,
    }
}
