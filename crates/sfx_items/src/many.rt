//! Many items that are put into a list in order of its ids, or taken away, in one pass.
ghost use Rattle.std.specs.Prelude.{◌≡◌, ◌≤◌, ◌<◌, ◌+◌, ◌++◌, IsSome, OnOk, OnErr, vec_len, vec_capacity, not};
ghost use Rattle.std.specs.List.{list_any};
ghost use Rattle.std.specs.VecDeque.{deque_len};
ghost use Rattle.sfx_model.specs.world.Events.{same_item};
ghost use Rattle.sfx_model.specs.members.Members.{AreIdsAscending, AreAscending};
ghost use Rattle.sfx_model.specs.members.ItemLists.{drop_all, put_all};
ghost use Rattle.sfx_items.specs.Merge.{IsNextOfTwo};

use sfx_ids::{ItemId, Memory};
use sfx_item::Item;
use std::cmp::Ordering;
use std::collections::VecDeque;
use std::mem;

/// Puts each of these items, which ascend, in the place of the one with its id, or in its place by id where
/// there is none, by one merge of both lists.
///
/// # Errors
/// `Memory`. Nothing has changed then.
pub fn put_all<const U: usize>(items: &mut Vec<Item<U>>, puts: Vec<Item<U>>) -> Result<(), Memory>
    requires ascending { AreAscending items.old.items }
    requires puts { AreAscending puts.items }
    ensures ok { let all = put_all puts.entry.items items.old.items in
        OnOk result (items.new.items ≡ all) }
    ensures err { OnErr result (items.new.items ≡ items.old.items) }
{
    let room = Vec::with_capacity(*items.allocator(), items.len() + puts.len())?;
    let old = mem::replace(items, room);
    merge(items, VecDeque::from_vec(old), VecDeque::from_vec(puts));
    Ok(())
}

/// Adds the items of both lists in order, of two with the same id the one that is put.
fn merge<const U: usize>(
    merged: &mut Vec<Item<U>>,
    mut held: VecDeque<Item<U>>,
    mut puts: VecDeque<Item<U>>,
)
    requires room { vec_len merged.old + (deque_len held + deque_len puts) ≤ vec_capacity merged.old }
    requires held { AreAscending held.items }
    requires puts { AreAscending puts.items }
    ensures { let all = put_all puts.entry.items held.entry.items in
        merged.new.items ≡ merged.old.items ++ all }
{
    'merge: while let Some(item) = next(&mut held, &mut puts) {
        merged.push(item).unwrap();
    }
}

/// The next item of both lists in order, which it is taken from: of two with the same id the one that is put.
fn next<const U: usize>(
    held: &mut VecDeque<Item<U>>,
    puts: &mut VecDeque<Item<U>>,
) -> Option<Item<U>>
    requires held { AreAscending held.old.items }
    requires puts { AreAscending puts.old.items }
    ensures next { let whole = put_all puts.old.items held.old.items in
        IsNextOfTwo result whole (put_all puts.new.items held.new.items) }
    ensures held { AreAscending held.new.items }
    ensures puts { AreAscending puts.new.items }
    ensures fewer { IsSome result →
        deque_len held.new + deque_len puts.new < deque_len held.old + deque_len puts.old }
{
    match (held.front(), puts.front()) {
        (None, _) => puts.pop_front(),
        (_, None) => held.pop_front(),
        (Some(item), Some(put)) => match item.id.cmp(&put.id) {
            Ordering::Less => held.pop_front(),
            Ordering::Equal => held.pop_front().and(puts.pop_front()),
            Ordering::Greater => puts.pop_front(),
        },
    }
}

/// Takes the items with these ids, which ascend, away in one pass over the items.
pub fn drop_all<const U: usize>(items: &mut Vec<Item<U>>, drops: &[ItemId])
    requires ascending { AreAscending items.old.items }
    requires drops { AreIdsAscending drops.now }
    ensures { items.new.items ≡ drop_all drops.now items.old.items }
{
    items.retain(
        |item| -> bool
            ensures { AreIdsAscending drops.entry.now →
                result ≡ not (list_any (same_item item.now.id) drops.entry.now) }
        { !is_among(drops, &item.id) },
    );
}

/// Whether the id is one of these, which ascend.
fn is_among(ids: &[ItemId], id: &ItemId) -> bool
    ensures { AreIdsAscending ids.now → result ≡ list_any (same_item id.now) ids.now }
{
    ids.binary_search(id).is_ok()
}
