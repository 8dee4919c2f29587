//! The items of which someone does not know all.
ghost use Rattle.std.specs.Prelude.{◌≡◌, IfOk, map, take};
ghost use Rattle.sfx_model.specs.members.Readings.{is_unseen, is_unseen_at, unseen};
ghost use Rattle.sfx_replica.specs.Items.{is_next_unseen};

use sfx_ids::{Cut, ItemId, Memory, UnitId};
use sfx_item::Item;
use sfx_knowledge::Knowledge;
use std::alloc::{AllocError, Global};

/// The ids of the first `limit` items, from those whose place is not before `from`, with a unit whose
/// version the knowledge does not contain.
pub fn unseen<const U: usize>(
    alloc: Global,
    items: &[Item<U>],
    to: &Knowledge<U>,
    from: &Cut,
    limit: usize,
) -> Result<Vec<ItemId>, AllocError>
    ensures { IfOk result (λ ids. ids.items ≡
        map (λ x. x.id) (take limit (unseen U to.now from.now items.now))) }
{
    let mut ids = Vec::new(alloc);
    for item in items {
        if ids.len() >= limit {
            return Ok(ids);
        }
        if !is_next_unseen(item, to, from) {
            continue;
        }
        ids.push(item.id)?;
    }
    Ok(ids)
}

/// Copies of these items.
pub fn unseen_copies<const U: usize>(
    alloc: Global,
    items: &[Item<U>],
    to: &Knowledge<U>,
    from: &Cut,
    limit: usize,
) -> Result<Vec<Item<U>>, Memory>
    ensures { IfOk result (λ copies. copies.items ≡
        take limit (unseen U to.now from.now items.now)) }
{
    let mut copies = Vec::new(alloc);
    for item in items {
        if copies.len() >= limit {
            return Ok(copies);
        }
        if !is_next_unseen(item, to, from) {
            continue;
        }
        copies.push(item.copy(alloc)?)?;
    }
    Ok(copies)
}

/// Whether the item's place is not before `from`, and it has such a unit.
fn is_next_unseen<const U: usize>(item: &Item<U>, to: &Knowledge<U>, from: &Cut) -> bool
    ensures { result ≡ is_next_unseen U to.now from.now item.now }
{
    *from <= Cut::At(item.id) && is_unseen(item, to)
}

/// Whether the item has a unit whose version the knowledge does not contain.
fn is_unseen<const U: usize>(item: &Item<U>, to: &Knowledge<U>) -> bool
    ensures { result ≡ is_unseen U to.now item.now }
{
    for k in 0..U {
        if let Some(unit) = UnitId::<U>::new(k)
            && is_unseen_at(item, to, unit)
        {
            return true;
        }
    }
    false
}

/// Whether the knowledge does not contain the item's version of the unit.
fn is_unseen_at<const U: usize>(item: &Item<U>, to: &Knowledge<U>, unit: UnitId<U>) -> bool
    ensures { result ≡ is_unseen_at to.now item.now.id item.now.state unit.entry }
{
    !to.contains(&item.id, unit, &item.version(unit))
}
