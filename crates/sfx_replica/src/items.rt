//! What edits make of the items of a replica, which are in order of their ids.
ghost use Rattle.std.specs.Prelude.{◌≡◌, ℕ, ◌<◌, List, Some, IfOk, IfErr, OnOk, OnErr, slice_set, vec_len};
ghost use Rattle.std.specs.List.{position_from};
ghost use Rattle.sfx_ids.specs.declared.item_id.ItemId.{ItemId};
ghost use Rattle.sfx_item.specs.Name.{IsName};
ghost use Rattle.sfx_item.specs.declared.cell.Cell.{Cell};
ghost use Rattle.sfx_items.specs.Places.{has_id};
ghost use Rattle.sfx_item.specs.Item.{Live, Dead};
ghost use Rattle.sfx_model.specs.members.Members.{AreAscending, Member, state_of};
ghost use Rattle.sfx_model.specs.members.States.{cells_at, with_state};
ghost use Rattle.sfx_replica.specs.Items.{IsLiveAt, IsTarget, not_live};
ghost use Rattle.sfx_replica.specs.Refusals.{state_refusal};

use crate::EditFault;
use sfx_ids::{ItemId, Memory, UnitId, Version};
use sfx_item::{Cell, Item, State, Value};
use sfx_items::place_of;
use std::alloc::{AllocError, Global};

/// Where the item stands, which has to be live.
pub fn live_place<const U: usize>(items: &[Item<U>], id: &ItemId) -> Result<usize, EditFault>
    requires ascending { AreAscending items.now }
    ensures ok { IfOk result (λ place. IsLiveAt items.now id.now place) }
    ensures err { IfErr result (λ fault. not_live (state_of items.now id.now) ≡ Some fault) }
{
    let Some(place) = place_of(items, id) else {
        return Err(EditFault::NoItem);
    };
    let item: &Item<U> = &items[place];
    match &item.state {
        State::Live(_) => Ok(place),
        State::Dead(_) => Err(EditFault::Deleted),
    }
}

/// Where the item stands whose unit `k` can be written to, and that unit. What refuses this refuses any
/// value.
pub fn target<const U: usize>(
    items: &[Item<U>],
    id: &ItemId,
    k: usize,
) -> Result<(usize, UnitId<U>), EditFault>
    requires ascending { AreAscending items.now }
    ensures ok { IfOk result (λ found. IsTarget U items.now id.now k found.0 found.1) }
    ensures err { let state = state_of items.now id.now in
        IfErr result (λ fault. (m : Member) (value : List ℕ) → state_refusal U m id.now k value state ≡ Some fault) }
{
    let place = live_place(items, id)?;
    match UnitId::new(k) {
        Some(unit) => Ok((place, unit)),
        None => Err(EditFault::BadUnit { k, u: U }),
    }
}

/// Puts the cell in the place of that of the unit, where a live item stands.
pub fn write<const U: usize>(
    items: &mut Vec<Item<U>>,
    place: usize,
    unit: UnitId<U>,
    cell: Cell,
) -> Result<(), Memory>
    requires there { place < vec_len items.old }
    ensures ok { let old = items.old.items in
        OnOk result ((i : ItemId) (cells : List Cell) →
        position_from (has_id i) 0 items.old.items ≡ Some place → state_of old i ≡ Some (Live cells) →
        (unit.entry ≡ 0 → IsName cell.value) →
        items.new.items ≡ with_state i (Live (slice_set cells unit.entry cell)) old) }
    ensures err { OnErr result (items.new.items ≡ items.old.items) }
{
    let alloc = *items.allocator();
    let item: &mut Item<U> = &mut items[place];
    match &mut item.state {
        State::Live(row) => {
            row.put(alloc, unit, cell)?;
            Ok(())
        }
        State::Dead(_) => Ok(()),
    }
}

/// Puts a tombstone of this version in the place of an item's state.
pub fn bury<const U: usize>(items: &mut Vec<Item<U>>, place: usize, version: &Version)
    requires there { place < vec_len items.old }
    ensures { (i : ItemId) → position_from (has_id i) 0 items.old.items ≡ Some place →
        items.new.items ≡ with_state i (Dead version.now) items.old.items }
{
    let item: &mut Item<U> = &mut items[place];
    item.state = State::Dead(*version);
}

/// A cell for each value, all of one version.
pub fn cells_at(
    alloc: Global,
    version: Version,
    values: Vec<Value>,
) -> Result<Vec<Cell>, AllocError>
    ensures { IfOk result (λ cells. cells.items ≡ cells_at version values.items) }
{
    values
        .into_iter()
        .map(|value| Cell { version, value })
        .collect(alloc)
}
