//! The order in which the changes of a batch are applied.
ghost use Rattle.std.specs.Prelude.{◌≡◌, IfOk, OnOk, ◌++◌, not};
ghost use Rattle.std.specs.List.{filter};
ghost use Rattle.sfx_apply.specs.Turns.{in_turn, seen_views};
ghost use Rattle.sfx_model.specs.sessions.Session.{is_live_state};

use sfx_batch::Batch;
use sfx_ids::Memory;
use sfx_item::{Item, State};
use std::alloc::Global;

/// The changes of the batch, first the deletions and then the live ones, each in order of their ids.
pub(crate) fn in_turn<'a, const U: usize>(
    alloc: Global,
    batch: &'a Batch<U>,
) -> Result<Vec<&'a Item<U>>, Memory>
    ensures { IfOk result (λ turns. seen_views turns.items ≡ in_turn batch.now.changes) }
{
    ordered(alloc, batch.changes.as_slice())
}

/// The items, first the tombstones and then the live ones.
fn ordered<'a, const U: usize>(
    alloc: Global,
    changes: &'a [Item<U>],
) -> Result<Vec<&'a Item<U>>, Memory>
    ensures { IfOk result (λ turns. seen_views turns.items ≡ in_turn changes.now) }
{
    let mut turns = Vec::with_capacity(alloc, changes.len())?;
    add_dead(&mut turns, changes)?;
    add_live(&mut turns, changes)?;
    Ok(turns)
}

/// Adds the tombstones among the items.
fn add_dead<'a, const U: usize>(
    turns: &mut Vec<&'a Item<U>>,
    changes: &'a [Item<U>],
) -> Result<(), Memory>
    ensures { let dead = filter (λ x. not (is_live_state x.state)) changes.now in
        OnOk result (seen_views turns.new.items ≡ seen_views turns.old.items ++ dead) }
{
    for change in changes {
        if !is_live(change) {
            turns.push(change)?;
        }
    }
    Ok(())
}

/// Adds the live ones among the items.
fn add_live<'a, const U: usize>(
    turns: &mut Vec<&'a Item<U>>,
    changes: &'a [Item<U>],
) -> Result<(), Memory>
    ensures { let live = filter (λ x. is_live_state x.state) changes.now in
        OnOk result (seen_views turns.new.items ≡ seen_views turns.old.items ++ live) }
{
    for change in changes {
        if is_live(change) {
            turns.push(change)?;
        }
    }
    Ok(())
}

/// Whether the item is live.
fn is_live<const U: usize>(item: &Item<U>) -> bool
    ensures { result ≡ is_live_state item.now.state }
{
    matches!(item.state, State::Live(_))
}
