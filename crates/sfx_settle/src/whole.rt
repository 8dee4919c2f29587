ghost use Rattle.std.specs.Prelude.{◌≡◌, IfOk, map};
ghost use Rattle.std.specs.Option.{option_map, option_or};
ghost use Rattle.sfx_model.specs.sessions.Draft.{values_of, whole_draft};

use crate::{Draft, Keep, Mark};
use sfx_ids::Memory;
use sfx_item::{Item, Row, State, Value};
use std::alloc::Global;

/// The draft of an item of which neither side's state knew the other's: every unit gets the content of the
/// source or of the destination, where it is not live the deletion; the live one where they are merged; or
/// every unit is left alone. `None` stands for an item that is absent or was cleaned away.
///
/// # Errors
/// `Memory`.
pub fn settle_whole<const U: usize>(
    alloc: Global,
    change: Option<&Item<U>>,
    local: Option<&Item<U>>,
    keep: Keep,
) -> Result<Draft<U>, Memory>
    ensures { IfOk result (λ draft. draft ≡
        whole_draft U keep (option_map (λ x. x.now.state) change.entry)
        (option_map (λ x. x.now.state) local.entry)) }
{
    match keep {
        Keep::Source => Draft::all(alloc, Mark::Stamped, values_of(alloc, change)?),
        Keep::Destination => Draft::all(alloc, Mark::Stamped, values_of(alloc, local)?),
        Keep::Merge => Draft::all(alloc, Mark::Stamped, live_values(alloc, change, local)?),
        Keep::Skip => Draft::all(alloc, Mark::Left, None),
    }
}

/// The values of the first of the items where it is live, and else those of the second.
fn live_values<const U: usize>(
    alloc: Global,
    change: Option<&Item<U>>,
    local: Option<&Item<U>>,
) -> Result<Option<Vec<Value>>, Memory>
    ensures { IfOk result (λ values. option_map (λ v. v.items) values ≡
        option_or (values_of (option_map (λ x. x.now.state) change.entry))
        (values_of (option_map (λ x. x.now.state) local.entry))) }
{
    match values_of(alloc, change)? {
        None => values_of(alloc, local),
        Some(values) => Ok(Some(values)),
    }
}

/// The values of the item where it is live.
///
/// # Errors
/// `Memory`.
pub fn values_of<const U: usize>(
    alloc: Global,
    item: Option<&Item<U>>,
) -> Result<Option<Vec<Value>>, Memory>
    ensures { IfOk result (λ values. option_map (λ v. v.items) values ≡
        values_of (option_map (λ x. x.now.state) item.entry)) }
{
    let Some(item) = item else {
        return Ok(None);
    };
    match &item.state {
        State::Live(row) => Ok(Some(values_in(alloc, row)?)),
        State::Dead(_) => Ok(None),
    }
}

/// The values of the cells.
fn values_in<const U: usize>(alloc: Global, row: &Row<U>) -> Result<Vec<Value>, Memory>
    ensures { IfOk result (λ values. values.items ≡ map (λ c. c.value) row.now) }
{
    let mut values = Vec::with_capacity(alloc, U)?;
    for cell in row.cells() {
        values.push(cell.value.copy(alloc)?)?;
    }
    Ok(values)
}
