//! The items of which units are taken.
ghost use Rattle.std.specs.Prelude.{◌≡◌, ◌≤◌, ◌∷◌, ◌++◌, [], if◌then◌else◌, length, IfOk, OnOk};
ghost use Rattle.std.specs.Option.{option_map};
ghost use Rattle.sfx_apply.specs.Work.{taken_cells, taken_state};
ghost use Rattle.sfx_model.specs.sessions.Entry.{is_taken};
ghost use Rattle.sfx_item.specs.Item.{state_view};

use sfx_ids::Memory;
use sfx_item::{Cell, Item, Row, State};
use sfx_settle::{Mark, Marks};
use std::alloc::Global;

/// The state of an item with these marks: cell by cell where it is live on both sides, and else that of the
/// source.
pub(crate) fn taken_state<const U: usize>(
    alloc: Global,
    marks: &Marks<U>,
    change: &Item<U>,
    local: Option<&Item<U>>,
) -> Result<State<U>, Memory>
    requires { 1 ≤ U }
    ensures { let here = option_map (λ x. x.now.state) local.entry in
        IfOk result (λ state. state_view state ≡ taken_state U marks.now change.now.state here) }
{
    let Some(local) = local else {
        return change.state.copy(alloc);
    };
    match (&change.state, &local.state) {
        (State::Live(row), State::Live(own)) => {
            Ok(State::Live(taken_row(alloc, marks, row, own)?))
        }
        _ => change.state.copy(alloc),
    }
}

/// The row with each cell that is taken from the source, and the others as they are here.
fn taken_row<const U: usize>(
    alloc: Global,
    marks: &Marks<U>,
    row: &Row<U>,
    own: &Row<U>,
) -> Result<Row<U>, Memory>
    requires { 1 ≤ U }
    ensures { IfOk result (λ taken. taken ≡ taken_cells U marks.now row.now own.now) }
{
    let cells = taken_cells::<U>(alloc, marks.as_slice(), row.cells(), own.cells())?;
    Ok(Row::new(alloc, cells)?.unwrap())
}

/// The cells of that row.
fn taken_cells<const U: usize>(
    alloc: Global,
    marks: &[Mark],
    seen: &[Cell],
    here: &[Cell],
) -> Result<Vec<Cell>, Memory>
    requires marks { length marks.now ≡ U }
    requires seen { length seen.now ≡ U }
    requires here { length here.now ≡ U }
    ensures { IfOk result (λ cells. cells.items ≡ taken_cells U marks.now seen.now here.now) }
{
    let mut cells = Vec::with_capacity(alloc, U)?;
    for index in 0..U {
        push_cell(alloc, &mut cells, marks[index], &seen[index], &here[index])?;
    }
    Ok(cells)
}

/// Adds the cell from the source where it is taken, and else the one here.
fn push_cell(
    alloc: Global,
    cells: &mut Vec<Cell>,
    mark: Mark,
    seen: &Cell,
    here: &Cell,
) -> Result<(), Memory>
    ensures { OnOk result (cells.new.items ≡ cells.old.items ++ (if is_taken mark then seen.now else here.now) ∷ []) }
{
    cells.push(taken_cell(alloc, mark, seen, here)?)?;
    Ok(())
}

/// The cell from the source where it is taken, and else the one here.
fn taken_cell(alloc: Global, mark: Mark, seen: &Cell, here: &Cell) -> Result<Cell, Memory>
    ensures { IfOk result (λ cell. cell ≡ (if is_taken mark then seen.now else here.now)) }
{
    match mark {
        Mark::Taken => seen.copy(alloc),
        _ => here.copy(alloc),
    }
}
