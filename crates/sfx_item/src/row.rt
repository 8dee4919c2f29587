ghost use Rattle.std.specs.Prelude.{◌≡◌, ℕ, ◌<◌, ◌↔◌, if◌then◌else◌, List, Some, length, slice_get, slice_set, IsSome, IsTrue, IfSome, IfOk, OnErr};
ghost use Rattle.sfx_item.specs.Name.{IsName};
ghost use Rattle.sfx_item.specs.Row.{IsCellRow, first_value};

use crate::{Cell, Name, NameFault};
use sfx_ids::{Memory, UnitId};
use std::alloc::Global;
use std::marker::Model;

/// The cells of a live item: one for each of its `U` change units, in order. The value of unit 0 is the
/// item's name.
#[derive(Drop)]
pub struct Row<const U: usize> {
    name: Name,
    cells: Vec<Cell>,
}

impl<const U: usize> Model for Row<U> {
    ghost use Rattle.std.specs.Prelude.{List};
    ghost use Rattle.sfx_item.specs.declared.cell.Cell.{Cell};
    ghost use Rattle.sfx_item.specs.Row.{IsNamedRow};

    ghost Value = { List Cell };

    ghost view = { λ r. r.cells.items };

    ghost invariant = { λ r. IsNamedRow U r.name r.cells.items };
}

impl<const U: usize> Row<U> {
    /// The row of these cells, or `None` where they are not `U` or the first holds no name.
    ///
    /// # Errors
    /// `Memory`, as the row keeps the name by itself.
    pub fn new(alloc: Global, cells: Vec<Cell>) -> Result<Option<Self>, Memory>
        ensures valid { IfOk result (λ row. IsSome row ↔ IsCellRow U cells.items) }
        ensures value { IfOk result (λ row. IfSome row (λ row. row ≡ cells.items)) }
    {
        if cells.len() != U {
            return Ok(None);
        }
        let Some(first) = cells.first() else {
            return Ok(None);
        };
        match name_in(alloc, first)? {
            Some(name) => Ok(Some(Row { name, cells })),
            None => Ok(None),
        }
    }

    /// The name of the item.
    pub fn name(&self) -> &Name
        ensures value { first_value self.now ≡ Some result.now }
        ensures valid { IsName result.now }
    {
        &self.name
    }

    /// The cell of a unit.
    pub fn cell(&self, unit: UnitId<U>) -> &Cell
        ensures value { slice_get self.now unit.entry ≡ Some result.now }
        ensures row { IsCellRow U self.now }
    {
        &self.cells[unit.get()]
    }

    /// The cells of all units, in order.
    pub fn cells(&self) -> &[Cell]
        ensures value { result.now ≡ self.now }
        ensures row { IsCellRow U self.now }
    {
        self.cells.as_slice()
    }

    /// Puts a cell in the place of a unit's, leaves the other units as they are, and answers true. Unit 0
    /// takes no cell but one that holds a name: for another the answer is false, and nothing changes.
    ///
    /// # Errors
    /// `Memory`; nothing has changed then.
    pub fn put(&mut self, alloc: Global, unit: UnitId<U>, cell: Cell) -> Result<bool, Memory>
        ensures done { IfOk result (λ done. IsTrue done ↔ (unit.entry ≡ 0 → IsName cell.value)) }
        ensures after { IfOk result (λ done. self.new ≡
            (if done then slice_set self.old unit.entry cell else self.old)) }
        ensures err { OnErr result (self.new ≡ self.old) }
    {
        let index = unit.get();
        if index == 0 {
            return self.put_first(alloc, cell);
        }
        self.cells[index] = cell;
        Ok(true)
    }

    /// The same for unit 0.
    fn put_first(&mut self, alloc: Global, cell: Cell) -> Result<bool, Memory>
        ensures done { IfOk result (λ done. IsTrue done ↔ IsName cell.value) }
        ensures after { IfOk result (λ done. self.new ≡ (if done then slice_set self.old 0 cell else self.old)) }
        ensures err { OnErr result (self.new ≡ self.old) }
    {
        let Some(name) = name_in(alloc, &cell)? else {
            return Ok(false);
        };
        self.name = name;
        self.cells[0] = cell;
        Ok(true)
    }

    /// Whether the cells of both are the same, unit by unit.
    pub fn same(&self, other: &Self) -> bool
        ensures { IsTrue result ↔ (self.now ≡ other.now) }
    {
        for (i, cell) in self.cells.iter().enumerate() {
            if !cell.same(&other.cells[i]) {
                return false;
            }
        }
        true
    }

    /// An equal row.
    ///
    /// # Errors
    /// `Memory`.
    pub fn copy(&self, alloc: Global) -> Result<Self, Memory>
        ensures { IfOk result (λ copy. copy ≡ self.now) }
    {
        let mut cells = Vec::with_capacity(alloc, self.cells.len())?;
        for cell in &self.cells {
            cells.push(cell.copy(alloc)?)?;
        }
        Ok(Row {
            name: self.name.copy(alloc)?,
            cells,
        })
    }
}

/// The name that the cell holds, if it holds one.
fn name_in(alloc: Global, cell: &Cell) -> Result<Option<Name>, Memory>
    ensures valid { IfOk result (λ name. IsSome name ↔ IsName cell.now.value) }
    ensures value { IfOk result (λ name. IfSome name (λ name. name ≡ cell.now.value)) }
{
    match Name::read(alloc, cell.value.bytes()) {
        Ok(name) => Ok(Some(name)),
        Err(NameFault::BadName(_)) => Ok(None),
        Err(NameFault::Memory) => Err(Memory),
    }
}
