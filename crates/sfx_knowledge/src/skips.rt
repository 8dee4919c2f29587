ghost use Rattle.std.specs.Prelude.{◌≡◌, [], IfOk, OnOk, OnErr};
ghost use Rattle.sfx_knowledge.specs.Skips.{is_skipped, AddsSkip, AreSkips, cell_lt, cell_place};

use crate::facts::unit_in_range;
use sfx_ids::{ItemId, Memory, UnitId};
use std::alloc::Global;
use std::marker::Model;

/// Change units of items that are passed over, ascending by item and then by unit, each once.
#[derive(Drop)]
pub struct Skips<const U: usize> {
    cells: Vec<(ItemId, UnitId<U>)>,
}

impl<const U: usize> Model for Skips<U> {
    ghost use Rattle.std.specs.Prelude.{List, ℕ};
    ghost use Rattle.sfx_ids.specs.declared.item_id.ItemId.{ItemId};
    ghost use Rattle.sfx_knowledge.specs.Skips.{AreSkips};

    ghost Value = { List (ItemId × ℕ) };

    ghost view = { λ s. s.cells.items };

    ghost invariant = { λ s. AreSkips U s.cells.items };
}

impl<const U: usize> Skips<U> {
    /// No unit of any item. Takes no memory.
    pub fn new(alloc: Global) -> Skips<U>
        ensures { result ≡ [] }
    {
        Skips {
            cells: Vec::new(alloc),
        }
    }

    /// Adds the unit of the item. The one error is running out of memory, and then all stays as it was.
    pub fn add(&mut self, id: &ItemId, unit: UnitId<U>) -> Result<(), Memory>
        ensures ok { OnOk result (AddsSkip self.old self.new id.now unit.entry) }
        ensures err { OnErr result (self.new ≡ self.old) }
        ensures form { AreSkips U self.new }
    {
        if self.has(id, unit) {
            return Ok(());
        }
        unit_in_range(&unit);
        let place = place_of(self.cells.as_slice(), &(*id, unit));
        self.cells.insert(place, (*id, unit))?;
        Ok(())
    }

    /// Whether the unit of the item is listed.
    pub fn has(&self, id: &ItemId, unit: UnitId<U>) -> bool
        ensures value { result ≡ is_skipped self.now id.now unit.entry }
        ensures form { AreSkips U self.now }
    {
        for cell in &self.cells {
            if cell.0 == *id && cell.1 == unit {
                return true;
            }
        }
        false
    }

    /// An equal list of its own memory. The one error is running out of memory.
    pub fn copy(&self, alloc: Global) -> Result<Skips<U>, Memory>
        ensures { IfOk result (λ copied. copied ≡ self.now) }
    {
        Ok(Skips {
            cells: Vec::from_slice(alloc, self.cells.as_slice())?,
        })
    }

    /// The units of items, in order.
    pub(crate) fn cells(&self) -> &[(ItemId, UnitId<U>)]
        ensures value { result.now ≡ self.now }
        ensures form { AreSkips U self.now }
    {
        self.cells.as_slice()
    }
}

/// How many of the units of items stand before this one.
fn place_of<const U: usize>(cells: &[(ItemId, UnitId<U>)], cell: &(ItemId, UnitId<U>)) -> usize
    ensures { result ≡ cell_place cells.now cell.now }
{
    for (place, other) in cells.iter().enumerate() {
        if !is_before(other, cell) {
            return place;
        }
    }
    cells.len()
}

/// Whether the first unit of an item stands before the second.
fn is_before<const U: usize>(a: &(ItemId, UnitId<U>), b: &(ItemId, UnitId<U>)) -> bool
    ensures { result ≡ cell_lt a.now b.now }
{
    a.0.cmp(&b.0).then(a.1.cmp(&b.1)).is_lt()
}
