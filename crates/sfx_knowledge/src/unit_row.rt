ghost use Rattle.std.specs.Prelude.{◌≡◌, ◌↔◌, [], IsTrue, IfOk, OnOk, OnErr};
ghost use Rattle.sfx_knowledge.specs.Row.{UnitRowData, row_at, IsClockRow, ChangesUnit, RowWithin, VectorWithin, MostOfRow};

use crate::facts::vector_in_form;
use crate::vectors::{Replaced, row_by};
use sfx_ids::{Memory, Part, ReplicaId, UnitId};
use sfx_vector::ClockVector;
use std::alloc::Global;
use std::marker::Model;

/// A clock vector for each of `U` change units: that of unit 0, and the units whose vector differs from
/// it, ascending, each with its own. So two rows that have the same vector at each unit are equal.
#[derive(Drop)]
pub struct UnitRow<const U: usize> {
    base: ClockVector,
    others: Vec<(UnitId<U>, ClockVector)>,
}

impl<const U: usize> Model for UnitRow<U> {
    ghost use Rattle.sfx_knowledge.specs.Row.{UnitRowData, IsClockRow};

    ghost Value = { UnitRowData };

    ghost view = { λ row. record { base = row.base; others = row.others.items } };

    ghost invariant = { λ row. IsClockRow U (record { base = row.base; others = row.others.items }) };
}

impl<const U: usize> UnitRow<U> {
    /// This vector at every unit. Takes no memory.
    pub fn new(alloc: Global, base: ClockVector) -> UnitRow<U>
        ensures { result ≡ record { base = base; others = [] } }
    {
        vector_in_form(&base);
        UnitRow {
            base,
            others: Vec::new(alloc),
        }
    }

    /// The vector at the unit.
    pub fn get(&self, unit: UnitId<U>) -> &ClockVector
        ensures value { result.now ≡ row_at self.now unit.entry }
        ensures form { IsClockRow U self.now }
    {
        self.at(unit.get())
    }

    /// Gives the unit this vector, and leaves the others as they are. Where memory is refused, all stay.
    pub fn put(&mut self, unit: UnitId<U>, vector: &ClockVector) -> Result<(), Memory>
        ensures ok { OnOk result (ChangesUnit U self.old self.new unit.entry vector.now) }
        ensures err { OnErr result (self.new ≡ self.old) }
        ensures form { IsClockRow U self.new }
    {
        let alloc = *self.others.allocator();
        let changed = row_by(
            alloc,
            &Replaced {
                row: self,
                unit: unit.get(),
                vector,
            },
        )?;
        *self = changed;
        Ok(())
    }

    /// An equal row of its own memory. The one error is running out of memory.
    pub fn copy(&self, alloc: Global) -> Result<UnitRow<U>, Memory>
        ensures { IfOk result (λ copied. copied ≡ self.now) }
    {
        let base = self.base.copy(alloc)?;
        let mut others = Vec::with_capacity(alloc, self.others.len())?;
        for other in &self.others {
            others.push((other.0, other.1.copy(alloc)?))?;
        }
        Ok(UnitRow { base, others })
    }

    /// Whether each unit's vector is within the other row's.
    pub(crate) fn within(&self, other: &UnitRow<U>) -> bool
        ensures { IsTrue result ↔ RowWithin U self.now other.now }
    {
        for unit in 0..U {
            if !self.at(unit).within(other.at(unit)) {
                return false;
            }
        }
        true
    }

    /// Whether the vector is within that of each unit.
    pub(crate) fn contain(&self, vector: &ClockVector) -> bool
        ensures { IsTrue result ↔ VectorWithin U vector.now self.now }
    {
        for unit in 0..U {
            if !vector.within(self.at(unit)) {
                return false;
            }
        }
        true
    }

    /// The greatest of the given tick and the replica's ticks at the units.
    pub(crate) fn most(&self, id: &ReplicaId, given: u64) -> u64
        ensures { MostOfRow U self.now id.now given result }
    {
        let mut most = given;
        for unit in 0..U {
            let tick = self.at(unit).get(id);
            if tick > most {
                most = tick;
            }
        }
        most
    }

    /// The row is in its one form: this does nothing but say so.
    pub(crate) fn in_form(&self)
        ensures { IsClockRow U self.now }
    {
        let _base = &self.base;
    }

    /// The row of these vectors: that of unit 0, and those of the units above that differ from it.
    pub(crate) fn of_parts(base: ClockVector, others: Vec<(UnitId<U>, ClockVector)>) -> UnitRow<U>
        requires { IsClockRow U (record { base = base; others = others.items }) }
        ensures { result ≡ record { base = base; others = others.entry.items } }
    {
        UnitRow { base, others }
    }

    /// The vector at the unit of this number.
    pub(crate) fn at(&self, unit: usize) -> &ClockVector
        ensures value { result.now ≡ row_at self.now unit }
        ensures form { IsClockRow U self.now }
    {
        for other in &self.others {
            if other.0.get() == unit {
                return &other.1;
            }
        }
        &self.base
    }
}

impl<const U: usize> Part for UnitRow<U> {
    fn same(&self, other: &Self) -> bool {
        if !self.base.same(&other.base) {
            return false;
        }
        for unit in 0..U {
            if !self.at(unit).same(other.at(unit)) {
                return false;
            }
        }
        true
    }

    fn copy(&self, alloc: Global) -> Result<Self, Memory> {
        UnitRow::copy(self, alloc)
    }
}
