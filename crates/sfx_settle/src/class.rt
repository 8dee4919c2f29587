ghost use Rattle.std.specs.Prelude.{◌≡◌, IfOk};

use crate::{PerUnit, UnitClass};
use sfx_ids::Memory;
use std::alloc::Global;

/// A class for each of the `U` units of an item.
pub type UnitClasses<const U: usize> = PerUnit<UnitClass, U>;

/// What a change is to its destination.
#[derive(Drop)]
pub enum Class<const U: usize> {
    /// The destination knows the change at every unit.
    Known,
    /// The change is taken as it is.
    TakeWhole,
    /// The item is live on both sides, and each unit has a class of its own.
    Units(UnitClasses<U>),
    /// Neither side's state of the item knew the other's.
    WholeConflict,
}

impl<const U: usize> Class<U> {
    /// An equal class of its own memory.
    ///
    /// # Errors
    /// `Memory`.
    pub fn copy(&self, alloc: Global) -> Result<Self, Memory>
        ensures { IfOk result (λ copied. copied ≡ self.now) }
    {
        match self {
            Class::Known => Ok(Class::Known),
            Class::TakeWhole => Ok(Class::TakeWhole),
            Class::Units(classes) => Ok(Class::Units(classes.copy(alloc)?)),
            Class::WholeConflict => Ok(Class::WholeConflict),
        }
    }
}
