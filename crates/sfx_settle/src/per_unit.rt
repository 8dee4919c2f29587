ghost use Rattle.std.specs.Prelude.{◌≡◌, ℕ, ◌<◌, Some, IfOk, length, replicate, slice_get, slice_set};

use sfx_ids::{Memory, UnitId};
use std::alloc::Global;
use std::marker::Model;

/// An element for each of the `U` units of an item.
#[derive(Drop)]
pub struct PerUnit<T, const U: usize> {
    each: Vec<T>,
}

impl<T, const U: usize> Model for PerUnit<T, U> {
    ghost use Rattle.std.specs.Prelude.{◌≡◌, List, length};

    ghost Value = { List T };

    ghost view = { λ p. p.each.items };

    ghost invariant = { λ p. length p.each.items ≡ U };
}

impl<T: Copy + Drop, const U: usize> PerUnit<T, U> {
    /// This element at every unit.
    ///
    /// # Errors
    /// `Memory`.
    pub fn all(alloc: Global, element: T) -> Result<Self, Memory>
        ensures { IfOk result (λ all. all ≡ replicate U element) }
    {
        let mut each = Vec::with_capacity(alloc, U)?;
        'units: for _ in 0..U {
            each.push(element)?;
        }
        Ok(PerUnit { each })
    }

    /// The element of the unit.
    pub fn get(&self, unit: UnitId<U>) -> T
        ensures value { slice_get self.now unit.entry ≡ Some result }
        ensures whole { length self.now ≡ U }
    {
        self.each[unit.get()]
    }

    /// Gives the unit this element, and leaves the others as they are.
    pub fn put(&mut self, unit: UnitId<U>, element: T)
        ensures { self.new ≡ slice_set self.old unit.entry element }
    {
        let index = unit.get();
        self.each[index] = element;
    }

    /// An equal list of its own memory.
    ///
    /// # Errors
    /// `Memory`.
    pub fn copy(&self, alloc: Global) -> Result<Self, Memory>
        ensures { IfOk result (λ copied. copied ≡ self.now) }
    {
        Ok(PerUnit {
            each: Vec::from_slice(alloc, self.each.as_slice())?,
        })
    }

    /// The elements of all units, in order.
    pub fn as_slice(&self) -> &[T]
        ensures value { result.now ≡ self.now }
        ensures whole { length self.now ≡ U }
    {
        self.each.as_slice()
    }

    /// These elements, one for each unit.
    pub(crate) fn of(each: Vec<T>) -> Self
        requires { length each.items ≡ U }
        ensures { result ≡ each.items }
    {
        PerUnit { each }
    }
}
