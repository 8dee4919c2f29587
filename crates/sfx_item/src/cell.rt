ghost use Rattle.std.specs.Prelude.{◌≡◌, ◌↔◌, IsTrue, IfOk};

use crate::Value;
use sfx_ids::{Memory, Version};
use std::alloc::Global;

/// What a replica holds of one change unit of an item: a value, and the version that brought it.
#[derive(Drop)]
pub struct Cell {
    pub version: Version,
    pub value: Value,
}

impl Cell {
    /// Whether both hold the same value at the same version.
    pub fn same(&self, other: &Self) -> bool
        ensures { IsTrue result ↔ (self.now ≡ other.now) }
    {
        self.version == other.version && self.value.same(&other.value)
    }

    /// An equal cell. The one error is running out of memory.
    pub fn copy(&self, alloc: Global) -> Result<Self, Memory>
        ensures { IfOk result (λ copy. copy ≡ self.now) }
    {
        Ok(Cell {
            version: self.version,
            value: self.value.copy(alloc)?,
        })
    }
}
