ghost use Rattle.std.specs.Prelude.{◌≡◌, ◌↔◌, IsTrue, IfOk};

use crate::Row;
use sfx_ids::{Memory, Version};
use std::alloc::Global;

/// What a present item is: live with a row of cells, or a tombstone at the version of its deletion.
#[derive(Drop)]
pub enum State<const U: usize> {
    Live(Row<U>),
    Dead(Version),
}

impl<const U: usize> State<U> {
    /// Whether both are live with the same cells, or tombstones at the same version.
    pub fn same(&self, other: &Self) -> bool
        ensures { IsTrue result ↔ (self.now ≡ other.now) }
    {
        match (self, other) {
            (State::Live(row), State::Live(other)) => row.same(other),
            (State::Dead(version), State::Dead(other)) => version == other,
            _ => false,
        }
    }

    /// An equal state.
    ///
    /// # Errors
    /// `Memory`.
    pub fn copy(&self, alloc: Global) -> Result<Self, Memory>
        ensures { IfOk result (λ copy. copy ≡ self.now) }
    {
        match self {
            State::Live(row) => Ok(State::Live(row.copy(alloc)?)),
            State::Dead(version) => Ok(State::Dead(*version)),
        }
    }
}
