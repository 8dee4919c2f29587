ghost use Rattle.std.specs.Prelude.{◌≡◌, ◌↔◌, IsTrue, IfOk};

use crate::State;
use sfx_ids::{ItemId, Memory, UnitId, Version};
use std::alloc::Global;
use std::marker::Model;

/// An item that a replica holds, live or as a tombstone.
#[derive(Drop)]
pub struct Item<const U: usize> {
    pub id: ItemId,
    pub state: State<U>,
}

impl<const U: usize> Model for Item<U> {
    ghost use Rattle.sfx_item.specs.Item.{ItemData, state_view};

    ghost Value = { ItemData };

    ghost view = { λ i. record { id = i.id; state = state_view i.state } };
}

impl<const U: usize> Item<U> {
    ghost use Rattle.sfx_item.specs.Item.{version_at};

    /// The version of a unit; of a tombstone its one version.
    pub fn version(&self, unit: UnitId<U>) -> Version
        ensures { version_at self.now.state unit.entry ≡ Some result }
    {
        match &self.state {
            State::Live(row) => row.cell(unit).version,
            State::Dead(version) => *version,
        }
    }

    /// Whether both are the same item in the same state.
    pub fn same(&self, other: &Self) -> bool
        ensures { IsTrue result ↔ (self.now ≡ other.now) }
    {
        self.id == other.id && self.state.same(&other.state)
    }

    /// An equal item.
    ///
    /// # Errors
    /// `Memory`.
    pub fn copy(&self, alloc: Global) -> Result<Self, Memory>
        ensures { IfOk result (λ copy. copy ≡ self.now) }
    {
        Ok(Item {
            id: self.id,
            state: self.state.copy(alloc)?,
        })
    }
}
