ghost use Rattle.std.specs.Prelude.{◌≡◌, IfOk};

use sfx_ids::Memory;
use sfx_item::{Name, Value};
use std::alloc::Global;

/// A file that still has to follow its item.
#[derive(Drop)]
pub struct Pending {
    /// Its path within the folder of the replica.
    pub path: Name,
    /// What it held before the item changed, and nothing where there was no file.
    pub was: Option<Value>,
}

impl Pending {
    /// An equal value of its own memory.
    ///
    /// # Errors
    /// `Memory`.
    pub fn copy(&self, alloc: Global) -> Result<Self, Memory>
        ensures { IfOk result (λ copy. copy ≡ self.now) }
    {
        let was = match &self.was {
            Some(value) => Some(value.copy(alloc)?),
            None => None,
        };
        Ok(Pending {
            path: self.path.copy(alloc)?,
            was,
        })
    }
}
