ghost use Rattle.std.specs.Prelude.{◌≡◌, IfOk};

use sfx_ids::Memory;
use sfx_item::Value;
use std::alloc::Global;
use std::marker::Model;

/// The values of a line, in order.
#[derive(Drop)]
pub struct Values {
    items: Vec<Value>,
}

impl Model for Values {
    ghost use Rattle.std.specs.Prelude.{List, ℕ};

    ghost Value = { List (List ℕ) };

    ghost view = { λ v. v.items.items };
}

impl Values {
    /// Values in this order.
    pub fn new(items: Vec<Value>) -> Self
        ensures { result ≡ items.items }
    {
        Values { items }
    }

    /// The values, first to last.
    pub fn as_slice(&self) -> &[Value]
        ensures { result.now ≡ self.now }
    {
        self.items.as_slice()
    }

    /// The values as a vector.
    pub fn into_vec(self) -> Vec<Value>
        ensures { result.items ≡ self }
    {
        self.items
    }

    /// Equal values. The one error is running out of memory.
    pub fn copy(&self, alloc: Global) -> Result<Self, Memory>
        ensures { IfOk result (λ copy. copy ≡ self.now) }
    {
        let mut items = Vec::with_capacity(alloc, self.items.len())?;
        for value in &self.items {
            items.push(value.copy(alloc)?)?;
        }
        Ok(Values { items })
    }
}
