ghost use Rattle.std.specs.Prelude.{◌≡◌, IfOk};
ghost use Rattle.sfx_model.specs.sessions.Longer.{is_longer};

use crate::Merger;
use sfx_ids::Memory;
use sfx_item::Value;
use std::alloc::Global;

/// Merges to the longer value and, of equal lengths, to the greater one by its bytes.
#[derive(Clone, Copy, Debug, PartialEq, Eq)]
pub struct Longer;

impl Merger for Longer {
    ghost use Rattle.sfx_model.specs.sessions.Longer.{longer};

    ghost meaning = { λ m. longer };

    fn merge(
        &self,
        alloc: Global,
        _unit: usize,
        source: &Value,
        destination: &Value,
    ) -> Result<Value, Memory> {
        if is_longer(destination.bytes(), source.bytes()) {
            destination.copy(alloc)
        } else {
            source.copy(alloc)
        }
    }
}

/// Whether the first value is longer or, of equal lengths, greater by its bytes.
fn is_longer(a: &[u8], b: &[u8]) -> bool
    ensures { result ≡ is_longer a.now b.now }
{
    b.len() < a.len() || (a.len() == b.len() && b.cmp(a).is_lt())
}
