ghost use Rattle.std.specs.Prelude.{◌≡◌, IfOk};

use sfx_ids::Memory;
use sfx_item::Item;
use std::alloc::Global;

/// Equal items of their own memory, in the same order.
///
/// # Errors
/// `Memory`.
pub fn copies<const U: usize>(alloc: Global, items: &[Item<U>]) -> Result<Vec<Item<U>>, Memory>
    ensures { IfOk result (λ copies. copies.items ≡ items.now) }
{
    let mut copies = Vec::with_capacity(alloc, items.len())?;
    for item in items {
        copies.push(item.copy(alloc)?)?;
    }
    Ok(copies)
}
