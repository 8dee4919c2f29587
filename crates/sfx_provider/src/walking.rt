ghost use Rattle.std.specs.Prelude.{◌≡◌, IfOk};
ghost use Rattle.sfx_provider.specs.Fault.{HasCause, blames_storage};
ghost use Rattle.sfx_provider.specs.Leaves.{Rests};

use crate::{Provider, ProviderFault};
use sfx_ids::Cut;
use sfx_item::Item;
use std::alloc::Global;

/// All items of a provider, tombstones included, in order of their ids. They are walked over one by one.
///
/// # Errors
/// `Failed`, only where the provider's count of faults rose, and `Memory`.
pub fn all_items<const U: usize, P: Provider<U>>(
    alloc: Global,
    provider: &mut P,
) -> Result<Vec<Item<U>>, ProviderFault>
    ensures value { IfOk result (λ items. items.items ≡ (P.state provider.old).items) }
    ensures rests { Rests P.state P.kept P.settled P.came provider.old provider.new }
    ensures cause { HasCause blames_storage (P.faults provider.old) (P.faults provider.new) result }
{
    provider.keeps();
    let mut items = Vec::new(alloc);
    let mut from = Cut::Start;
    'walk: while let Some(item) = provider.next_from(alloc, &from)? {
        from = Cut::After(item.id);
        items.push(item)?;
    }
    Ok(items)
}
