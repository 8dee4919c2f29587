//! What is read of the destination: of what waits to be committed, and else of the provider.
ghost use Rattle.std.specs.Prelude.{◌≡◌, [], IfOk};
ghost use Rattle.std.specs.Option.{option_map};
ghost use Rattle.sfx_apply.specs.Turns.{destination};
ghost use Rattle.sfx_apply.specs.Work.{Waits};
ghost use Rattle.sfx_model.specs.members.Members.{state_of};
ghost use Rattle.sfx_provider.specs.Fault.{HasCause, blames_storage};
ghost use Rattle.sfx_provider.specs.Leaves.{Rests};

use crate::work::Work;
use sfx_ids::ItemId;
use sfx_item::Item;
use sfx_items::find;
use sfx_provider::{Provider, ProviderFault};
use std::alloc::Global;

/// The item with this id at the destination, or `None` where that holds none.
pub(crate) fn item_now<const U: usize, P: Provider<U>>(
    alloc: Global,
    provider: &mut P,
    work: &Work<U>,
    id: &ItemId,
) -> Result<Option<Item<U>>, ProviderFault>
    requires waits { Waits U work.now.pending (P.state provider.old) }
    ensures value { let m = destination U work.now (P.state provider.old) in
        IfOk result (λ item. option_map (λ x. x.state) item ≡ state_of m.items id.now) }
    ensures rests { Rests P.state P.kept P.settled P.came provider.old provider.new }
    ensures cause { HasCause blames_storage (P.faults provider.old) (P.faults provider.new) result }
{
    match find(work.puts(), id) {
        Some(put) => Ok(Some(put.copy(alloc)?)),
        None => provider.item(alloc, id),
    }
}
