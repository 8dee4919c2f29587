ghost use Rattle.std.specs.Option.{option_map};
ghost use Rattle.std.specs.Prelude.{◌≡◌, ◌≤◌, if◌then◌else◌, nat_lt, length, take, IfOk};
ghost use Rattle.sfx_batch.specs.Fault.{is_of_source};
ghost use Rattle.sfx_ids.specs.declared.cut.Cut.TheVariants.{End};
ghost use Rattle.sfx_model.specs.sessions.Batch.{batch_from, due, due_end, ids_in, listed_ids, place_behind};
ghost use Rattle.sfx_model.specs.members.Readings.{first_from};
ghost use Rattle.sfx_provider.specs.Fault.{HasCause, blames_storage};
ghost use Rattle.sfx_provider.specs.Leaves.{Rests};
ghost use Rattle.sfx_segments.specs.Segments.{IsPlace};

use crate::{Batch, BatchFault};
use sfx_ids::{Cut, ItemId, in_range};
use sfx_item::Item;
use sfx_knowledge::Knowledge;
use sfx_model::Mode;
use sfx_provider::{Head, Provider, ProviderFault};
use std::alloc::Global;

/// The batch that is due from the place `from` to a destination that knows this: its changes are the first
/// `size` items from there of which the destination does not know all, and it reaches to behind the last of
/// them where more such items follow, else to the end. In recovery it lists the ids of all items of the
/// source in that range. The source stays as it is, whatever is answered.
///
/// # Errors
/// `Provider`, only where the source's count of faults rose, and `Memory`.
pub fn make_batch<const U: usize, P: Provider<U>>(
    alloc: Global,
    source: &mut P,
    known: &Knowledge<U>,
    from: &Cut,
    size: usize,
    mode: Mode,
) -> Result<Batch<U>, BatchFault>
    requires size { 1 ≤ size }
    requires place { IsPlace from.now }
    ensures value { IfOk result (λ b. b ≡ batch_from U (P.state source.old) mode size known.now from.now) }
    ensures rests { Rests P.state P.kept P.settled P.came source.old source.new }
    ensures cause { HasCause is_of_source (P.faults source.old) (P.faults source.new) result }
{
    match due_batch(alloc, source, known, from, size, mode) {
        Ok(batch) => Ok(batch),
        Err(ProviderFault::Failed) => Err(BatchFault::Provider),
        Err(ProviderFault::Memory) => Err(BatchFault::Memory),
    }
}

/// The batch that is due, with the provider's own faults.
#[tactic(auto, unfolding(sfx_model::specs::sessions::Batch::batch_from))]
fn due_batch<const U: usize, P: Provider<U>>(
    alloc: Global,
    source: &mut P,
    known: &Knowledge<U>,
    from: &Cut,
    size: usize,
    mode: Mode,
) -> Result<Batch<U>, ProviderFault>
    requires place { IsPlace from.now }
    ensures value { IfOk result (λ b. b ≡ batch_from U (P.state source.old) mode size known.now from.now) }
    ensures rests { Rests P.state P.kept P.settled P.came source.old source.new }
    ensures cause { HasCause blames_storage (P.faults source.old) (P.faults source.new) result }
{
    source.keeps();
    let Head {
        id,
        clock: _clock,
        knowledge,
        forgotten,
    } = source.head(alloc)?;
    let (changes, to) = due_changes(alloc, source, known, from, size)?;
    let here = listed_ids(alloc, source, mode, from, &to)?;
    Ok(Batch {
        source: id,
        mode,
        from: *from,
        to,
        made_with: knowledge,
        forgotten,
        changes,
        here,
    })
}

/// The items that are due from the place, and where their range ends.
fn due_changes<const U: usize, P: Provider<U>>(
    alloc: Global,
    source: &mut P,
    known: &Knowledge<U>,
    from: &Cut,
    size: usize,
) -> Result<(Vec<Item<U>>, Cut), ProviderFault>
    ensures changes { IfOk result (λ r. r.0.items ≡
        due U size known.now from.now (P.state source.old).items) }
    ensures end { IfOk result (λ r. r.1 ≡ due_end U size known.now from.now (P.state source.old).items) }
    ensures rests { Rests P.state P.kept P.settled P.came source.old source.new }
    ensures cause { HasCause blames_storage (P.faults source.old) (P.faults source.new) result }
{
    let mut changes = source.unseen(alloc, known, from, size.saturating_add(1))?;
    let to = cut_short(&mut changes, size);
    Ok((changes, to))
}

/// Leaves the first `size` of the items, and tells the cut behind the last of them where there were more,
/// else the end.
fn cut_short<const U: usize>(items: &mut Vec<Item<U>>, size: usize) -> Cut
    ensures items { items.new.items ≡ take size items.old.items }
    ensures end { result ≡ (if nat_lt size (length items.old.items)
        then place_behind End (take size items.old.items) else End) }
{
    if items.len() <= size {
        return Cut::End;
    }
    items.truncate(size);
    place_behind(items.as_slice())
}

/// The cut behind the last of the items, and the end where there is none.
fn place_behind<const U: usize>(items: &[Item<U>]) -> Cut
    ensures { result ≡ place_behind End items.now }
{
    match items.last() {
        Some(item) => Cut::After(item.id),
        None => Cut::End,
    }
}

/// The ids that a batch of this range lists: in recovery those of all items of the source there, else none.
fn listed_ids<const U: usize, P: Provider<U>>(
    alloc: Global,
    source: &mut P,
    mode: Mode,
    from: &Cut,
    to: &Cut,
) -> Result<Vec<ItemId>, ProviderFault>
    ensures value { IfOk result (λ ids. ids.items ≡ listed_ids mode from.now to.now (P.state source.old).items) }
    ensures rests { Rests P.state P.kept P.settled P.came source.old source.new }
    ensures cause { HasCause blames_storage (P.faults source.old) (P.faults source.new) result }
{
    match mode {
        Mode::Normal => Ok(Vec::new(alloc)),
        Mode::Recover => ids_in(alloc, source, from, to),
    }
}

/// The ids of all items of the source in the range, ascending. They are walked over one by one.
fn ids_in<const U: usize, P: Provider<U>>(
    alloc: Global,
    source: &mut P,
    from: &Cut,
    to: &Cut,
) -> Result<Vec<ItemId>, ProviderFault>
    ensures value { IfOk result (λ ids. ids.items ≡ ids_in from.now to.now (P.state source.old).items) }
    ensures rests { Rests P.state P.kept P.settled P.came source.old source.new }
    ensures cause { HasCause blames_storage (P.faults source.old) (P.faults source.new) result }
{
    source.keeps();
    let mut ids = Vec::new(alloc);
    let mut place = *from;
    'walk: while let Some(id) = next_id(alloc, source, &place)? {
        if !in_range(&id, &place, to) {
            return Ok(ids);
        }
        ids.push(id)?;
        place = Cut::After(id);
    }
    Ok(ids)
}

/// The id of the source's first item whose place is not before this one, or `None` where there is none.
fn next_id<const U: usize, P: Provider<U>>(
    alloc: Global,
    source: &mut P,
    place: &Cut,
) -> Result<Option<ItemId>, ProviderFault>
    ensures value { IfOk result (λ id.
        id ≡ option_map (λ x. x.id) (first_from place.now (P.state source.old).items)) }
    ensures rests { Rests P.state P.kept P.settled P.came source.old source.new }
    ensures cause { HasCause blames_storage (P.faults source.old) (P.faults source.new) result }
{
    match source.next_from(alloc, place)? {
        Some(item) => Ok(Some(item.id)),
        None => Ok(None),
    }
}
