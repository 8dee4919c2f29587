//! Names of items as they become, and whether they are free.
ghost use Rattle.std.specs.Prelude.{◌≡◌, ℕ, List, [], Some, IfOk, is_some};
ghost use Rattle.std.specs.List.{list_all, list_any};
ghost use Rattle.sfx_apply.specs.Turns.{destination};
ghost use Rattle.sfx_apply.specs.Work.{Waits};
ghost use Rattle.sfx_item.specs.Name.{IsName};
ghost use Rattle.sfx_model.specs.sessions.Clashes.{drafted_name};
ghost use Rattle.sfx_item.specs.Item.{state_view};
ghost use Rattle.sfx_model.specs.members.Members.{AreAscending, state_of};
ghost use Rattle.sfx_model.specs.members.Readings.{is_clashing, is_in_the_way};
ghost use Rattle.sfx_model.specs.sessions.NewName.{is_free};
ghost use Rattle.sfx_provider.specs.Fault.{HasCause, blames_storage};
ghost use Rattle.sfx_provider.specs.Leaves.{Rests};

use crate::work::Work;
use sfx_ids::{ItemId, Memory};
use sfx_item::{Item, Name, NameFault, State, clashes};
use sfx_items::find;
use sfx_provider::{Provider, ProviderFault};
use sfx_settle::Draft;
use std::alloc::Global;

/// The name of the drafted item, where that is live.
pub(crate) fn drafted_name<const U: usize>(
    alloc: Global,
    draft: &Draft<U>,
) -> Result<Option<Name>, Memory>
    requires { (name : List ℕ) → drafted_name draft.now ≡ Some name → IsName name }
    ensures { IfOk result (λ name. name ≡ drafted_name draft.now) }
{
    let Some(values) = &draft.values else {
        return Ok(None);
    };
    let Some(value) = values.first() else {
        return Ok(None);
    };
    match Name::read(alloc, value.bytes()) {
        Ok(name) => Ok(Some(name)),
        Err(NameFault::BadName(_)) => unreachable!(),
        Err(NameFault::Memory) => Err(Memory),
    }
}

/// Whether no other live item of the destination has a name that clashes with this one: none that waits to be
/// committed, and none of the provider's in whose place no other waits.
pub(crate) fn is_free<const U: usize, P: Provider<U>>(
    alloc: Global,
    provider: &mut P,
    work: &Work<U>,
    name: &Name,
    id: &ItemId,
) -> Result<bool, ProviderFault>
    requires waits { Waits U work.now.pending (P.state provider.old) }
    ensures value { let m = destination U work.now (P.state provider.old) in
        IfOk result (λ free. free ≡ is_free m.items id.now name.now) }
    ensures rests { Rests P.state P.kept P.settled P.came provider.old provider.new }
    ensures cause { HasCause blames_storage (P.faults provider.old) (P.faults provider.new) result }
{
    provider.keeps();
    let puts = work.puts();
    if clashes_with_one(puts, name, id) {
        return Ok(false);
    }
    let clashing = provider.clashing(alloc, name, id)?;
    Ok(are_put(clashing.as_slice(), puts))
}

/// Whether the name of one of the items but that with this id clashes with this one.
fn clashes_with_one<const U: usize>(items: &[Item<U>], name: &Name, except: &ItemId) -> bool
    ensures { result ≡ list_any (is_in_the_way name.now (Some except.now)) items.now }
{
    for item in items {
        if is_in_the_way(item, name, except) {
            return true;
        }
    }
    false
}

/// Whether the item is live and not that with this id, and its name clashes with this one.
fn is_in_the_way<const U: usize>(item: &Item<U>, name: &Name, except: &ItemId) -> bool
    ensures { result ≡ is_in_the_way name.now (Some except.now) item.now }
{
    item.id != *except && is_clashing(&item.state, name)
}

/// Whether the state is live, and its name clashes with this one.
fn is_clashing<const U: usize>(state: &State<U>, name: &Name) -> bool
    ensures { result ≡ is_clashing name.now (state_view state.now) }
{
    match state {
        State::Live(row) => clashes(name, row.name()),
        State::Dead(_) => false,
    }
}

/// Whether each of the ids is that of one of the items.
fn are_put<const U: usize>(ids: &[ItemId], items: &[Item<U>]) -> bool
    requires ascending { AreAscending items.now }
    ensures { result ≡ list_all (λ id. is_some (state_of items.now id)) ids.now }
{
    for id in ids {
        if find(items, id).is_none() {
            return false;
        }
    }
    true
}
