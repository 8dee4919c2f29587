//! The live items whose names clash with a name.
ghost use Rattle.std.specs.Prelude.{◌≡◌, IfOk};
ghost use Rattle.std.specs.Option.{option_copied};
ghost use Rattle.sfx_item.specs.Item.{state_view};
ghost use Rattle.sfx_model.specs.members.Readings.{clashing_with, first_clash, is_clashing, is_in_the_way};

use sfx_ids::ItemId;
use sfx_item::{Item, Name, State, clashes};
use std::alloc::{AllocError, Global};

/// The ids of the live items but the excepted one whose names clash with this one, ascending.
pub fn clashing<const U: usize>(
    alloc: Global,
    items: &[Item<U>],
    name: &Name,
    except: Option<&ItemId>,
) -> Result<Vec<ItemId>, AllocError>
    ensures { IfOk result (λ ids. ids.items ≡
        clashing_with name.now (option_copied except.entry) items.now) }
{
    let mut ids = Vec::new(alloc);
    for item in items {
        if is_in_the_way(item, name, except) {
            ids.push(item.id)?;
        }
    }
    Ok(ids)
}

/// The first of them.
pub fn first_clash<const U: usize>(
    items: &[Item<U>],
    name: &Name,
    except: Option<&ItemId>,
) -> Option<ItemId>
    ensures { result ≡ first_clash name.now (option_copied except.entry) items.now }
{
    for item in items {
        if is_in_the_way(item, name, except) {
            return Some(item.id);
        }
    }
    None
}

/// Whether the item is live and not excepted, and its name clashes with this one.
fn is_in_the_way<const U: usize>(item: &Item<U>, name: &Name, except: Option<&ItemId>) -> bool
    ensures { result ≡ is_in_the_way name.now (option_copied except.entry) item.now }
{
    except != Some(&item.id) && is_clashing(&item.state, name)
}

/// Whether the state is live, and its name clashes with this one.
fn is_clashing<const U: usize>(state: &State<U>, name: &Name) -> bool
    ensures { result ≡ is_clashing name.now (state_view state.now) }
{
    match state {
        State::Live(row) => clashes(name, row.name()),
        State::Dead(_) => false,
    }
}
