ghost use Rattle.std.specs.Prelude.{◌≡◌, IfOk};

use sfx_ids::{ItemId, Memory, Tick};
use sfx_item::Name;
use std::alloc::Global;
use std::marker::Model;

/// Another item than its own that an entry changed, at this tick: it has this new name, or else it was
/// deleted.
#[derive(Drop)]
pub struct Other {
    pub item: ItemId,
    pub tick: Tick,
    pub name: Option<Name>,
}

impl Model for Other {
    ghost use Rattle.sfx_model.specs.sessions.Entry.{OtherData};

    ghost Value = { OtherData };

    ghost view = { λ o. record { item = o.item; tick = o.tick; name = o.name } };
}

impl Other {
    /// An equal value of its own memory.
    ///
    /// # Errors
    /// `Memory`.
    pub fn copy(&self, alloc: Global) -> Result<Self, Memory>
        ensures { IfOk result (λ copied. copied ≡ self.now) }
    {
        Ok(Other {
            item: self.item,
            tick: self.tick,
            name: copied_name(alloc, &self.name)?,
        })
    }
}

/// An equal name, where there is one.
pub(crate) fn copied_name(alloc: Global, name: &Option<Name>) -> Result<Option<Name>, Memory>
    ensures { IfOk result (λ copied. copied ≡ name.now) }
{
    match name {
        Some(name) => Ok(Some(name.copy(alloc)?)),
        None => Ok(None),
    }
}
