//! What is compared with knowledge.
ghost use Rattle.std.specs.Prelude.{◌≡◌};
ghost use Rattle.sfx_model.specs.sessions.Class.{is_forgotten_within};
ghost use Rattle.sfx_model.specs.members.Readings.{is_unseen, is_unseen_at, knows_version};

use sfx_ids::{ItemId, UnitId, Version};
use sfx_item::Item;
use sfx_knowledge::{Forgotten, Knowledge};

/// Whether the knowledge of the item's unit contains the version.
pub fn knows_version<const U: usize>(
    known: &Knowledge<U>,
    id: &ItemId,
    unit: UnitId<U>,
    version: &Version,
) -> bool
    ensures { result ≡ knows_version known.now id.now unit.entry version.now }
{
    known.contains(id, unit, version)
}

/// Whether the version of the unit that this state of the item has is one that the knowledge does not
/// contain.
pub fn is_unseen_at<const U: usize>(
    known: &Knowledge<U>,
    id: &ItemId,
    item: &Item<U>,
    unit: UnitId<U>,
) -> bool
    ensures { result ≡ is_unseen_at known.now id.now item.now.state unit.entry }
{
    !knows_version(known, id, unit, &item.version(unit))
}

/// Whether this state of the item has a unit whose version the knowledge does not contain.
pub fn is_unseen<const U: usize>(known: &Knowledge<U>, id: &ItemId, item: &Item<U>) -> bool
    ensures { result ≡ is_unseen U known.now (record { id = id.now; state = item.now.state }) }
{
    for index in 0..U {
        let unit = UnitId::new(index).unwrap();
        if is_unseen_at(known, id, item, unit) {
            return true;
        }
    }
    false
}

/// Whether the forgotten deletions are within the knowledge of the item, at every unit.
pub fn is_forgotten_within<const U: usize>(
    forgotten: &Forgotten,
    known: &Knowledge<U>,
    id: &ItemId,
) -> bool
    ensures { result ≡ is_forgotten_within U forgotten.now known.now id.now }
{
    forgotten.within_item(known, id)
}
