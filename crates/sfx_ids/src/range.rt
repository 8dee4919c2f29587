ghost use Rattle.std.specs.Prelude.{◌≡◌};
ghost use Rattle.sfx_ids.specs.Cut.{is_between};
ghost use Rattle.sfx_ids.specs.declared.cut.Cut.TheVariants.{At};

use crate::{Cut, ItemId};

/// Whether the place of the item is in the range from one cut up to, but not including, the other.
pub fn in_range(id: &ItemId, lo: &Cut, hi: &Cut) -> bool
    ensures { result ≡ is_between lo.now hi.now (At id.now) }
{
    let here = Cut::At(*id);
    *lo <= here && here < *hi
}
