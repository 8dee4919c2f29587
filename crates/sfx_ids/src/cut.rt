ghost use Rattle.std.specs.Prelude.{◌≡◌};
ghost use Rattle.std.specs.Ordering.{eq_by_cmp, as_partial_cmp};
ghost use Rattle.std.specs.Cmp.{partial_order_from_own_ties};
ghost use Rattle.std.specs.Cmp.Rules.{comparing};
ghost use Rattle.std.proofs.Common.{rules};

use crate::ItemId;
use std::cmp::Ordering;

/// A place between items, in order of their ids: `Start` is before all of them and `End` behind,
/// `At` just before its item and `After` just behind it. A cut other than `End` is a place: `At(x)`
/// is that of the item `x`, `After(x)` the gap behind it.
#[derive(Clone, Copy, Debug)]
pub enum Cut {
    Start,
    At(ItemId),
    After(ItemId),
    End,
}

impl PartialEq for Cut {
    ghost use Rattle.sfx_ids.specs.Cut.{cut_cmp};

    ghost eq = { eq_by_cmp cut_cmp };

    ghost laws = { Prim.search (comparing, rules) depth 9 };

    fn eq(&self, other: &Cut) -> bool {
        self.cmp(other).is_eq()
    }
}

impl Eq for Cut {
    ghost laws = { Prim.search (comparing, rules) depth 9 };
}

impl PartialOrd for Cut {
    ghost use Rattle.sfx_ids.specs.Cut.{cut_cmp};

    ghost partial_cmp = { as_partial_cmp cut_cmp };

    ghost laws = { partial_order_from_own_ties (Prim.search (comparing, rules) depth 9)
        (Prim.search (comparing, rules) depth 9) };

    fn partial_cmp(&self, other: &Cut) -> Option<Ordering> {
        Some(self.cmp(other))
    }
}

impl Ord for Cut {
    ghost use Rattle.sfx_ids.specs.Cut.{cut_cmp};

    ghost cmp = { cut_cmp };

    ghost total = { Prim.search (comparing, rules) depth 9 };

    ghost matches_partial_cmp = { Prim.search (comparing, rules) depth 9 };

    ghost matches_eq = { Prim.search (comparing, rules) depth 9 };

    fn cmp(&self, other: &Cut) -> Ordering {
        match (self, other) {
            (Cut::Start, Cut::Start) | (Cut::End, Cut::End) => Ordering::Equal,
            (Cut::Start, _) | (_, Cut::End) => Ordering::Less,
            (_, Cut::Start) | (Cut::End, _) => Ordering::Greater,
            (Cut::At(a), Cut::At(b)) | (Cut::After(a), Cut::After(b)) => a.cmp(b),
            (Cut::At(a), Cut::After(b)) => a.cmp(b).then(Ordering::Less),
            (Cut::After(a), Cut::At(b)) => a.cmp(b).then(Ordering::Greater),
        }
    }
}
