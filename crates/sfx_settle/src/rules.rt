ghost use Rattle.std.specs.Prelude.{◌≡◌};

use crate::{ClashRule, Keep};

/// What a session does about conflicts: whose content of a unit is kept, what becomes of clashing names, and
/// how two values of a unit are merged.
#[derive(Clone, Copy, Debug, PartialEq, Eq)]
pub struct Rules<M> {
    pub keep: Keep,
    pub clash: ClashRule,
    pub merger: M,
}
