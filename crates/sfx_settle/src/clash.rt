ghost use Rattle.std.specs.Prelude.{◌≡◌, ◌≤◌, IfOk};
ghost use Rattle.sfx_model.specs.sessions.Clashes.{clash_draft};
ghost use Rattle.sfx_model.specs.declared.clash_rule.ClashRule.TheVariants.{RenameSource};

use crate::{ClashRule, Draft, Mark};
use sfx_ids::{Memory, UnitId};
use std::alloc::Global;

/// The draft of an incoming item whose name clashes, by the rule, but for its new name. It stays as it is
/// where the other items give way; the item is deleted where they do not; it gets a stamp on its name where
/// it is renamed; and it is left alone where it is skipped.
///
/// # Errors
/// `Memory`.
pub fn settle_clash<const U: usize>(
    alloc: Global,
    draft: Draft<U>,
    rule: ClashRule,
) -> Result<Draft<U>, Memory>
    requires { 1 ≤ U }
    ensures { IfOk result (λ settled. settled ≡ clash_draft U rule draft.entry) }
{
    match rule {
        ClashRule::Source | ClashRule::RenameDestination => Ok(draft),
        ClashRule::Destination => Draft::all(alloc, Mark::Stamped, None),
        ClashRule::RenameSource => Ok(with_stamped_name(draft)),
        ClashRule::Skip => Draft::all(alloc, Mark::Left, None),
    }
}

/// The draft with a stamp on its name.
fn with_stamped_name<const U: usize>(mut draft: Draft<U>) -> Draft<U>
    requires { 1 ≤ U }
    ensures { result ≡ clash_draft U RenameSource draft.entry }
{
    if let Some(unit) = UnitId::new(0) {
        draft.marks.put(unit, Mark::Stamped);
    }
    draft
}
