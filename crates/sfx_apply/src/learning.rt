//! What the destination learns.
ghost use Rattle.std.specs.Prelude.{◌≡◌, ◌≤◌, IfOk};
ghost use Rattle.sfx_ids.specs.declared.cut.Cut.TheVariants.{After, At};
ghost use Rattle.sfx_knowledge.specs.Knowledge.{IsKnowledge};
ghost use Rattle.sfx_model.specs.sessions.Entry.{left_from};
ghost use Rattle.sfx_model.specs.sessions.MemberKnowledge.{learned_known};
ghost use Rattle.sfx_model.specs.sessions.Session.{lefts};

use crate::Entry;
use crate::marking::{left_by, left_of};
use sfx_ids::{Cut, ItemId, Memory};
use sfx_knowledge::Knowledge;
use sfx_settle::Marks;
use std::alloc::Global;

/// What is known with what the source knows of an item with these marks, but for the units that are left
/// alone.
pub(crate) fn learned_item<const U: usize>(
    alloc: Global,
    known: &Knowledge<U>,
    made_with: &Knowledge<U>,
    id: &ItemId,
    marks: &Marks<U>,
) -> Result<Knowledge<U>, Memory>
    requires some { 1 ≤ U }
    requires known { IsKnowledge U known.now }
    requires made_with { IsKnowledge U made_with.now }
    ensures { let left = left_from id.now 0 marks.now in
        let all = learned_known U (At id.now) (After id.now) left known.now made_with.now in
        IfOk result (λ learned. learned ≡ all) }
{
    let left = left_of(alloc, id, marks)?;
    known.learn_item(alloc, made_with, id, &left)
}

/// What is known with what the source knows of the places from `lo` up to but not `hi`, but for the units that
/// the entries left alone.
pub(crate) fn learned_range<const U: usize>(
    alloc: Global,
    known: &Knowledge<U>,
    made_with: &Knowledge<U>,
    lo: &Cut,
    hi: &Cut,
    entries: &[Entry<U>],
) -> Result<Knowledge<U>, Memory>
    requires some { 1 ≤ U }
    requires known { IsKnowledge U known.now }
    requires made_with { IsKnowledge U made_with.now }
    ensures { let all = learned_known U lo.now hi.now (lefts entries.now) known.now made_with.now in
        IfOk result (λ learned. learned ≡ all) }
{
    let left = left_by(alloc, entries)?;
    known.learn(alloc, made_with, lo, hi, &left)
}
