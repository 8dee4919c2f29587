//! What an entry is to do with a change, whatever its name.
ghost use Rattle.std.specs.Prelude.{◌≡◌, ◌≤◌, Some, IfOk};
ghost use Rattle.std.specs.Option.{option_map};
ghost use Rattle.sfx_apply.specs.Turns.{draft_now};
ghost use Rattle.sfx_apply.specs.Work.{FitsSides, live_cells};
ghost use Rattle.sfx_model.specs.sessions.Class.{Units, class_of};
ghost use Rattle.sfx_model.specs.sessions.Draft.{all_marked, draft_of, values_of};
ghost use Rattle.sfx_model.specs.declared.mark.Mark.TheVariants.{Taken};
ghost use Rattle.sfx_settle.specs.Class.{class_view};
ghost use Rattle.sfx_settle.specs.Rules.{rules_view};

use crate::work::Work;
use sfx_batch::Batch;
use sfx_ids::Memory;
use sfx_item::{Item, Row, State};
use sfx_settle::{
    Class, Draft, Mark, Merger, Rules, UnitClasses, classify, settle_units, settle_whole, values_of,
};
use std::alloc::Global;

/// The draft of the change at the destination, which has the item so, or not at all, whatever its name.
pub(crate) fn drafted<const U: usize, M: Merger>(
    alloc: Global,
    work: &Work<U>,
    batch: &Batch<U>,
    rules: &Rules<M>,
    change: &Item<U>,
    local: Option<&Item<U>>,
) -> Result<Draft<U>, Memory>
    requires { 1 ≤ U }
    ensures { let here = option_map (λ x. x.now.state) local.entry in
        let rules = rules_view M.meaning rules.now in
        IfOk result (λ draft. draft ≡ draft_now U batch.now rules work.now.pending change.now here) }
{
    let class = class_of(alloc, work, batch, change, local)?;
    draft_of(alloc, &class, rules, change, local)
}

/// The class of the change.
fn class_of<const U: usize>(
    alloc: Global,
    work: &Work<U>,
    batch: &Batch<U>,
    change: &Item<U>,
    local: Option<&Item<U>>,
) -> Result<Class<U>, Memory>
    requires { 1 ≤ U }
    ensures { let here = option_map (λ x. x.now.state) local.entry in
        let c = work.now.pending in
        IfOk result (λ class. class_view class
        ≡ class_of U c.knowledge batch.now.made_with c.forgotten change.now here) }
{
    let pending = &work.pending;
    classify(
        alloc,
        change,
        &batch.made_with,
        local,
        &pending.knowledge,
        &pending.forgotten,
    )
}

/// The draft of a change of this class.
fn draft_of<const U: usize, M: Merger>(
    alloc: Global,
    class: &Class<U>,
    rules: &Rules<M>,
    change: &Item<U>,
    local: Option<&Item<U>>,
) -> Result<Draft<U>, Memory>
    requires { let here = option_map (λ x. x.now.state) local in
        FitsSides (class_view class.now) change.now.state here }
    ensures { let here = option_map (λ x. x.now.state) local.entry in
        let seen = Some change.now.state in
        IfOk result (λ draft. draft ≡ draft_of U (rules_view M.meaning rules.now) (class_view class.now) seen here) }
{
    match class {
        Class::Known => Draft::all(alloc, Mark::Stays, None),
        Class::TakeWhole => whole_draft(alloc, change),
        Class::Units(classes) => live_draft(alloc, classes, rules, change, local),
        Class::WholeConflict => settle_whole(alloc, Some(change), local, rules.keep),
    }
}

/// The draft of an item that is taken from the source as it is.
fn whole_draft<const U: usize>(alloc: Global, change: &Item<U>) -> Result<Draft<U>, Memory>
    ensures { let seen = Some change.now.state in
        IfOk result (λ draft. draft ≡ all_marked U Taken (values_of seen)) }
{
    let values = values_of(alloc, Some(change))?;
    Draft::all(alloc, Mark::Taken, values)
}

/// The draft of an item that is live on both sides, of these classes.
fn live_draft<const U: usize, M: Merger>(
    alloc: Global,
    classes: &UnitClasses<U>,
    rules: &Rules<M>,
    change: &Item<U>,
    local: Option<&Item<U>>,
) -> Result<Draft<U>, Memory>
    requires { let here = option_map (λ x. x.now.state) local in
        FitsSides (Units classes.now) change.now.state here }
    ensures { let here = option_map (λ x. x.now.state) local.entry in
        let seen = Some change.now.state in
        IfOk result (λ draft. draft ≡ draft_of U (rules_view M.meaning rules.now) (Units classes.now) seen here) }
{
    match (&change.state, live_row(local)) {
        (State::Live(row), Some(own)) => settle_units(alloc, row, own, classes, rules),
        _ => unreachable!(),
    }
}

/// The row of an item that is there and live.
fn live_row<'a, const U: usize>(item: Option<&'a Item<U>>) -> Option<&'a Row<U>>
    ensures { let here = option_map (λ x. x.now.state) item.entry in
        option_map (λ row. row.now) result ≡ live_cells here }
{
    match &item?.state {
        State::Live(row) => Some(row),
        State::Dead(_) => None,
    }
}
