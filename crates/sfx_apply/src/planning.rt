//! What an entry is to do with a change at the destination.
ghost use Rattle.std.specs.Prelude.{◌≡◌, ◌≤◌, ℕ, List, [], Some, if◌then◌else◌, IfOk};
ghost use Rattle.std.specs.Option.{option_map};
ghost use Rattle.sfx_apply.specs.Rules.{LeavesConflicts};
ghost use Rattle.sfx_apply.specs.Turns.{destination, is_free_or_none, plan_at};
ghost use Rattle.sfx_apply.specs.Work.{Waits};
ghost use Rattle.sfx_item.specs.Name.{IsName};
ghost use Rattle.sfx_model.specs.sessions.Clashes.{clash_draft, drafted_name};
ghost use Rattle.sfx_model.specs.members.Consistent.{IsItemState};
ghost use Rattle.sfx_model.specs.members.Members.{state_of};
ghost use Rattle.sfx_model.specs.declared.mode.Mode.TheVariants.{Normal};
ghost use Rattle.sfx_provider.specs.Fault.{HasCause, blames_storage};
ghost use Rattle.sfx_provider.specs.Leaves.{Rests};
ghost use Rattle.sfx_settle.specs.Rules.{rules_view};

use crate::drafting::drafted;
use crate::naming::{drafted_name, is_free};
use crate::work::Work;
use sfx_batch::Batch;
use sfx_ids::{ItemId, Memory};
use sfx_item::Item;
use sfx_provider::{Provider, ProviderFault};
use sfx_settle::{ClashRule, Draft, Merger, Rules, settle_clash};
use std::alloc::Global;

/// The draft of the change at the destination, which has the item so, or not at all. Where the name of a live
/// item clashes with that of another one there, it is as the rules say.
pub(crate) fn planned<const U: usize, P: Provider<U>, M: Merger>(
    alloc: Global,
    provider: &mut P,
    work: &Work<U>,
    batch: &Batch<U>,
    rules: &Rules<M>,
    change: &Item<U>,
    local: Option<&Item<U>>,
) -> Result<Draft<U>, ProviderFault>
    requires waits { Waits U work.now.pending (P.state provider.old) }
    requires skip { LeavesConflicts (rules_view M.meaning rules.now) }
    requires normal { batch.now.mode ≡ Normal }
    requires whole { IsItemState U change.now.state }
    requires local { let m = destination U work.now (P.state provider.old) in
        option_map (λ x. x.now.state) local ≡ state_of m.items change.now.id }
    ensures value { let m = destination U work.now (P.state provider.old) in
        let rules = rules_view M.meaning rules.now in
        IfOk result (λ draft. draft ≡ (plan_at U batch.now rules change.now m).draft) }
    ensures rests { Rests P.state P.kept P.settled P.came provider.old provider.new }
    ensures cause { HasCause blames_storage (P.faults provider.old) (P.faults provider.new) result }
{
    provider.keeps();
    let draft = drafted(alloc, work, batch, rules, change, local)?;
    let free = has_free_name(alloc, provider, work, &draft, &change.id)?;
    Ok(settled(alloc, draft, free, rules.clash)?)
}

/// Whether the drafted item with this id has no name at the destination, or one that is free there.
fn has_free_name<const U: usize, P: Provider<U>>(
    alloc: Global,
    provider: &mut P,
    work: &Work<U>,
    draft: &Draft<U>,
    id: &ItemId,
) -> Result<bool, ProviderFault>
    requires waits { Waits U work.now.pending (P.state provider.old) }
    requires name { (name : List ℕ) → drafted_name draft.now ≡ Some name → IsName name }
    ensures value { let m = destination U work.now (P.state provider.old) in
        IfOk result (λ free. free ≡ is_free_or_none m.items id.now (drafted_name draft.now)) }
    ensures rests { Rests P.state P.kept P.settled P.came provider.old provider.new }
    ensures cause { HasCause blames_storage (P.faults provider.old) (P.faults provider.new) result }
{
    provider.keeps();
    let drafted = drafted_name(alloc, draft)?;
    match drafted {
        Some(name) => is_free(alloc, provider, work, &name, id),
        None => Ok(true),
    }
}

/// The draft where the name is free, and else what the rule makes of it, but for a new name.
fn settled<const U: usize>(
    alloc: Global,
    draft: Draft<U>,
    free: bool,
    rule: ClashRule,
) -> Result<Draft<U>, Memory>
    requires { 1 ≤ U }
    ensures { IfOk result (λ settled. settled ≡ (if free then draft.entry else clash_draft U rule draft.entry)) }
{
    if free {
        return Ok(draft);
    }
    settle_clash(alloc, draft, rule)
}
