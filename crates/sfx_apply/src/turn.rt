//! The turn of a change.
ghost use Rattle.std.specs.Prelude.{◌≡◌, [], IfOk, OnOk};
ghost use Rattle.sfx_apply.specs.Rules.{LeavesConflicts};
ghost use Rattle.sfx_apply.specs.Turns.{end_before, turned};
ghost use Rattle.sfx_apply.specs.Work.{KnowsNoMore, Waits};
ghost use Rattle.sfx_model.specs.sessions.Batch.{IsSent};
ghost use Rattle.sfx_model.specs.members.Consistent.{IsConsistent};
ghost use Rattle.sfx_model.specs.declared.mode.Mode.TheVariants.{Normal};
ghost use Rattle.sfx_provider.specs.Fault.{HasCause, blames_storage};
ghost use Rattle.sfx_provider.specs.Leaves.{Rests};
ghost use Rattle.sfx_settle.specs.Rules.{rules_view};

use crate::planning::planned;
use crate::reading::item_now;
use crate::work::Work;
use sfx_batch::Batch;
use sfx_item::Item;
use sfx_model::ApplyEnd;
use sfx_provider::{Provider, ProviderFault};
use sfx_settle::{Merger, Rules};
use std::alloc::Global;

/// The turn of a change: it waits to be committed then. Or the batch ends before it, as no more entries were
/// asked for, and then nothing has changed.
pub(crate) fn turn<const U: usize, P: Provider<U>, M: Merger>(
    alloc: Global,
    provider: &mut P,
    work: &mut Work<U>,
    batch: &Batch<U>,
    rules: &Rules<M>,
    change: &Item<U>,
) -> Result<Option<ApplyEnd>, ProviderFault>
    requires waits { Waits U work.old.pending (P.state provider.old) }
    requires skip { LeavesConflicts (rules_view M.meaning rules.now) }
    requires normal { batch.now.mode ≡ Normal }
    requires no_more { KnowsNoMore U (P.state provider.old) batch.now }
    requires sent { IsSent U batch.now change.now.id change.now.state }
    ensures value { let rules = rules_view M.meaning rules.now in
        let x = change.now in
        IfOk result (λ end. end ≡ end_before U batch.now rules x work.old (P.state provider.old)) }
    ensures work { let rules = rules_view M.meaning rules.now in
        let x = change.now in
        OnOk result (work.new ≡ turned U batch.now rules x work.old (P.state provider.old)) }
    ensures waits { OnOk result (Waits U work.new.pending (P.state provider.old)) }
    ensures rests { Rests P.state P.kept P.settled P.came provider.old provider.new }
    ensures consistent { IsConsistent U (P.state provider.old) }
    ensures cause { HasCause blames_storage (P.faults provider.old) (P.faults provider.new) result }
{
    batch.keeps();
    provider.keeps();
    if work.is_spent() {
        return Ok(Some(ApplyEnd::Cut));
    }
    let local = item_now(alloc, provider, work, &change.id)?;
    let draft = planned(alloc, provider, work, batch, rules, change, local.as_ref())?;
    work.add(alloc, batch, change, local.as_ref(), draft.marks)?;
    Ok(None)
}
