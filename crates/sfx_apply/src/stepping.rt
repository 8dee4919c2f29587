//! The steps of a batch: the changes, and the range at its end, each with the commit that follows.
ghost use Rattle.std.specs.Prelude.{◌≡◌, ◌≤◌, ◌∷◌, [], length, IfOk, OnOk, OnErr};
ghost use Rattle.sfx_apply.specs.Rules.{LeavesConflicts};
ghost use Rattle.sfx_apply.specs.Turns.{destination, end_before, is_due, next_state, next_states, next_work, with_range_of};
ghost use Rattle.sfx_apply.specs.Work.{KnowsNoMore, Waits};
ghost use Rattle.sfx_model.specs.sessions.Batch.{IsSent};
ghost use Rattle.sfx_model.specs.members.Consistent.{IsConsistent};
ghost use Rattle.sfx_model.specs.declared.mode.Mode.TheVariants.{Normal};
ghost use Rattle.sfx_provider.specs.Fault.{HasCause, blames_storage};
ghost use Rattle.sfx_provider.specs.Leaves.{Arrives, BreaksOff};
ghost use Rattle.sfx_settle.specs.Rules.{rules_view};

use crate::committing::commit_if;
use crate::turn::turn;
use crate::work::Work;
use sfx_batch::Batch;
use sfx_item::Item;
use sfx_model::ApplyEnd;
use sfx_provider::{Provider, ProviderFault};
use sfx_settle::{Merger, Rules};
use std::alloc::Global;

/// A change in its turn, and the commit where one is due; `more` tells whether further changes are left.
pub(crate) fn change_step<const U: usize, P: Provider<U>, M: Merger>(
    alloc: Global,
    provider: &mut P,
    work: &mut Work<U>,
    batch: &Batch<U>,
    rules: &Rules<M>,
    change: &Item<U>,
    group: u64,
    more: bool,
) -> Result<Option<ApplyEnd>, ProviderFault>
    requires settled { P.settled provider.old }
    requires waits { Waits U work.old.pending (P.state provider.old) }
    requires skip { LeavesConflicts (rules_view M.meaning rules.now) }
    requires normal { batch.now.mode ≡ Normal }
    requires no_more { KnowsNoMore U (P.state provider.old) batch.now }
    requires sent { IsSent U batch.now change.now.id change.now.state }
    requires group { 1 ≤ group }
    ensures value { let rules = rules_view M.meaning rules.now in
        let x = change.now in
        IfOk result (λ end. end ≡ end_before U batch.now rules x work.old (P.state provider.old)) }
    ensures work { let rules = rules_view M.meaning rules.now in
        let m = P.state provider.old in
        OnOk result (work.new ≡ next_work U group batch.now rules change.now more work.old m) }
    ensures arrives { let rules = rules_view M.meaning rules.now in
        let made = next_states U group batch.now rules change.now more work.old (P.state provider.old) in
        let last = next_state U group batch.now rules change.now more work.old (P.state provider.old) in
        OnOk result (Arrives P.state P.kept P.settled P.came provider.old provider.new made last) }
    ensures breaks_off { let rules = rules_view M.meaning rules.now in
        let made = next_states U group batch.now rules change.now more work.old (P.state provider.old) in
        OnErr result (BreaksOff P.kept P.came P.broke provider.old provider.new made (P.state provider.old ∷ made)) }
    ensures consistent { IsConsistent U (P.state provider.old) }
    ensures cause { HasCause blames_storage (P.faults provider.old) (P.faults provider.new) result }
{
    let end = turn(alloc, provider, work, batch, rules, change)?;
    let due = is_due(group, more, end, work.count());
    commit_if(provider, work, due)?;
    Ok(end)
}

/// Whether a commit is due after so many entries of a batch that goes on, or ends so: after each group where
/// a further change is left, and where the batch ends, if entries came since.
fn is_due(group: u64, more: bool, end: Option<ApplyEnd>, count: usize) -> bool
    requires { 1 ≤ group }
    ensures { result ≡ is_due group more end count }
{
    let whole = (count as u64).is_multiple_of(group);
    match end {
        None => more && whole,
        Some(_) => !whole,
    }
}

/// The batch's range is learned, but for the units that were left alone, and all that waits is committed.
pub(crate) fn range_step<const U: usize, P: Provider<U>>(
    alloc: Global,
    provider: &mut P,
    work: &mut Work<U>,
    batch: &Batch<U>,
) -> Result<(), ProviderFault>
    requires settled { P.settled provider.old }
    requires waits { Waits U work.old.pending (P.state provider.old) }
    requires no_more { KnowsNoMore U (P.state provider.old) batch.now }
    ensures entries { OnOk result (work.new.entries ≡ work.old.entries) }
    ensures arrives { let last = destination U (with_range_of U batch.now work.old) (P.state provider.old) in
        OnOk result (Arrives P.state P.kept P.settled P.came provider.old provider.new (last ∷ []) last) }
    ensures breaks_off { let made = destination U (with_range_of U batch.now work.old) (P.state provider.old) ∷ [] in
        OnErr result (BreaksOff P.kept P.came P.broke provider.old provider.new made (P.state provider.old ∷ made)) }
    ensures consistent { IsConsistent U (P.state provider.old) }
    ensures cause { HasCause blames_storage (P.faults provider.old) (P.faults provider.new) result }
{
    batch.keeps();
    provider.keeps();
    work.learn(alloc, batch)?;
    commit_if(provider, work, true)
}
