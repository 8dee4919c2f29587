ghost use Rattle.std.specs.Prelude.{◌≡◌, ◌≤◌, IfOk, OnOk, OnErr};
ghost use Rattle.sfx_apply.specs.Fault.{RefusesAtRest, blames_provider, batch_is_ahead, batch_refusal};
ghost use Rattle.sfx_apply.specs.Rules.{LeavesConflicts};
ghost use Rattle.sfx_apply.specs.Turns.{in_turn, seen_views, work_begun};
ghost use Rattle.sfx_apply.specs.Work.{KnowsNoMore, Waits};
ghost use Rattle.sfx_model.specs.sessions.Acts.{Brings, DeedsActIn};
ghost use Rattle.sfx_model.specs.sessions.Deeds.{batch_deeds};
ghost use Rattle.sfx_model.specs.members.Members.{Member};
ghost use Rattle.sfx_model.specs.sessions.Moments.{committed, stops};
ghost use Rattle.sfx_model.specs.sessions.Session.{outcome_of, applied_data};
ghost use Rattle.sfx_model.specs.world.World.{World};
ghost use Rattle.sfx_model.specs.declared.mode.Mode.TheVariants.{Normal};
ghost use Rattle.sfx_provider.specs.Answer.{IsNever, Refuses};
ghost use Rattle.sfx_provider.specs.Fault.{HasCause, blames_storage};
ghost use Rattle.sfx_provider.specs.Head.{head_of};
ghost use Rattle.sfx_provider.specs.Leaves.{Arrives, BreaksOff, Rests};
ghost use Rattle.sfx_settle.specs.Rules.{rules_view};

use crate::ordering::in_turn;
use crate::stepping::{change_step, range_step};
use crate::work::Work;
use crate::{Applied, ApplyFault, most_known};
use sfx_batch::Batch;
use sfx_item::Item;
use sfx_model::ApplyEnd;
use sfx_provider::{Head, Provider, ProviderFault};
use sfx_settle::{Merger, Rules};
use std::alloc::Global;

/// Applies a batch to the replica of a provider by these rules: what the source sent is brought, change by
/// change, and then the destination knows of the batch's range what the source knows, but for the units that
/// were left alone. The deletions come first, and then the live changes, each in order of their ids; each is
/// judged by what the replica holds at that moment. What was done is told, entry by entry.
///
/// For now the rules have to leave each conflict alone (`skip`), and the batch has to be one of mode Normal.
///
/// The replica is changed by commits: one after each `group` entries while changes are left, and one at the
/// end of the batch. With a `budget` no more than so many entries are applied; where changes are left then,
/// the end is `Cut`, and the range is not learned. `Full` is no end here, as no tick is drawn.
///
/// What that means among all replicas (`acts`): take any well-formed world in which source and destination are
/// two replicas that their states represent, and a batch that is due from this source to this destination,
/// which knows the deletions that the batch has forgotten. Where the answer is Ok, the deeds of the batch may
/// happen in that world one after another, and the world after them is well-formed; there the destination as
/// it is afterwards represents its replica, and the source, as it was, still represents its own. That holds
/// whether the batch was applied to its end or cut. In such a world the answer is never `Ahead` (`not_ahead`).
///
/// # Errors
/// - `Ahead` exactly where the batch knows or has forgotten a greater tick of the replica than its clock;
///   `tick` is the greatest one. Nothing has changed then.
/// - `Provider`, only where the provider's count of faults rose, and `Memory`. The commits that were made
///   stand, and the next one may have broken off; what is kept is a state that such a batch passes.
pub fn apply_batch<const U: usize, P: Provider<U>, M: Merger>(
    alloc: Global,
    provider: &mut P,
    batch: &Batch<U>,
    rules: &Rules<M>,
    group: u64,
    budget: Option<u64>,
) -> Result<Applied<U>, ApplyFault>
    requires settled { P.settled provider.old }
    requires skip { LeavesConflicts (rules_view M.meaning rules.now) }
    requires normal { batch.now.mode ≡ Normal }
    requires group { 1 ≤ group }
    ensures report { let o = outcome_of U batch.now (rules_view M.meaning rules.now) budget (P.state provider.old) in
        IfOk result (λ a. a ≡ applied_data o) }
    ensures arrives { let o = outcome_of U batch.now (rules_view M.meaning rules.now) budget (P.state provider.old) in
        let made = committed group o.moments in
        OnOk result (Arrives P.state P.kept P.settled P.came provider.old provider.new made o.member) }
    ensures breaks_off { let o = outcome_of U batch.now (rules_view M.meaning rules.now) budget (P.state provider.old) in
        let made = committed group o.moments in
        let ends = stops group (P.state provider.old) o.moments in
        OnErr result (BreaksOff P.kept P.came P.broke provider.old provider.new made ends) }
    ensures ahead { let still = Rests P.state P.kept P.settled P.came provider.old provider.new in
        RefusesAtRest still (batch_refusal (P.state provider.old) batch.now) result }
    ensures acts { let m = P.state provider.old in
        let deeds = batch_deeds U batch.now (rules_view M.meaning rules.now) budget m in
        OnOk result ((w : World) (source : Member) → Brings w U source m batch.now →
        DeedsActIn w deeds source m.id (P.state provider.new)) }
    ensures not_ahead { (w : World) (source : Member) → Brings w U source (P.state provider.old) batch.now →
        IsNever batch_is_ahead result }
    ensures cause { HasCause blames_provider (P.faults provider.old) (P.faults provider.new) result }
{
    provider.keeps();
    let work = begin(alloc, provider, batch, budget)?;
    match apply_changes(alloc, provider, batch, rules, group, work) {
        Ok(applied) => Ok(applied),
        Err(ProviderFault::Failed) => Err(ApplyFault::Provider),
        Err(ProviderFault::Memory) => Err(ApplyFault::Memory),
    }
}

/// The work before the first entry, when nothing waits. The destination stays as it is, whatever is answered.
///
/// # Errors
/// - `Ahead` exactly where the batch knows or has forgotten more of the destination than that made.
/// - `Provider` and `Memory`, of the reading.
fn begin<const U: usize, P: Provider<U>>(
    alloc: Global,
    provider: &mut P,
    batch: &Batch<U>,
    budget: Option<u64>,
) -> Result<Work<U>, ApplyFault>
    ensures begun { IfOk result (λ work. work ≡ work_begun U work.budget (P.state provider.new)) }
    ensures budget { IfOk result (λ work. work.budget ≡ budget) }
    ensures waits { IfOk result (λ work. Waits U work.pending (P.state provider.new)) }
    ensures no_more { OnOk result (KnowsNoMore U (P.state provider.new) batch.now) }
    ensures ahead { Refuses batch_is_ahead result (batch_refusal (P.state provider.old) batch.now) }
    ensures rests { Rests P.state P.kept P.settled P.came provider.old provider.new }
    ensures cause { HasCause blames_provider (P.faults provider.old) (P.faults provider.new) result }
{
    batch.keeps();
    provider.keeps();
    let head = head_of(alloc, provider)?;
    let tick = most_known(&batch.made_with, &batch.forgotten, &head.id);
    let clock = head.clock;
    if tick > clock {
        return Err(ApplyFault::Ahead { tick, clock });
    }
    Ok(Work {
        pending: head.into_commit(alloc),
        entries: Vec::new(alloc),
        budget,
    })
}

/// The head of the destination, which stays as it is, whatever is answered.
///
/// # Errors
/// `Provider` and `Memory`.
fn head_of<const U: usize, P: Provider<U>>(
    alloc: Global,
    provider: &mut P,
) -> Result<Head<U>, ApplyFault>
    ensures value { IfOk result (λ head. head ≡ head_of U (P.state provider.old)) }
    ensures not_ahead { IsNever batch_is_ahead result }
    ensures rests { Rests P.state P.kept P.settled P.came provider.old provider.new }
    ensures cause { HasCause blames_provider (P.faults provider.old) (P.faults provider.new) result }
{
    match provider.head(alloc) {
        Ok(head) => Ok(head),
        Err(ProviderFault::Failed) => Err(ApplyFault::Provider),
        Err(ProviderFault::Memory) => Err(ApplyFault::Memory),
    }
}

/// Applies the changes of a batch, the deletions first and then the live ones, and learns the batch's range.
fn apply_changes<const U: usize, P: Provider<U>, M: Merger>(
    alloc: Global,
    provider: &mut P,
    batch: &Batch<U>,
    rules: &Rules<M>,
    group: u64,
    mut work: Work<U>,
) -> Result<Applied<U>, ProviderFault>
    requires settled { P.settled provider.old }
    requires skip { LeavesConflicts (rules_view M.meaning rules.now) }
    requires normal { batch.now.mode ≡ Normal }
    requires no_more { KnowsNoMore U (P.state provider.old) batch.now }
    requires group { 1 ≤ group }
    requires begun { work ≡ work_begun U work.budget (P.state provider.old) }
    ensures report { let rules = rules_view M.meaning rules.now in
        let out = outcome_of U batch.now rules work.entry.budget (P.state provider.old) in
        IfOk result (λ a. a ≡ applied_data out) }
    ensures arrives { let rules = rules_view M.meaning rules.now in
        let out = outcome_of U batch.now rules work.entry.budget (P.state provider.old) in
        OnOk result (Arrives P.state P.kept P.settled P.came provider.old provider.new
        (committed group out.moments) out.member) }
    ensures breaks_off { let rules = rules_view M.meaning rules.now in
        let out = outcome_of U batch.now rules work.entry.budget (P.state provider.old) in
        OnErr result (BreaksOff P.kept P.came P.broke provider.old provider.new
        (committed group out.moments) (stops group (P.state provider.old) out.moments)) }
    ensures cause { HasCause blames_storage (P.faults provider.old) (P.faults provider.new) result }
{
    provider.keeps();
    let turns = in_turn(alloc, batch)?;
    let end = apply_turns(
        alloc,
        provider,
        batch,
        rules,
        turns.as_slice(),
        group,
        &mut work,
    )?;
    Ok(done(work, end))
}

/// Applies the changes of a batch in these turns, learns the batch's range, and tells how the batch ended.
fn apply_turns<const U: usize, P: Provider<U>, M: Merger>(
    alloc: Global,
    provider: &mut P,
    batch: &Batch<U>,
    rules: &Rules<M>,
    turns: &[&Item<U>],
    group: u64,
    work: &mut Work<U>,
) -> Result<ApplyEnd, ProviderFault>
    requires settled { P.settled provider.old }
    requires skip { LeavesConflicts (rules_view M.meaning rules.now) }
    requires normal { batch.now.mode ≡ Normal }
    requires no_more { KnowsNoMore U (P.state provider.old) batch.now }
    requires order { seen_views turns.now ≡ in_turn batch.now.changes }
    requires group { 1 ≤ group }
    requires begun { work.old ≡ work_begun U work.old.budget (P.state provider.old) }
    ensures report { let rules = rules_view M.meaning rules.now in
        let out = outcome_of U batch.now rules work.old.budget (P.state provider.old) in
        IfOk result (λ end. record { entries = work.new.entries; end = end } ≡ applied_data out) }
    ensures arrives { let rules = rules_view M.meaning rules.now in
        let out = outcome_of U batch.now rules work.old.budget (P.state provider.old) in
        OnOk result (Arrives P.state P.kept P.settled P.came provider.old provider.new
        (committed group out.moments) out.member) }
    ensures breaks_off { let rules = rules_view M.meaning rules.now in
        let out = outcome_of U batch.now rules work.old.budget (P.state provider.old) in
        OnErr result (BreaksOff P.kept P.came P.broke provider.old provider.new
        (committed group out.moments) (stops group (P.state provider.old) out.moments)) }
    ensures cause { HasCause blames_storage (P.faults provider.old) (P.faults provider.new) result }
{
    batch.keeps();
    provider.keeps();
    'changes: for (index, change) in turns.iter().enumerate() {
        let more = index + 1 < turns.len();
        if let Some(end) = change_step(alloc, provider, work, batch, rules, change, group, more)? {
            return Ok(end);
        }
    }
    range_step(alloc, provider, work, batch)?;
    Ok(ApplyEnd::Whole)
}

/// What is told of the work when it has ended so.
fn done<const U: usize>(work: Work<U>, end: ApplyEnd) -> Applied<U>
    ensures { result ≡ record { entries = work.entry.entries; end = end } }
{
    Applied {
        entries: work.entries,
        end,
    }
}
