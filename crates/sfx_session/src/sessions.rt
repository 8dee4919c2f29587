ghost use Rattle.std.specs.Prelude.{◌≡◌, ◌≤◌, ◌↔◌, ◌<◌, None, IfOk, OnOk, OnErr, IsErrOf, IsOkUnless};
ghost use Rattle.sfx_apply.specs.Rules.{LeavesConflicts};
ghost use Rattle.sfx_model.specs.declared.mode.Mode.TheVariants.{Normal};
ghost use Rattle.sfx_model.specs.sessions.Acts.{DeedsActIn, TakePart};
ghost use Rattle.sfx_model.specs.sessions.Batch.{batch_from};
ghost use Rattle.sfx_model.specs.sessions.Deeds.{session_deeds};
ghost use Rattle.sfx_model.specs.sessions.MemberKnowledge.{ahead_of, laid_known};
ghost use Rattle.sfx_model.specs.sessions.Moments.{committed, stops};
ghost use Rattle.sfx_model.specs.sessions.Session.{outcome_of, applied_data, session_of};
ghost use Rattle.sfx_model.specs.world.World.{World};
ghost use Rattle.sfx_outside.specs.Fault.{HasRisen};
ghost use Rattle.sfx_provider.specs.Answer.{IsNever, OnFault, Refuses};
ghost use Rattle.sfx_provider.specs.Fault.{HasCause};
ghost use Rattle.sfx_provider.specs.Leaves.{Arrives, BreaksOff, Rests};
ghost use Rattle.sfx_segments.specs.Segments.{IsPlace};
ghost use Rattle.sfx_session.specs.Fault.{blames_destination, blames_source, source_is_ahead, refuses_session};
ghost use Rattle.sfx_session.specs.Refusals.{session_refusal};
ghost use Rattle.sfx_session.specs.Report.{AreLimits, report_of};
ghost use Rattle.sfx_session.specs.Travel.{due_outcome, next_arrival, next_travel};
ghost use Rattle.sfx_settle.specs.Rules.{rules_view};

use crate::heads::head_of;
use crate::refusal::refuse;
use crate::side::Side;
use crate::travel::Travel;
use crate::{Report, SessionFault};
use sfx_apply::{Applied, ApplyFault, apply_batch};
use sfx_batch::{Batch, BatchFault, make_batch};
use sfx_ids::Cut;
use sfx_model::{Mode, SessionEnd};
use sfx_provider::Provider;
use sfx_settle::{Merger, Rules};
use std::alloc::Global;

/// Brings to the destination what the source knows and it does not: batches of at most `size` changes are
/// made of the source and applied by the rules one after another, until no change is left. A conflict and a
/// clash of names is left alone: the destination stays there as it is, and goes on not knowing the source's
/// change. Entries are committed in groups of `group`. With a `cut` the session ends after so many entries.
///
/// The source stays as it is, whatever is answered.
///
/// In a well-formed world of replicas of which source and destination are two, and each represents its site, a
/// session that gave a report did deeds that may happen there one after another, and the world after them is
/// well-formed. There the source still represents its site, and so does the destination as it is now, with its
/// lists in order and live names that do not clash. No session in such a world is refused with `Ahead`.
///
/// # Errors
/// `SameReplica`, `Ahead` and `NotBuilt`, in this order and before anything changes: source and destination
/// have one id; the source knows or has forgotten more of the destination than its clock tells; the source
/// has forgotten deletions that the destination does not know. `Source` and `Destination`, each only where
/// that provider's count of faults rose, and `Memory`: the commits that were made stand then, and the
/// destination's kept state is one that such a session passes.
pub fn session<const U: usize, P: Provider<U>, Q: Provider<U>, M: Merger>(
    alloc: Global,
    source: &mut P,
    destination: &mut Q,
    rules: &Rules<M>,
    size: usize,
    group: u64,
    cut: Option<u64>,
) -> Result<Report<U>, SessionFault>
    requires settled { Q.settled destination.old }
    requires limits { AreLimits size group cut }
    requires skip { LeavesConflicts (rules_view M.meaning rules.now) }
    ensures report { let r = rules_view M.meaning rules.now in
        IfOk result (λ report. report ≡ report_of U (P.state source.old) (Q.state destination.old) r size cut) }
    ensures arrives { let r = rules_view M.meaning rules.now in
        let whole = (session_of U (P.state source.old) (Q.state destination.old) r size cut).course in
        OnOk result (Arrives Q.state Q.kept Q.settled Q.came destination.old destination.new
        (committed group whole.moments) whole.member) }
    ensures breaks_off { let r = rules_view M.meaning rules.now in
        let whole = (session_of U (P.state source.old) (Q.state destination.old) r size cut).course in
        OnErr result (BreaksOff Q.kept Q.came Q.broke destination.old destination.new
        (committed group whole.moments) (stops group (Q.state destination.old) whole.moments)) }
    ensures done { let r = rules_view M.meaning rules.now in
        let whole = session_of U (P.state source.old) (Q.state destination.old) r size None in
        cut ≡ None → IfOk result (λ report. report.end ≡ whole.end) }
    ensures same { IsErrOf result SessionFault.SameReplica ↔
        ((P.state source.old).id ≡ (Q.state destination.old).id) }
    ensures refused { Refuses refuses_session result (session_refusal U (P.state source.old) (Q.state destination.old)) }
    ensures unchanged { let rests = Rests Q.state Q.kept Q.settled Q.came destination.old destination.new in
        OnFault refuses_session result rests }
    ensures complete { session_refusal U (P.state source.old) (Q.state destination.old) ≡ None →
        ¬ HasRisen (P.faults source.old) (P.faults source.new) →
        ¬ HasRisen (Q.faults destination.old) (Q.faults destination.new) →
        IsOkUnless result SessionFault.Memory }
    ensures source { Rests P.state P.kept P.settled P.came source.old source.new }
    ensures source_cause { HasCause blames_source (P.faults source.old) (P.faults source.new) result }
    ensures destination_cause { HasCause blames_destination (Q.faults destination.old)
        (Q.faults destination.new) result }
    ensures acts { let to = Q.state destination.old in
        let deeds = session_deeds U (P.state source.old) to (rules_view M.meaning rules.now) size cut in
        OnOk result ((w : World) → TakePart w U (P.state source.old) to →
        DeedsActIn w deeds (P.state source.old) to.id (Q.state destination.new)) }
    ensures not_ahead { (w : World) → TakePart w U (P.state source.old) (Q.state destination.old) →
        IsNever source_is_ahead result }
{
    let mode = refuse(alloc, source, destination)?;
    let mut travel = Travel::new(alloc, cut);
    'batches: loop {
        match one_batch(
            alloc,
            source,
            destination,
            &mut travel,
            mode,
            rules,
            size,
            group,
        )? {
            Some(end) => return Ok(travel.report(mode, end)),
            None => {}
        }
    }
}

/// Makes the batch that is due and applies it; tells how the session ends with it, if it does.
fn one_batch<const U: usize, P: Provider<U>, Q: Provider<U>, M: Merger>(
    alloc: Global,
    source: &mut P,
    destination: &mut Q,
    travel: &mut Travel<U>,
    mode: Mode,
    rules: &Rules<M>,
    size: usize,
    group: u64,
) -> Result<Option<SessionEnd>, SessionFault>
    requires settled { Q.settled destination.old }
    requires size { 1 ≤ size }
    requires group { 1 ≤ group }
    requires normal { mode ≡ Normal }
    requires skip { LeavesConflicts (rules_view M.meaning rules.now) }
    requires place { IsPlace travel.old.from }
    requires ahead { let from = P.state source.old in
        ahead_of (Q.state destination.old) (laid_known U from) from.forgotten ≡ None }
    ensures end { let r = rules_view M.meaning rules.now in
        IfOk result (λ end. end ≡ next_arrival U (P.state source.old) mode r size
        (Q.state destination.old) travel.old) }
    ensures travel { let r = rules_view M.meaning rules.now in
        OnOk result (travel.new ≡
        next_travel U (P.state source.old) mode r size (Q.state destination.old) travel.old) }
    ensures arrives { let r = rules_view M.meaning rules.now in
        let o = due_outcome U (P.state source.old) mode r size (Q.state destination.old) travel.old in
        OnOk result (Arrives Q.state Q.kept Q.settled Q.came destination.old destination.new
        (committed group o.moments) o.member) }
    ensures breaks_off { let r = rules_view M.meaning rules.now in
        let o = due_outcome U (P.state source.old) mode r size (Q.state destination.old) travel.old in
        OnErr result (BreaksOff Q.kept Q.came Q.broke destination.old destination.new
        (committed group o.moments) (stops group (Q.state destination.old) o.moments)) }
    ensures ahead { let from = P.state source.old in
        OnOk result (ahead_of (Q.state destination.new) (laid_known U from) from.forgotten ≡ None) }
    ensures no_refusal { IsNever refuses_session result }
    ensures source { Rests P.state P.kept P.settled P.came source.old source.new }
    ensures source_cause { HasCause blames_source (P.faults source.old) (P.faults source.new) result }
    ensures destination_cause { HasCause blames_destination (Q.faults destination.old)
        (Q.faults destination.new) result }
{
    let from = travel.from();
    let batch = next_batch(alloc, source, destination, mode, &from, size)?;
    let applied = apply(alloc, destination, &batch, rules, group, travel.budget())?;
    Ok(travel.add(batch, applied)?)
}

/// The batch that is due to the destination as it is now.
#[tactic(auto, unfolding(sfx_model::specs::sessions::Batch::batch_from))]
fn next_batch<const U: usize, P: Provider<U>, Q: Provider<U>>(
    alloc: Global,
    source: &mut P,
    destination: &mut Q,
    mode: Mode,
    from: &Cut,
    size: usize,
) -> Result<Batch<U>, SessionFault>
    requires size { 1 ≤ size }
    requires place { IsPlace from.now }
    ensures value { let known = laid_known U (Q.state destination.old) in
        IfOk result (λ b. b ≡ batch_from U (P.state source.old) mode size known from.now) }
    ensures mode { IfOk result (λ b. b.mode ≡ mode) }
    ensures made_with { IfOk result (λ b. b.made_with ≡ laid_known U (P.state source.old)) }
    ensures forgotten { IfOk result (λ b. b.forgotten ≡ (P.state source.old).forgotten) }
    ensures no_refusal { IsNever refuses_session result }
    ensures source { Rests P.state P.kept P.settled P.came source.old source.new }
    ensures destination { Rests Q.state Q.kept Q.settled Q.came destination.old destination.new }
    ensures source_cause { HasCause blames_source (P.faults source.old) (P.faults source.new) result }
    ensures destination_cause { HasCause blames_destination (Q.faults destination.old)
        (Q.faults destination.new) result }
{
    let head = head_of(alloc, destination, Side::Destination)?;
    match make_batch(alloc, source, &head.knowledge, from, size, mode) {
        Ok(batch) => Ok(batch),
        Err(BatchFault::Provider) => Err(SessionFault::Source),
        Err(BatchFault::Memory) => Err(SessionFault::Memory),
    }
}

/// Applies the batch, of which nothing is ahead of the destination.
fn apply<const U: usize, Q: Provider<U>, M: Merger>(
    alloc: Global,
    destination: &mut Q,
    batch: &Batch<U>,
    rules: &Rules<M>,
    group: u64,
    budget: Option<u64>,
) -> Result<Applied<U>, SessionFault>
    requires settled { Q.settled destination.old }
    requires group { 1 ≤ group }
    requires normal { batch.now.mode ≡ Normal }
    requires skip { LeavesConflicts (rules_view M.meaning rules.now) }
    requires ahead { ahead_of (Q.state destination.old) batch.now.made_with batch.now.forgotten ≡ None }
    ensures applied { let o = outcome_of U batch.now (rules_view M.meaning rules.now) budget (Q.state destination.old) in
        IfOk result (λ a. a ≡ applied_data o) }
    ensures arrives { let o = outcome_of U batch.now (rules_view M.meaning rules.now) budget (Q.state destination.old) in
        OnOk result (Arrives Q.state Q.kept Q.settled Q.came destination.old destination.new
        (committed group o.moments) o.member) }
    ensures breaks_off { let o = outcome_of U batch.now (rules_view M.meaning rules.now) budget
        (Q.state destination.old) in
        OnErr result (BreaksOff Q.kept Q.came Q.broke destination.old destination.new
        (committed group o.moments) (stops group (Q.state destination.old) o.moments)) }
    ensures no_refusal { IsNever refuses_session result }
    ensures spares_source { IsNever blames_source result }
    ensures cause { HasCause blames_destination (Q.faults destination.old) (Q.faults destination.new) result }
{
    match apply_batch(alloc, destination, batch, rules, group, budget) {
        Ok(applied) => Ok(applied),
        Err(ApplyFault::Ahead { tick, clock }) => Err(SessionFault::Ahead { tick, clock }),
        Err(ApplyFault::Provider) => Err(SessionFault::Destination),
        Err(ApplyFault::Memory) => Err(SessionFault::Memory),
    }
}
