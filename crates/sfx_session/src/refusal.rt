ghost use Rattle.std.specs.Prelude.{◌≡◌, ◌≤◌, ◌↔◌, IfErr, IfOk, OnOk, IsErrOf};
ghost use Rattle.sfx_model.specs.declared.mode.Mode.TheVariants.{Normal};
ghost use Rattle.sfx_model.specs.sessions.Acts.{TakePart};
ghost use Rattle.sfx_model.specs.sessions.Batch.{mode_of};
ghost use Rattle.sfx_model.specs.members.Consistent.{IsConsistent};
ghost use Rattle.sfx_model.specs.sessions.MemberKnowledge.{laid_known, most_known};
ghost use Rattle.sfx_model.specs.world.World.{World};
ghost use Rattle.sfx_provider.specs.Answer.{IsNever, Refuses};
ghost use Rattle.sfx_provider.specs.Fault.{HasCause};
ghost use Rattle.sfx_provider.specs.Leaves.{Rests};
ghost use Rattle.sfx_session.specs.Fault.{blames_destination, blames_source, source_is_ahead, refuses_session};
ghost use Rattle.sfx_session.specs.Refusals.{session_refusal};

use crate::SessionFault;
use crate::heads::head_of;
use crate::side::Side;
use sfx_apply::most_known;
use sfx_ids::ReplicaId;
use sfx_knowledge::{Forgotten, Knowledge};
use sfx_model::Mode;
use sfx_provider::Provider;
use std::alloc::Global;

/// The mode of the session, where it may begin; nothing changes.
pub(crate) fn refuse<const U: usize, P: Provider<U>, Q: Provider<U>>(
    alloc: Global,
    source: &mut P,
    destination: &mut Q,
) -> Result<Mode, SessionFault>
    ensures mode { let known = laid_known U (Q.state destination.old) in
        IfOk result (λ mode. mode ≡ mode_of U (P.state source.old).forgotten known) }
    ensures normal { IfOk result (λ mode. mode ≡ Normal) }
    ensures refused { Refuses refuses_session result (session_refusal U (P.state source.old) (Q.state destination.old)) }
    ensures consistent { OnOk result
        (IsConsistent U (P.state source.old) × IsConsistent U (Q.state destination.old)) }
    ensures not_ahead { (w : World) → TakePart w U (P.state source.old) (Q.state destination.old) →
        IsNever source_is_ahead result }
    ensures same { IsErrOf result SessionFault.SameReplica ↔
        ((P.state source.old).id ≡ (Q.state destination.old).id) }
    ensures source { Rests P.state P.kept P.settled P.came source.old source.new }
    ensures destination { Rests Q.state Q.kept Q.settled Q.came destination.old destination.new }
    ensures source_cause { HasCause blames_source (P.faults source.old) (P.faults source.new) result }
    ensures destination_cause { HasCause blames_destination (Q.faults destination.old)
        (Q.faults destination.new) result }
{
    if source.id() == destination.id() {
        return Err(SessionFault::SameReplica);
    }
    let (tick, clock, mode) = bearing(alloc, source, destination)?;
    if tick > clock {
        return Err(SessionFault::Ahead { tick, clock });
    }
    match mode {
        Mode::Normal => Ok(Mode::Normal),
        Mode::Recover => Err(SessionFault::NotBuilt),
    }
}

/// What decides whether the session may begin: the greatest tick of the destination that the source knows or
/// has forgotten, the destination's clock, and the mode of a session between them.
fn bearing<const U: usize, P: Provider<U>, Q: Provider<U>>(
    alloc: Global,
    source: &mut P,
    destination: &mut Q,
) -> Result<(u64, u64, Mode), SessionFault>
    ensures tick { let from = P.state source.old in
        IfOk result (λ b. b.0 ≡ most_known (Q.state destination.old).id (laid_known U from) from.forgotten) }
    ensures clock { IfOk result (λ b. b.1 ≡ (Q.state destination.old).clock) }
    ensures mode { let known = laid_known U (Q.state destination.old) in
        IfOk result (λ b. b.2 ≡ mode_of U (P.state source.old).forgotten known) }
    ensures consistent { OnOk result
        (IsConsistent U (P.state source.old) × IsConsistent U (Q.state destination.old)) }
    ensures no_refusal { IsNever refuses_session result }
    ensures source { Rests P.state P.kept P.settled P.came source.old source.new }
    ensures destination { Rests Q.state Q.kept Q.settled Q.came destination.old destination.new }
    ensures source_cause { HasCause blames_source (P.faults source.old) (P.faults source.new) result }
    ensures destination_cause { HasCause blames_destination (Q.faults destination.old)
        (Q.faults destination.new) result }
{
    let from = head_of(alloc, source, Side::Source)?;
    let to = head_of(alloc, destination, Side::Destination)?;
    Ok((
        most_known(&from.knowledge, &from.forgotten, &to.id),
        to.clock,
        mode(&from.forgotten, &to.knowledge),
    ))
}

/// The mode of a session to a destination that knows this, from a source that has forgotten so.
fn mode<const U: usize>(forgotten: &Forgotten, known: &Knowledge<U>) -> Mode
    ensures { result ≡ mode_of U forgotten.now known.now }
{
    let _in_form = known.segments();
    if forgotten.within(known) {
        Mode::Normal
    } else {
        Mode::Recover
    }
}
