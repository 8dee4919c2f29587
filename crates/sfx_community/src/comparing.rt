//! Two replicas compared.
ghost use Rattle.std.specs.Prelude.{◌≡◌, IfOk};
ghost use Rattle.sfx_model.specs.sessions.MemberKnowledge.{laid_known};
ghost use Rattle.sfx_community.specs.Sameness.{know_same, same_segments};

use sfx_ids::Memory;
use sfx_knowledge::Knowledge;
use sfx_replica::Replica;
use std::alloc::Global;

/// Whether both replicas know the same.
pub(crate) fn know_same<const U: usize>(
    alloc: Global,
    one: &Replica<U>,
    other: &Replica<U>,
) -> Result<bool, Memory>
    ensures { IfOk result (λ same. same ≡ know_same U one.now other.now) }
{
    let knowledge = one.knowledge(alloc)?;
    is_all_known(alloc, &knowledge, other)
}

/// Whether the knowledge is all that the replica knows.
fn is_all_known<const U: usize>(
    alloc: Global,
    knowledge: &Knowledge<U>,
    replica: &Replica<U>,
) -> Result<bool, Memory>
    ensures { IfOk result (λ same. same ≡ same_segments knowledge.now (laid_known U replica.now)) }
{
    let all = replica.knowledge(alloc)?;
    let is_same = knowledge.same(&all);
    Ok(is_same)
}
