ghost use Rattle.std.specs.Prelude.{◌≡◌, ◌≤◌};
ghost use Rattle.sfx_model.specs.sessions.MemberKnowledge.{most_known};

use sfx_ids::ReplicaId;
use sfx_knowledge::{Forgotten, Knowledge};

/// The greatest tick of the replica that is known or forgotten, 0 where none is.
pub fn most_known<const U: usize>(
    known: &Knowledge<U>,
    forgotten: &Forgotten,
    id: &ReplicaId,
) -> u64
    requires { 1 ≤ U }
    ensures { result ≡ most_known id.now known.now forgotten.now }
{
    known.most(id).max(forgotten.vector().get(id))
}
