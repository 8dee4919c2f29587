ghost use Rattle.std.specs.Prelude.{◌≡◌, IfOk};

use crate::Commit;
use sfx_ids::{Memory, ReplicaId};
use sfx_knowledge::{Forgotten, Knowledge};
use std::alloc::Global;
use std::marker::Model;

/// A replica without its items: its id; its clock, which is the tick of the last version that it made;
/// what it knows, its own versions included; and the deletions that it has forgotten.
#[derive(Drop)]
pub struct Head<const U: usize> {
    pub id: ReplicaId,
    pub clock: u64,
    pub knowledge: Knowledge<U>,
    pub forgotten: Forgotten,
}

impl<const U: usize> Model for Head<U> {
    ghost use Rattle.sfx_provider.specs.Head.{HeadData};

    ghost Value = { HeadData };

    ghost view = { λ h. record { id = h.id; clock = h.clock; knowledge = h.knowledge; forgotten = h.forgotten } };
}

impl<const U: usize> Head<U> {
    ghost use Rattle.sfx_provider.specs.Commit.{commit_of};

    /// The commit that changes nothing of the replica with this head. Takes no memory.
    pub fn into_commit(self, alloc: Global) -> Commit<U>
        ensures { result ≡ commit_of self.entry }
    {
        Commit {
            clock: self.clock,
            knowledge: self.knowledge,
            forgotten: self.forgotten,
            puts: Vec::new(alloc),
            drops: Vec::new(alloc),
        }
    }

    /// An equal head.
    ///
    /// # Errors
    /// `Memory`.
    pub fn copy(&self, alloc: Global) -> Result<Self, Memory>
        ensures { IfOk result (λ copy. copy ≡ self.now) }
    {
        Ok(Head {
            id: self.id,
            clock: self.clock,
            knowledge: self.knowledge.copy(alloc)?,
            forgotten: self.forgotten.copy(alloc)?,
        })
    }
}
