ghost use Rattle.std.specs.Prelude.{◌≡◌, ◌≤◌, ◌∷◌, ◌++◌, [], IfOk, OnOk};

use crate::kind::Kind;
use crate::pending::Pending;
use sfx_ids::{Memory, ReplicaId};
use sfx_replica::Replica;
use std::alloc::Global;
use std::marker::Model;

/// A replica as the program keeps it: the kind, the number of its last commit, and the files that still
/// have to follow, in order.
#[derive(Drop)]
pub(crate) struct Kept<const U: usize> {
    pub(crate) replica: Replica<U>,
    kind: Kind,
    seq: u64,
    pending: Vec<Pending>,
}

impl<const U: usize> Model for Kept<U> {
    ghost use Rattle.sfx_community.specs.State.{KeptData};

    ghost Value = { KeptData };

    ghost view = { λ k. record { kind = k.kind; seq = k.seq; member = k.replica; pending = k.pending.items } };
}

impl<const U: usize> Kept<U> {
    ghost use Rattle.sfx_replica.specs.Edits.{new_member};
    ghost use Rattle.sfx_community.specs.State.{as_record};

    /// A new replica, kept as a record.
    pub(crate) fn new(alloc: Global, id: ReplicaId) -> Result<Self, Memory>
        requires { 1 ≤ U }
        ensures { IfOk result (λ kept. kept ≡ as_record (new_member id)) }
    {
        Ok(Kept {
            replica: Replica::new(alloc, id)?,
            kind: Kind::Record,
            seq: 0,
            pending: Vec::new(alloc),
        })
    }

    /// An equal value of its own memory.
    ///
    /// # Errors
    /// `Memory`.
    pub(crate) fn copy(&self, alloc: Global) -> Result<Self, Memory>
        ensures { IfOk result (λ copy. copy ≡ self.now) }
    {
        Ok(Kept {
            replica: self.replica.copy(alloc)?,
            kind: self.kind,
            seq: self.seq,
            pending: copied_pending(alloc, self.pending.as_slice())?,
        })
    }
}

/// Equal values of their own memory.
fn copied_pending(alloc: Global, pending: &[Pending]) -> Result<Vec<Pending>, Memory>
    ensures { IfOk result (λ copied. copied.items ≡ pending.now) }
{
    let mut copied = Vec::with_capacity(alloc, pending.len())?;
    for file in pending {
        push_copy(alloc, &mut copied, file)?;
    }
    Ok(copied)
}

/// Adds an equal value of its own memory.
fn push_copy(alloc: Global, copied: &mut Vec<Pending>, file: &Pending) -> Result<(), Memory>
    ensures { OnOk result (copied.new.items ≡ copied.old.items ++ file.now ∷ []) }
{
    copied.push(file.copy(alloc)?)?;
    Ok(())
}
