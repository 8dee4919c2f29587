ghost use Rattle.std.specs.Prelude.{◌≡◌, IfOk};

use sfx_apply::Applied;
use sfx_batch::Batch;
use sfx_ids::Memory;
use std::alloc::Global;
use std::marker::Model;

/// A batch of a session, and how it was applied.
#[derive(Drop)]
pub struct Step<const U: usize> {
    pub batch: Batch<U>,
    pub applied: Applied<U>,
}

impl<const U: usize> Model for Step<U> {
    ghost use Rattle.sfx_model.specs.sessions.Session.{StepData};

    ghost Value = { StepData };

    ghost view = { λ s. record { batch = s.batch; applied = s.applied } };
}

impl<const U: usize> Step<U> {
    /// An equal step of its own memory.
    ///
    /// # Errors
    /// `Memory`.
    pub fn copy(&self, alloc: Global) -> Result<Self, Memory>
        ensures { IfOk result (λ copy. copy ≡ self.now) }
    {
        Ok(Step {
            batch: self.batch.copy(alloc)?,
            applied: self.applied.copy(alloc)?,
        })
    }
}
