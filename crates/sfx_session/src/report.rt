ghost use Rattle.std.specs.Prelude.{◌≡◌, ◌∷◌, ◌++◌, [], IfOk, OnOk};

use crate::Step;
use sfx_ids::Memory;
use sfx_model::{Mode, SessionEnd};
use std::alloc::Global;
use std::marker::Model;

/// What was done in a session: its mode, its batches in order, and how it ended.
#[derive(Drop)]
pub struct Report<const U: usize> {
    pub mode: Mode,
    pub steps: Vec<Step<U>>,
    pub end: SessionEnd,
}

impl<const U: usize> Model for Report<U> {
    ghost use Rattle.sfx_session.specs.Report.{ReportData};

    ghost Value = { ReportData };

    ghost view = { λ r. record { mode = r.mode; steps = r.steps.items; end = r.end } };
}

impl<const U: usize> Report<U> {
    /// An equal report of its own memory.
    ///
    /// # Errors
    /// `Memory`.
    pub fn copy(&self, alloc: Global) -> Result<Self, Memory>
        ensures { IfOk result (λ copy. copy ≡ self.now) }
    {
        Ok(Report {
            mode: self.mode,
            steps: copied_steps(alloc, self.steps.as_slice())?,
            end: self.end,
        })
    }
}

/// Equal steps of their own memory.
fn copied_steps<const U: usize>(alloc: Global, steps: &[Step<U>]) -> Result<Vec<Step<U>>, Memory>
    ensures { IfOk result (λ copied. copied.items ≡ steps.now) }
{
    let mut copied = Vec::with_capacity(alloc, steps.len())?;
    for step in steps {
        push_copy(alloc, &mut copied, step)?;
    }
    Ok(copied)
}

/// Adds an equal step of its own memory.
fn push_copy<const U: usize>(
    alloc: Global,
    copied: &mut Vec<Step<U>>,
    step: &Step<U>,
) -> Result<(), Memory>
    ensures { OnOk result (copied.new.items ≡ copied.old.items ++ step.now ∷ []) }
{
    copied.push(step.copy(alloc)?)?;
    Ok(())
}
