ghost use Rattle.std.specs.Prelude.{◌≡◌, IfOk, OnOk};
ghost use Rattle.sfx_model.specs.sessions.Session.{ending, reduced};
ghost use Rattle.sfx_session.specs.Travel.{arrival, departure, travelled};

use crate::{Report, Step};
use sfx_apply::Applied;
use sfx_batch::Batch;
use sfx_ids::{Cut, Memory};
use sfx_model::{ApplyEnd, Mode, SessionEnd};
use std::alloc::Global;
use std::marker::Model;

/// A session under way: where its next batch begins, the batches so far, and how many more entries were
/// asked for.
#[derive(Drop)]
pub(crate) struct Travel<const U: usize> {
    from: Cut,
    steps: Vec<Step<U>>,
    budget: Option<u64>,
}

impl<const U: usize> Model for Travel<U> {
    ghost use Rattle.sfx_session.specs.Travel.{TravelData};

    ghost Value = { TravelData };

    ghost view = { λ t. record { from = t.from; steps = t.steps.items; budget = t.budget } };
}

impl<const U: usize> Travel<U> {
    /// A session that is to apply at most as many entries as the cut says.
    pub(crate) fn new(alloc: Global, cut: Option<u64>) -> Self
        ensures { result ≡ departure cut }
    {
        Travel {
            from: Cut::Start,
            steps: Vec::new(alloc),
            budget: cut,
        }
    }

    /// The place where the next batch begins.
    pub(crate) fn from(&self) -> Cut
        ensures { result ≡ self.now.from }
    {
        self.from
    }

    /// How many more entries were asked for.
    pub(crate) fn budget(&self) -> Option<u64>
        ensures { result ≡ self.now.budget }
    {
        self.budget
    }

    /// Adds a batch and how it was applied, and tells how the session ends with it, if it does.
    pub(crate) fn add(
        &mut self,
        batch: Batch<U>,
        applied: Applied<U>,
    ) -> Result<Option<SessionEnd>, Memory>
        ensures end { IfOk result (λ end. end ≡ arrival batch.entry applied.entry self.old) }
        ensures travel { OnOk result (self.new ≡ travelled batch.entry applied.entry self.old) }
    {
        let budget = left(self.budget, applied.entries.len());
        let end = ending(&batch.to, applied.end, budget);
        let to = batch.to;
        self.steps.push(Step { batch, applied })?;
        self.from = to;
        self.budget = budget;
        Ok(end)
    }

    /// The report of the session, which ended so.
    pub(crate) fn report(self, mode: Mode, end: SessionEnd) -> Report<U>
        ensures { result ≡ record { mode = mode; steps = self.entry.steps; end = end } }
    {
        Report {
            mode,
            steps: self.steps,
            end,
        }
    }
}

/// What is left of a budget after so many entries.
fn left(budget: Option<u64>, entries: usize) -> Option<u64>
    ensures { result ≡ reduced budget entries }
{
    match budget {
        Some(more) => Some(more.saturating_sub(entries as u64)),
        None => None,
    }
}

/// How the session ends with a batch that ranges up to this cut and ended so, if it does.
fn ending(to: &Cut, end: ApplyEnd, budget: Option<u64>) -> Option<SessionEnd>
    ensures { result ≡ ending to.now end budget }
{
    match end {
        ApplyEnd::Cut => Some(SessionEnd::Cut),
        ApplyEnd::Full(clock) => Some(SessionEnd::Full(clock)),
        ApplyEnd::Whole => match (to, budget) {
            (Cut::End, _) => Some(SessionEnd::Done),
            (_, Some(0)) => Some(SessionEnd::Cut),
            (_, _) => None,
        },
    }
}
