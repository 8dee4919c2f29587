ghost use Rattle.sfx_knowledge.specs.Vectors.{joined_row, own_row, clock_of};

use crate::UnitRow;
use crate::vectors::{Joined, Own, row_by};
use sfx_ids::{Memory, ReplicaId, Tick};
use sfx_segments::Combine;
use std::alloc::Global;

/// Two rows joined, unit by unit.
#[derive(Drop)]
pub(crate) struct JoinRows<const U: usize>;

impl<const U: usize> Combine<UnitRow<U>> for JoinRows<U> {
    ghost meaning = { λ _ a b. joined_row U a b };

    fn combine(&self, alloc: Global, a: &UnitRow<U>, b: &UnitRow<U>) -> Result<UnitRow<U>, Memory> {
        row_by(alloc, &Joined { a, b })
    }
}

/// The first of two rows, with the replica's own tick at each unit, or without it.
#[derive(Drop)]
pub(crate) struct OwnRows<'a, const U: usize> {
    pub id: &'a ReplicaId,
    pub tick: Option<Tick>,
}

impl<const U: usize> Combine<UnitRow<U>> for OwnRows<'_, U> {
    ghost meaning = { λ o a _. own_row U o.id.now (clock_of o.tick) a };

    fn combine(
        &self,
        alloc: Global,
        a: &UnitRow<U>,
        _b: &UnitRow<U>,
    ) -> Result<UnitRow<U>, Memory> {
        row_by(
            alloc,
            &Own {
                row: a,
                id: self.id,
                tick: self.tick,
            },
        )
    }
}
