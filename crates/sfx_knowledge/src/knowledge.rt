ghost use Rattle.std.specs.Prelude.{◌≡◌, ◌↔◌, ◌≤◌, ◌<◌, length, slice_get, IsTrue, IfOk, OnOk};
ghost use Rattle.sfx_ids.specs.Tick.{max_tick};
ghost use Rattle.sfx_ids.specs.declared.cut.Cut.TheVariants.{At, After};
ghost use Rattle.sfx_segments.specs.Segments.{SetsRange};
ghost use Rattle.sfx_knowledge.specs.Knowledge.{IsKnowledge, no_row, nothing_known, clocks_at, tick_at, KnowsVersion, HasTicks, KnowAlike, IsWithin, joined, projected, learned_ticks, laid_over, IsMost};
ghost use Rattle.sfx_knowledge.specs.Places.{EveryRow, AtEachStart, WithinAt, Restores};
ghost use Rattle.sfx_knowledge.specs.Row.{VectorWithin};
ghost use Rattle.sfx_knowledge.specs.Forms.{with_own};
ghost use Rattle.sfx_knowledge.specs.Vectors.{clock_of};

use crate::facts::{clock_in_range, replica_in_range};
use crate::rows::{JoinRows, OwnRows};
use crate::{Skips, UnitRow};
use sfx_ids::{Cut, ItemId, Memory, Part, ReplicaId, Tick, UnitId, Version, in_range};
use sfx_segments::Segments;
use sfx_vector::ClockVector;
use std::alloc::Global;
use std::marker::Model;

/// What a replica knows of items with `U` change units: a clock vector for each place and unit. Two pieces
/// of knowledge that agree at every place and unit are equal.
#[derive(Drop)]
pub struct Knowledge<const U: usize> {
    segments: Segments<UnitRow<U>>,
}

impl<const U: usize> Model for Knowledge<U> {
    ghost use Rattle.sfx_knowledge.specs.Knowledge.{Known, IsKnowledge};

    ghost Value = { Known };

    ghost view = { λ k. k.segments };

    ghost invariant = { λ k. IsKnowledge U k.segments };
}

impl<const U: usize> Knowledge<U> {
    /// Nothing known at any place. The one error is running out of memory.
    pub fn none(alloc: Global) -> Result<Knowledge<U>, Memory>
        ensures value { IfOk result (λ k. k ≡ nothing_known) }
        ensures form { IfOk result (IsKnowledge U) }
    {
        let row = UnitRow::new(alloc, ClockVector::new(alloc));
        let segments = Segments::new(alloc, row)?;
        Ok(Knowledge { segments })
    }

    /// The vector at the item's place, for the unit.
    pub fn at(&self, id: &ItemId, unit: UnitId<U>) -> &ClockVector
        ensures value { result.now ≡ clocks_at self.now (At id.now) unit.entry }
        ensures form { IsKnowledge U self.now }
    {
        self.segments.get(&Cut::At(*id)).get(unit)
    }

    /// Whether the knowledge of the item's unit contains the version.
    pub fn contains(&self, id: &ItemId, unit: UnitId<U>, v: &Version) -> bool
        ensures value { IsTrue result ↔ KnowsVersion self.now id.now unit.entry v.now }
        ensures form { IsKnowledge U self.now }
    {
        self.at(id, unit).contains(v)
    }

    /// Whether the other's vector is within this one's at every place and unit. Takes no memory.
    pub fn contains_all(&self, other: &Knowledge<U>) -> bool
        ensures value { IsTrue result ↔ IsWithin U other.now self.now }
        ensures form { IsKnowledge U self.now }
    {
        other.within_at_starts(self, other) && other.within_at_starts(self, self)
    }

    /// Whether both know the same. Takes no memory.
    pub fn same(&self, other: &Knowledge<U>) -> bool
        ensures list { IsTrue result ↔ (self.now ≡ other.now) }
        ensures alike { 1 ≤ U → IsTrue result ↔ KnowAlike U self.now other.now }
        ensures form { IsKnowledge U self.now }
    {
        self.same_segments(other)
    }

    /// Both joined at every place and unit. The one error is running out of memory.
    pub fn union(&self, alloc: Global, other: &Knowledge<U>) -> Result<Knowledge<U>, Memory>
        ensures ticks { IfOk result (λ k. HasTicks U k (joined (tick_at self.now) (tick_at other.now))) }
        ensures form { IfOk result (IsKnowledge U) }
    {
        let segments = self.segments.zip_with(alloc, &other.segments, &JoinRows)?;
        Ok(Knowledge { segments })
    }

    /// What is known at the places from `lo` up to but not `hi`, and nothing at all others. The one error
    /// is running out of memory.
    pub fn project_range(&self, alloc: Global, lo: &Cut, hi: &Cut) -> Result<Knowledge<U>, Memory>
        ensures ticks { IfOk result (λ k. HasTicks U k (projected lo.now hi.now (tick_at self.now))) }
        ensures form { IfOk result (IsKnowledge U) }
    {
        let mut range = self.copy(alloc)?;
        range.clear(alloc, &Cut::Start, lo)?;
        range.clear(alloc, hi, &Cut::End)?;
        Ok(range)
    }

    /// Joined with the other knowledge at the places from `lo` up to but not `hi`, but for the units that
    /// are skipped there; elsewhere as before. The one error is running out of memory.
    pub fn learn(
        &self,
        alloc: Global,
        from: &Knowledge<U>,
        lo: &Cut,
        hi: &Cut,
        skipped: &Skips<U>,
    ) -> Result<Knowledge<U>, Memory>
        ensures ticks { IfOk result (λ k. HasTicks U k
            (learned_ticks lo.now hi.now skipped.now (tick_at self.now) (tick_at from.now))) }
        ensures form { IfOk result (IsKnowledge U) }
    {
        let mut learned = {
            let range = from.project_range(alloc, lo, hi)?;
            self.union(alloc, &range)?
        };
        for cell in skipped.cells() {
            if in_range(&cell.0, lo, hi) {
                learned.restore(alloc, self, &cell.0, cell.1)?;
            }
        }
        Ok(learned)
    }

    /// Joined with the other knowledge at the item's place, but for the units that are skipped there;
    /// elsewhere as before. The one error is running out of memory.
    pub fn learn_item(
        &self,
        alloc: Global,
        from: &Knowledge<U>,
        id: &ItemId,
        skipped: &Skips<U>,
    ) -> Result<Knowledge<U>, Memory>
        ensures ticks { IfOk result (λ k. HasTicks U k
            (learned_ticks (At id.now) (After id.now) skipped.now (tick_at self.now) (tick_at from.now))) }
        ensures form { IfOk result (IsKnowledge U) }
    {
        self.learn(alloc, from, &Cut::At(*id), &Cut::After(*id), skipped)
    }

    /// The same knowledge, but that the replica's own tick is the clock everywhere; a clock of 0 takes it
    /// away. The one error is running out of memory.
    pub fn with_own(
        &self,
        alloc: Global,
        id: &ReplicaId,
        clock: u64,
    ) -> Result<Knowledge<U>, Memory>
        requires { clock ≤ max_tick }
        ensures ticks { IfOk result (λ k. HasTicks U k (laid_over id.now clock (tick_at self.now))) }
        ensures list { IfOk result (λ k. k ≡ with_own U id.now clock self.now) }
        ensures form { IfOk result (IsKnowledge U) }
    {
        self.with_tick(alloc, id, Tick::new(clock))
    }

    /// The same knowledge without the replica's own tick anywhere. The one error is running out of memory.
    pub fn without_own(&self, alloc: Global, id: &ReplicaId) -> Result<Knowledge<U>, Memory>
        ensures ticks { IfOk result (λ k. HasTicks U k (laid_over id.now 0 (tick_at self.now))) }
        ensures list { IfOk result (λ k. k ≡ with_own U id.now 0 self.now) }
        ensures form { IfOk result (IsKnowledge U) }
    {
        self.with_tick(alloc, id, None)
    }

    /// The greatest tick of the replica at any place and unit. Takes no memory.
    pub fn most(&self, id: &ReplicaId) -> u64
        requires { 1 ≤ U }
        ensures value { IsMost U self.now id.now result }
        ensures form { IsKnowledge U self.now }
    {
        let mut most = 0;
        for i in 0..self.segments.len() {
            most = self.segments.value(i).most(id, most);
        }
        most
    }

    /// The segments of places, each with its row.
    pub fn segments(&self) -> &Segments<UnitRow<U>>
        ensures value { result.now ≡ self.now }
        ensures form { IsKnowledge U self.now }
    {
        &self.segments
    }

    /// The knowledge with these segments. Takes no memory.
    pub fn from_segments(segments: Segments<UnitRow<U>>) -> Knowledge<U>
        ensures value { result ≡ segments.entry }
        ensures form { IsKnowledge U result }
    {
        rows_in_form(&segments);
        Knowledge { segments }
    }

    /// Equal knowledge of its own memory. The one error is running out of memory.
    pub fn copy(&self, alloc: Global) -> Result<Knowledge<U>, Memory>
        ensures value { IfOk result (λ k. k ≡ self.now) }
        ensures form { IfOk result (IsKnowledge U) }
    {
        let segments = self.segments.copy(alloc)?;
        Ok(Knowledge { segments })
    }

    /// Whether the vector is within that of each place and unit. Takes no memory.
    pub(crate) fn contain_everywhere(&self, vector: &ClockVector) -> bool
        ensures { IsTrue result ↔ EveryRow self.now (VectorWithin U vector.now) }
    {
        for i in 0..self.segments.len() {
            if !self.segments.value(i).contain(vector) {
                return false;
            }
        }
        true
    }

    /// Whether the row is within the other's wherever a segment of `starts` begins.
    fn within_at_starts(&self, other: &Knowledge<U>, starts: &Knowledge<U>) -> bool
        ensures value { IsTrue result ↔ AtEachStart starts.now (WithinAt U self.now other.now) }
        ensures form { IsKnowledge U self.now }
        ensures other_form { IsKnowledge U other.now }
    {
        for i in 0..starts.segments.len() {
            let place = starts.segments.start(i);
            if !self.segments.get(&place).within(other.segments.get(&place)) {
                return false;
            }
        }
        true
    }

    /// Whether both have the same segments.
    fn same_segments(&self, other: &Knowledge<U>) -> bool
        ensures list { IsTrue result ↔ (self.now ≡ other.now) }
        ensures form { IsKnowledge U self.now }
        ensures other_form { IsKnowledge U other.now }
    {
        let len = self.segments.len();
        if len != other.segments.len() {
            return false;
        }
        for i in 0..len {
            if !self.same_segment(other, i) {
                return false;
            }
        }
        true
    }

    /// Whether both have the same segment at this index.
    fn same_segment(&self, other: &Knowledge<U>, i: usize) -> bool
        requires here { i < length self.now }
        requires there { i < length other.now }
        ensures { IsTrue result ↔ (slice_get self.now i ≡ slice_get other.now i) }
    {
        self.segments.start(i) == other.segments.start(i)
            && self.segments.value(i).same(other.segments.value(i))
    }

    /// Leaves nothing known at the places from `lo` up to but not `hi`.
    fn clear(&mut self, alloc: Global, lo: &Cut, hi: &Cut) -> Result<(), Memory>
        ensures ok { OnOk result (SetsRange self.old self.new lo.now hi.now no_row) }
        ensures form { IsKnowledge U self.new }
    {
        let nothing = UnitRow::new(alloc, ClockVector::new(alloc));
        self.segments.set_range(lo, hi, &nothing)?;
        Ok(())
    }

    /// Gives the unit of the item the vector that the other knowledge has for it.
    fn restore(
        &mut self,
        alloc: Global,
        other: &Knowledge<U>,
        id: &ItemId,
        unit: UnitId<U>,
    ) -> Result<(), Memory>
        ensures ok { OnOk result (Restores U self.old self.new other.now id.now unit.entry) }
        ensures form { IsKnowledge U self.new }
    {
        let mut row = self.segments.get(&Cut::At(*id)).copy(alloc)?;
        row.put(unit, other.at(id, unit))?;
        self.segments
            .set_range(&Cut::At(*id), &Cut::After(*id), &row)?;
        Ok(())
    }

    /// The same knowledge with this own tick of the replica everywhere, or with none.
    fn with_tick(
        &self,
        alloc: Global,
        id: &ReplicaId,
        tick: Option<Tick>,
    ) -> Result<Knowledge<U>, Memory>
        ensures ticks { IfOk result (λ k. HasTicks U k (laid_over id.now (clock_of tick) (tick_at self.now))) }
        ensures list { IfOk result (λ k. k ≡ with_own U id.now (clock_of tick) self.now) }
        ensures form { IfOk result (IsKnowledge U) }
    {
        replica_in_range(id);
        clock_in_range(&tick);
        let segments = self
            .segments
            .zip_with(alloc, &self.segments, &OwnRows { id, tick })?;
        Ok(Knowledge { segments })
    }
}

/// Segments of rows are knowledge in its one form: this looks at each row, and does nothing but say so.
fn rows_in_form<const U: usize>(segments: &Segments<UnitRow<U>>)
    ensures { IsKnowledge U segments.now }
{
    for i in 0..segments.len() {
        segments.value(i).in_form();
    }
}
