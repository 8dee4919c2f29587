ghost use Rattle.std.specs.Prelude.{◌≡◌, ◌≤◌, ◌<◌, ◌^◌, ◌++◌, ◌∷◌, [], ℕ, IfOk, OnOk, if◌then◌else◌, nat_eq};
ghost use Rattle.sfx_vector.specs.Clocks.{Clocks, AreClocks};
ghost use Rattle.sfx_knowledge.specs.Row.{row_at, IsClockRow};
ghost use Rattle.sfx_knowledge.specs.Forms.{exceptions_of, row_of};
ghost use Rattle.sfx_knowledge.specs.Vectors.{joined_clocks, own_clocks, clock_of};

use crate::UnitRow;
use crate::facts::{replica_in_range, tick_in_range, vector_in_form};
use sfx_ids::{Memory, ReplicaId, Tick, UnitId, Version};
use sfx_vector::ClockVector;
use std::alloc::Global;

/// A way to make a clock vector for each unit, whose meaning is a function.
pub(crate) trait Vectors {
    ghost vector: { Self → ℕ → Clocks };

    /// The vector of the unit.
    fn vector(&self, alloc: Global, unit: usize) -> Result<ClockVector, Memory>
        ensures value { IfOk result (λ made. made ≡ vector self.now unit) }
        ensures form { IfOk result AreClocks };
}

/// The row of the vectors that are made for each unit.
pub(crate) fn row_by<const U: usize, V: Vectors>(
    alloc: Global,
    vectors: &V,
) -> Result<UnitRow<U>, Memory>
    ensures { IfOk result (λ row. row ≡ row_of U (V.vector vectors.now)) }
{
    let base = vectors.vector(alloc, 0)?;
    let mut others = Vec::new(alloc);
    for unit in 1..U {
        let vector = vectors.vector(alloc, unit)?;
        push_other(&mut others, &base, unit, vector)?;
    }
    Ok(UnitRow::of_parts(base, others))
}

/// Puts the unit behind the others, where its vector differs from the base.
fn push_other<const U: usize>(
    others: &mut Vec<(UnitId<U>, ClockVector)>,
    base: &ClockVector,
    unit: usize,
    vector: ClockVector,
) -> Result<(), Memory>
    requires { unit < U }
    ensures { OnOk result (others.new.items ≡ others.old.items ++ exceptions_of base.now (λ _. vector) unit 1) }
{
    if vector.same(base) {
        return Ok(());
    }
    push_unit(others, unit, vector)
}

/// Puts the unit behind the others, with this vector.
fn push_unit<const U: usize>(
    others: &mut Vec<(UnitId<U>, ClockVector)>,
    unit: usize,
    vector: ClockVector,
) -> Result<(), Memory>
    requires { unit < U }
    ensures { OnOk result (others.new.items ≡ others.old.items ++ (unit, vector) ∷ []) }
{
    if let Some(unit) = UnitId::new(unit) {
        others.push((unit, vector))?;
    }
    Ok(())
}

/// The vectors of a row, but for one unit.
#[derive(Drop)]
pub(crate) struct Replaced<'a, const U: usize> {
    pub row: &'a UnitRow<U>,
    pub unit: usize,
    pub vector: &'a ClockVector,
}

impl<const U: usize> Vectors for Replaced<'_, U> {
    ghost vector = { λ r u. (if nat_eq u r.unit then r.vector.now else row_at r.row.now u) };

    fn vector(&self, alloc: Global, unit: usize) -> Result<ClockVector, Memory> {
        if unit == self.unit {
            copy_of(alloc, self.vector)
        } else {
            copy_of(alloc, self.row.at(unit))
        }
    }
}

/// The vectors of two rows, joined at each unit.
#[derive(Drop)]
pub(crate) struct Joined<'a, const U: usize> {
    pub a: &'a UnitRow<U>,
    pub b: &'a UnitRow<U>,
}

impl<const U: usize> Vectors for Joined<'_, U> {
    ghost vector = { λ j u. joined_clocks (row_at j.a.now u) (row_at j.b.now u) };

    fn vector(&self, alloc: Global, unit: usize) -> Result<ClockVector, Memory> {
        join_of(alloc, self.a.at(unit), self.b.at(unit))
    }
}

/// The vectors of a row with the replica's own tick at each unit, or without it.
#[derive(Drop)]
pub(crate) struct Own<'a, const U: usize> {
    pub row: &'a UnitRow<U>,
    pub id: &'a ReplicaId,
    pub tick: Option<Tick>,
}

impl<const U: usize> Vectors for Own<'_, U> {
    ghost vector = { λ o u. own_clocks o.id.now (clock_of o.tick) (row_at o.row.now u) };

    fn vector(&self, alloc: Global, unit: usize) -> Result<ClockVector, Memory> {
        with_tick(alloc, self.row.at(unit), self.id, self.tick)
    }
}

/// An equal vector.
fn copy_of(alloc: Global, vector: &ClockVector) -> Result<ClockVector, Memory>
    ensures value { IfOk result (λ copied. copied ≡ vector.now) }
    ensures form { IfOk result AreClocks }
{
    vector_in_form(vector);
    Ok(vector.copy(alloc)?)
}

/// The vector with the greater tick of both for each replica.
fn join_of(alloc: Global, a: &ClockVector, b: &ClockVector) -> Result<ClockVector, Memory>
    ensures value { IfOk result (λ made. made ≡ joined_clocks a.now b.now) }
    ensures form { IfOk result AreClocks }
{
    vector_in_form(a);
    vector_in_form(b);
    let mut made = a.copy(alloc)?;
    made.join(b)?;
    vector_in_form(&made);
    Ok(made)
}

/// The vector with this tick for the replica, or with none.
fn with_tick(
    alloc: Global,
    vector: &ClockVector,
    id: &ReplicaId,
    tick: Option<Tick>,
) -> Result<ClockVector, Memory>
    ensures value { IfOk result (λ made. made ≡ own_clocks id.now (clock_of tick) vector.now) }
    ensures form { IfOk result AreClocks }
{
    vector_in_form(vector);
    replica_in_range(id);
    let mut made = vector.copy(alloc)?;
    made.without(id);
    if let Some(tick) = tick {
        tick_in_range(&tick);
        made.raise(&Version { replica: *id, tick })?;
    }
    vector_in_form(&made);
    Ok(made)
}
