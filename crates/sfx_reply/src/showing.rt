//! The text that shows a replica.
ghost use Rattle.std.specs.Prelude.{◌≡◌, ◌≤◌, ◌++◌, codes, OnOk, IfOk};
ghost use Rattle.std.specs.List.{flat_map};
ghost use Rattle.sfx_ids.specs.declared.cut.Cut.TheVariants.{Start};
ghost use Rattle.sfx_knowledge.specs.Forgotten.{fvec};
ghost use Rattle.sfx_item.specs.Item.{state_view};
ghost use Rattle.sfx_script.specs.Printed.{vector_text};
ghost use Rattle.sfx_model.specs.sessions.MemberKnowledge.{laid_known};
ghost use Rattle.sfx_reply.specs.Listing.{cell_text, item_line, listing, named_text, exception_text, segment_text, state_text, unit_text};

use crate::reply::Listing;
use crate::text::{append, newline, write_number};
use sfx_ids::{
    Cut, Memory, ReplicaId, UnitId, write_cut, write_item, write_replica, write_version,
};
use sfx_item::{Cell, Item, State};
use sfx_knowledge::{Knowledge, UnitRow};
use sfx_replica::Replica;
use sfx_script::{write_value, write_vector};
use sfx_vector::ClockVector;
use std::alloc::Global;

/// The text that shows the replica under this name. The one error is running out of memory.
pub fn listing<const U: usize>(
    alloc: Global,
    name: &str,
    replica: &Replica<U>,
) -> Result<Listing, Memory>
    ensures { IfOk result (λ text. text ≡ listing U (record { name = name.now; member = replica.now })) }
{
    let mut out = Vec::new(alloc);
    write_header(&mut out, name, &replica.id(), replica.clock())?;
    write_forgotten(&mut out, replica)?;
    write_known(alloc, &mut out, replica)?;
    write_items(&mut out, replica.items())?;
    append(&mut out, b"end\n")?;
    Ok(Listing::new(out))
}

fn write_header(out: &mut Vec<u8>, name: &str, id: &ReplicaId, clock: u64) -> Result<(), Memory>
    ensures { OnOk result (out.new.items ≡ out.old.items ++ named_text name.now id.now clock) }
{
    append(out, b"replica ")?;
    append(out, name.as_bytes())?;
    append(out, b" ")?;
    write_replica(out, id)?;
    append(out, b" plain clock=")?;
    write_number(out, clock)?;
    newline(out)
}

fn write_forgotten<const U: usize>(out: &mut Vec<u8>, replica: &Replica<U>) -> Result<(), Memory>
    ensures { OnOk result (out.new.items ≡
        out.old.items ++ codes "forgotten " ++ vector_text (fvec replica.now.forgotten Start) ++ codes "\n") }
{
    append(out, b"forgotten ")?;
    write_vector(out, replica.forgotten().vector())?;
    newline(out)
}

/// Appends what the replica knows, its own versions included.
fn write_known<const U: usize>(
    alloc: Global,
    out: &mut Vec<u8>,
    replica: &Replica<U>,
) -> Result<(), Memory>
    ensures { OnOk result (out.new.items ≡ out.old.items ++ flat_map segment_text (laid_known U replica.now)) }
{
    // Each replica has at least one unit, as its id says.
    let _id = replica.id();
    let knowledge = replica.knowledge(alloc)?;
    write_knowledge(out, &knowledge)
}

fn write_knowledge<const U: usize>(
    out: &mut Vec<u8>,
    knowledge: &Knowledge<U>,
) -> Result<(), Memory>
    requires { 1 ≤ U }
    ensures { OnOk result (out.new.items ≡ out.old.items ++ flat_map segment_text knowledge.now) }
{
    let segments = knowledge.segments();
    for i in 0..segments.len() {
        write_segment(out, &segments.start(i), segments.value(i))?;
    }
    Ok(())
}

fn write_segment<const U: usize>(
    out: &mut Vec<u8>,
    start: &Cut,
    row: &UnitRow<U>,
) -> Result<(), Memory>
    requires { 1 ≤ U }
    ensures { OnOk result (out.new.items ≡ out.old.items ++ segment_text (start.now, row.now)) }
{
    append(out, b"know ")?;
    write_cut(out, start)?;
    append(out, b" ")?;
    write_row(out, row)?;
    newline(out)
}

/// Appends the vector of unit 0, and those of the units that differ from it.
fn write_row<const U: usize>(out: &mut Vec<u8>, row: &UnitRow<U>) -> Result<(), Memory>
    requires { 1 ≤ U }
    ensures { OnOk result (out.new.items ≡
        out.old.items ++ vector_text row.now.base ++ flat_map exception_text row.now.others) }
{
    let first = row.get(UnitId::new(0).unwrap());
    write_vector(out, first)?;
    for k in 1..U {
        write_unit(out, first, k, row.get(UnitId::new(k).unwrap()))?;
    }
    Ok(())
}

/// Appends the vector of the unit, where it differs from that of unit 0.
fn write_unit(
    out: &mut Vec<u8>,
    first: &ClockVector,
    unit: usize,
    vector: &ClockVector,
) -> Result<(), Memory>
    ensures { OnOk result (out.new.items ≡ out.old.items ++ unit_text first.now (unit, vector.now)) }
{
    if vector.same(first) {
        return Ok(());
    }
    write_other(out, unit, vector)
}

/// Appends the vector of a unit that differs from unit 0.
fn write_other(out: &mut Vec<u8>, unit: usize, vector: &ClockVector) -> Result<(), Memory>
    ensures { OnOk result (out.new.items ≡ out.old.items ++ exception_text (unit, vector.now)) }
{
    append(out, b" unit ")?;
    write_number(out, unit as u64)?;
    append(out, b" ")?;
    write_vector(out, vector)
}

fn write_items<const U: usize>(out: &mut Vec<u8>, items: &[Item<U>]) -> Result<(), Memory>
    ensures { OnOk result (out.new.items ≡ out.old.items ++ flat_map item_line items.now) }
{
    for item in items {
        write_item_line(out, item)?;
    }
    Ok(())
}

fn write_item_line<const U: usize>(out: &mut Vec<u8>, item: &Item<U>) -> Result<(), Memory>
    ensures { OnOk result (out.new.items ≡ out.old.items ++ item_line item.now) }
{
    append(out, b"item ")?;
    write_item(out, &item.id)?;
    write_state(out, &item.state)?;
    newline(out)
}

fn write_state<const U: usize>(out: &mut Vec<u8>, state: &State<U>) -> Result<(), Memory>
    ensures { OnOk result (out.new.items ≡ out.old.items ++ state_text (state_view state.now)) }
{
    match state {
        State::Live(row) => {
            append(out, b" live")?;
            write_cells(out, row.cells())
        }
        State::Dead(version) => {
            append(out, b" dead ")?;
            write_version(out, version)
        }
    }
}

fn write_cells(out: &mut Vec<u8>, cells: &[Cell]) -> Result<(), Memory>
    ensures { OnOk result (out.new.items ≡ out.old.items ++ flat_map cell_text cells.now) }
{
    for cell in cells {
        write_cell(out, cell)?;
    }
    Ok(())
}

fn write_cell(out: &mut Vec<u8>, cell: &Cell) -> Result<(), Memory>
    ensures { OnOk result (out.new.items ≡ out.old.items ++ cell_text cell.now) }
{
    append(out, b" ")?;
    write_version(out, &cell.version)?;
    append(out, b"=")?;
    write_value(out, &cell.value)
}
