//! What the marks of an entry ask for.
ghost use Rattle.std.specs.Prelude.{◌≡◌, IfOk, OnOk, ℕ};
ghost use Rattle.std.specs.List.{list_any};
ghost use Rattle.sfx_apply.specs.Work.{AddsSkips, SameSkips};
ghost use Rattle.sfx_ids.specs.declared.item_id.ItemId.{ItemId};
ghost use Rattle.sfx_knowledge.specs.Skips.{is_skipped};
ghost use Rattle.sfx_model.specs.sessions.Draft.{is_left};
ghost use Rattle.sfx_model.specs.sessions.Entry.{is_stamped, is_taken, kind_of_marks, left_from};
ghost use Rattle.sfx_model.specs.sessions.Session.{lefts};

use crate::Entry;
use sfx_ids::{ItemId, Memory, UnitId};
use sfx_knowledge::Skips;
use sfx_model::EntryKind;
use sfx_settle::{Mark, Marks};
use std::alloc::Global;

/// The kind of an entry with these marks.
pub(crate) fn kind_of<const U: usize>(marks: &Marks<U>) -> EntryKind
    ensures { result ≡ kind_of_marks marks.now }
{
    if stamps(marks) {
        EntryKind::Settled
    } else if takes(marks) {
        EntryKind::Took
    } else if leaves(marks) {
        EntryKind::Skipped
    } else {
        EntryKind::Known
    }
}

/// Whether a unit gets a fresh version.
fn stamps<const U: usize>(marks: &Marks<U>) -> bool
    ensures { result ≡ list_any is_stamped marks.now }
{
    marks
        .as_slice()
        .iter()
        .any(|mark| matches!(mark, Mark::Stamped))
}

/// Whether a unit is taken from the source.
pub(crate) fn takes<const U: usize>(marks: &Marks<U>) -> bool
    ensures { result ≡ list_any is_taken marks.now }
{
    marks
        .as_slice()
        .iter()
        .any(|mark| matches!(mark, Mark::Taken))
}

/// Whether a unit is left alone.
fn leaves<const U: usize>(marks: &Marks<U>) -> bool
    ensures { result ≡ list_any is_left marks.now }
{
    marks.as_slice().iter().any(|mark| is_left(*mark))
}

/// Whether the mark says that its unit is left alone.
fn is_left(mark: Mark) -> bool
    ensures { result ≡ is_left mark }
{
    matches!(mark, Mark::Left)
}

/// The units that the entries left alone.
pub(crate) fn left_by<const U: usize>(
    alloc: Global,
    entries: &[Entry<U>],
) -> Result<Skips<U>, Memory>
    ensures { IfOk result (λ skips. SameSkips skips (lefts entries.now)) }
{
    let mut skips = Skips::new(alloc);
    for entry in entries {
        add_left(&mut skips, &entry.item, &entry.marks)?;
    }
    Ok(skips)
}

/// The units of the item that are left alone.
pub(crate) fn left_of<const U: usize>(
    alloc: Global,
    id: &ItemId,
    marks: &Marks<U>,
) -> Result<Skips<U>, Memory>
    ensures { IfOk result (λ skips. SameSkips skips (left_from id.now 0 marks.now)) }
{
    let mut skips = Skips::new(alloc);
    add_left(&mut skips, id, marks)?;
    Ok(skips)
}

/// Adds the units of the item that are left alone.
fn add_left<const U: usize>(
    skips: &mut Skips<U>,
    id: &ItemId,
    marks: &Marks<U>,
) -> Result<(), Memory>
    ensures { OnOk result (AddsSkips skips.old skips.new (left_from id.now 0 marks.now)) }
{
    for (index, mark) in marks.as_slice().iter().enumerate() {
        if is_left(*mark) {
            skips.add(id, UnitId::new(index).unwrap())?;
        }
    }
    Ok(())
}
