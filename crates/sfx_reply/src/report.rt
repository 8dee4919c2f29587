//! The text that tells what a session did.
ghost use Rattle.std.specs.Prelude.{◌≡◌, ◌++◌, codes, decimal, IfOk, OnOk};
ghost use Rattle.std.specs.List.{flat_map};
ghost use Rattle.sfx_reply.specs.Report.{batch_text, change_text, changed_text, changes_text, end_text, entry_count, entry_lines, entry_text, full_text, here_text, kind_text, last_text, mark_text, marked_text, mode_text, name_text, other_text, range_text, report_text, step_lines, tick_text};

use crate::reply::Listing;
use crate::text::{append, newline, write_number, write_total};
use sfx_apply::{Entry, Other};
use sfx_batch::Batch;
use sfx_ids::{Cut, ItemId, Memory, Tick, write_cut, write_item};
use sfx_item::{Name, Value};
use sfx_model::{EntryKind, Mark, Mode, SessionEnd};
use sfx_script::write_value;
use sfx_session::{Report, Step};
use std::alloc::Global;

/// The text that tells what the session did. The one error is running out of memory.
pub fn told<const U: usize>(alloc: Global, report: &Report<U>) -> Result<Listing, Memory>
    ensures { IfOk result (λ text. text ≡ report_text report.now.steps report.now.end) }
{
    let mut out = Vec::new(alloc);
    let steps = report.steps.as_slice();
    write_steps(&mut out, steps)?;
    write_last(&mut out, &report.end, steps.len(), entries_of(steps))?;
    Ok(Listing::new(out))
}

fn write_steps<const U: usize>(out: &mut Vec<u8>, steps: &[Step<U>]) -> Result<(), Memory>
    ensures { OnOk result (out.new.items ≡ out.old.items ++ flat_map step_lines steps.now) }
{
    for step in steps {
        write_step(out, step)?;
    }
    Ok(())
}

/// How many entries the batches had together.
fn entries_of<const U: usize>(steps: &[Step<U>]) -> u128
    ensures { result ≡ entry_count steps.now }
{
    let mut count = 0;
    for step in steps {
        count += step.applied.entries.len() as u128;
    }
    count
}

/// Appends the lines of a batch and its entries.
fn write_step<const U: usize>(out: &mut Vec<u8>, step: &Step<U>) -> Result<(), Memory>
    ensures { OnOk result (out.new.items ≡ out.old.items ++ step_lines step.now) }
{
    write_batch(out, &step.batch)?;
    write_entries(out, step.applied.entries.as_slice())
}

fn write_entries<const U: usize>(out: &mut Vec<u8>, entries: &[Entry<U>]) -> Result<(), Memory>
    ensures { OnOk result (out.new.items ≡ out.old.items ++ flat_map entry_lines entries.now) }
{
    for entry in entries {
        write_entry(out, entry)?;
        write_others(out, entry.others.as_slice())?;
    }
    Ok(())
}

/// Appends the line of an entry.
fn write_entry<const U: usize>(out: &mut Vec<u8>, entry: &Entry<U>) -> Result<(), Memory>
    ensures { OnOk result (out.new.items ≡ out.old.items ++ entry_text entry.now) }
{
    write_kind(out, entry.kind)?;
    write_marked(out, &entry.item, entry.marks.as_slice())?;
    write_tick(out, entry.tick)?;
    write_name(out, &entry.name)?;
    newline(out)
}

/// Appends an item, and a letter for each of its units.
fn write_marked(out: &mut Vec<u8>, item: &ItemId, marks: &[Mark]) -> Result<(), Memory>
    ensures { OnOk result (out.new.items ≡ out.old.items ++ marked_text item.now marks.now) }
{
    append(out, b" ")?;
    write_item(out, item)?;
    append(out, b" ")?;
    write_marks(out, marks)
}

fn write_others(out: &mut Vec<u8>, others: &[Other]) -> Result<(), Memory>
    ensures { OnOk result (out.new.items ≡ out.old.items ++ flat_map other_text others.now) }
{
    for other in others {
        write_other(out, other)?;
    }
    Ok(())
}

/// Appends the line of another item that an entry changed.
fn write_other(out: &mut Vec<u8>, other: &Other) -> Result<(), Memory>
    ensures { OnOk result (out.new.items ≡ out.old.items ++ other_text other.now) }
{
    write_changed(out, &other.item, &other.name)?;
    write_tick(out, Some(other.tick))?;
    write_name(out, &other.name)?;
    newline(out)
}

/// Appends what became of another item.
fn write_changed(out: &mut Vec<u8>, item: &ItemId, name: &Option<Name>) -> Result<(), Memory>
    ensures { OnOk result (out.new.items ≡ out.old.items ++ changed_text item.now name.now) }
{
    append(out, b"other ")?;
    write_change(out, name)?;
    append(out, b" ")?;
    write_item(out, item)
}

/// Appends the line of a batch.
fn write_batch<const U: usize>(out: &mut Vec<u8>, batch: &Batch<U>) -> Result<(), Memory>
    ensures { OnOk result (out.new.items ≡ out.old.items ++ batch_text batch.now) }
{
    write_ranged(out, batch.mode, &batch.from, &batch.to)?;
    write_changes(out, batch.changes.len())?;
    write_here(out, batch.mode, batch.here.as_slice())?;
    newline(out)
}

/// Appends the mode of a batch, and the cuts between which it ranges.
fn write_ranged(out: &mut Vec<u8>, mode: Mode, from: &Cut, to: &Cut) -> Result<(), Memory>
    ensures { OnOk result (out.new.items ≡
        out.old.items ++ codes "batch " ++ mode_text mode ++ range_text from.now to.now) }
{
    append(out, b"batch ")?;
    write_mode(out, mode)?;
    write_range(out, from, to)
}

/// Appends the cuts between which a batch ranges.
fn write_range(out: &mut Vec<u8>, from: &Cut, to: &Cut) -> Result<(), Memory>
    ensures { OnOk result (out.new.items ≡ out.old.items ++ range_text from.now to.now) }
{
    append(out, b" ")?;
    write_cut(out, from)?;
    append(out, b" ")?;
    write_cut(out, to)
}

/// Appends how many changes a batch has.
fn write_changes(out: &mut Vec<u8>, changes: usize) -> Result<(), Memory>
    ensures { OnOk result (out.new.items ≡ out.old.items ++ changes_text changes) }
{
    append(out, b" changes=")?;
    write_number(out, changes as u64)
}

fn write_mode(out: &mut Vec<u8>, mode: Mode) -> Result<(), Memory>
    ensures { OnOk result (out.new.items ≡ out.old.items ++ mode_text mode) }
{
    match mode {
        Mode::Normal => append(out, b"normal"),
        Mode::Recover => append(out, b"recover"),
    }
}

/// Appends how many items a batch lists, in recovery.
fn write_here(out: &mut Vec<u8>, mode: Mode, here: &[ItemId]) -> Result<(), Memory>
    ensures { OnOk result (out.new.items ≡ out.old.items ++ here_text mode here.now) }
{
    match mode {
        Mode::Normal => Ok(()),
        Mode::Recover => {
            append(out, b" here=")?;
            write_number(out, here.len() as u64)
        }
    }
}

fn write_kind(out: &mut Vec<u8>, kind: EntryKind) -> Result<(), Memory>
    ensures { OnOk result (out.new.items ≡ out.old.items ++ kind_text kind) }
{
    match kind {
        EntryKind::Known => append(out, b"known"),
        EntryKind::Took => append(out, b"took"),
        EntryKind::Settled => append(out, b"settled"),
        EntryKind::Skipped => append(out, b"skipped"),
        EntryKind::Dropped => append(out, b"dropped"),
        EntryKind::Renamed => append(out, b"renamed"),
        EntryKind::Deleted => append(out, b"deleted"),
    }
}

/// Appends a letter for each mark.
fn write_marks(out: &mut Vec<u8>, marks: &[Mark]) -> Result<(), Memory>
    ensures { OnOk result (out.new.items ≡ out.old.items ++ flat_map mark_text marks.now) }
{
    for mark in marks {
        write_mark(out, *mark)?;
    }
    Ok(())
}

fn write_mark(out: &mut Vec<u8>, mark: Mark) -> Result<(), Memory>
    ensures { OnOk result (out.new.items ≡ out.old.items ++ mark_text mark) }
{
    match mark {
        Mark::Stays => append(out, b"k"),
        Mark::Taken => append(out, b"t"),
        Mark::Stamped => append(out, b"s"),
        Mark::Left => append(out, b"x"),
        Mark::Gone => append(out, b"d"),
    }
}

/// Appends the fresh tick, where there is one.
fn write_tick(out: &mut Vec<u8>, tick: Option<Tick>) -> Result<(), Memory>
    ensures { OnOk result (out.new.items ≡ out.old.items ++ tick_text tick) }
{
    match tick {
        Some(tick) => {
            append(out, b" tick=")?;
            write_number(out, tick.get())
        }
        None => Ok(()),
    }
}

/// Appends the new name, where there is one.
fn write_name(out: &mut Vec<u8>, name: &Option<Name>) -> Result<(), Memory>
    ensures { OnOk result (out.new.items ≡ out.old.items ++ name_text name.now) }
{
    match name {
        Some(name) => {
            append(out, b" name=")?;
            let value = Value::new(Vec::from_slice(*out.allocator(), name.bytes())?);
            write_value(out, &value)
        }
        None => Ok(()),
    }
}

/// Appends what became of another item, by its new name.
fn write_change(out: &mut Vec<u8>, name: &Option<Name>) -> Result<(), Memory>
    ensures { OnOk result (out.new.items ≡ out.old.items ++ change_text name.now) }
{
    match name {
        Some(_) => append(out, b"renamed"),
        None => append(out, b"deleted"),
    }
}

/// Appends how a session ended.
fn write_end(out: &mut Vec<u8>, end: &SessionEnd) -> Result<(), Memory>
    ensures { OnOk result (out.new.items ≡ out.old.items ++ end_text end.now) }
{
    match end {
        SessionEnd::Done => append(out, b"done"),
        SessionEnd::Cut => append(out, b"cut"),
        SessionEnd::Full(clock) => write_full(out, *clock),
    }
}

/// Appends that a session ended for want of ticks, with the clock that the destination has.
fn write_full(out: &mut Vec<u8>, clock: u64) -> Result<(), Memory>
    ensures { OnOk result (out.new.items ≡ out.old.items ++ full_text clock) }
{
    append(out, b"full clock=")?;
    write_number(out, clock)
}

/// Appends the last line: how the session ended, and how many batches and entries it had.
fn write_last(
    out: &mut Vec<u8>,
    end: &SessionEnd,
    batches: usize,
    entries: u128,
) -> Result<(), Memory>
    ensures { OnOk result (out.new.items ≡ out.old.items ++ last_text end.now batches entries) }
{
    write_end(out, end)?;
    write_counts(out, batches, entries)?;
    newline(out)
}

/// Appends how many batches and entries a session had.
fn write_counts(out: &mut Vec<u8>, batches: usize, entries: u128) -> Result<(), Memory>
    ensures { OnOk result (out.new.items ≡
        out.old.items ++ codes " batches=" ++ decimal batches ++ codes " entries=" ++ decimal entries) }
{
    append(out, b" batches=")?;
    write_number(out, batches as u64)?;
    append(out, b" entries=")?;
    write_total(out, entries)
}
