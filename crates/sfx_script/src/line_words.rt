//! What the words of a line make of it, by its first word.
ghost use Rattle.std.specs.Prelude.{◌≡◌};
ghost use Rattle.sfx_script.specs.Reading.{Answers, clean_line, create_line, delete_line, equal_line, files_line, kind_line, knows_line, replica_line, scan_line, set_line, show_line, sync_line, units_line};

use crate::kind::Kind;
use crate::line::Line;
use crate::line_fault::LineFault;
use crate::words::Words;
use std::alloc::Global;

/// The line of this kind that the words make.
pub fn kind_line(alloc: Global, kind: Kind, words: &mut Words<'_>) -> Result<Line, LineFault>
    ensures { Answers result (kind_line kind words.old) }
{
    match kind {
        Kind::Units => units_line(words),
        Kind::Replica => replica_line(alloc, words),
        Kind::Files => files_line(alloc, words),
        Kind::Create => create_line(alloc, words),
        Kind::Set => set_line(alloc, words),
        Kind::Delete => delete_line(alloc, words),
        Kind::Clean => clean_line(alloc, words),
        Kind::Scan => scan_line(alloc, words),
        Kind::Sync => sync_line(alloc, words),
        Kind::Show => show_line(alloc, words),
        Kind::Knows => knows_line(alloc, words),
        Kind::Equal => equal_line(alloc, words),
    }
}

fn units_line(words: &mut Words<'_>) -> Result<Line, LineFault>
    ensures { Answers result (units_line words.old) }
{
    let n = words.number()?;
    words.last()?;
    Ok(Line::Units { n })
}

fn replica_line(alloc: Global, words: &mut Words<'_>) -> Result<Line, LineFault>
    ensures { Answers result (replica_line words.old) }
{
    let name = words.name(alloc)?;
    let id = words.uuid()?;
    words.last()?;
    Ok(Line::Replica { name, id })
}

fn files_line(alloc: Global, words: &mut Words<'_>) -> Result<Line, LineFault>
    ensures { Answers result (files_line words.old) }
{
    let name = words.name(alloc)?;
    let id = words.uuid()?;
    words.last()?;
    Ok(Line::Files { name, id })
}

fn create_line(alloc: Global, words: &mut Words<'_>) -> Result<Line, LineFault>
    ensures { Answers result (create_line words.old) }
{
    let replica = words.name(alloc)?;
    let values = words.values(alloc)?;
    Ok(Line::Create { replica, values })
}

fn set_line(alloc: Global, words: &mut Words<'_>) -> Result<Line, LineFault>
    ensures { Answers result (set_line words.old) }
{
    let replica = words.name(alloc)?;
    let item = words.item()?;
    let unit = words.number()?;
    let value = words.value(alloc)?;
    words.last()?;
    Ok(Line::Set {
        replica,
        item,
        unit,
        value,
    })
}

fn delete_line(alloc: Global, words: &mut Words<'_>) -> Result<Line, LineFault>
    ensures { Answers result (delete_line words.old) }
{
    let replica = words.name(alloc)?;
    let item = words.item()?;
    words.last()?;
    Ok(Line::Delete { replica, item })
}

fn clean_line(alloc: Global, words: &mut Words<'_>) -> Result<Line, LineFault>
    ensures { Answers result (clean_line words.old) }
{
    let replica = words.name(alloc)?;
    let item = words.item_if_any()?;
    Ok(Line::Clean { replica, item })
}

fn scan_line(alloc: Global, words: &mut Words<'_>) -> Result<Line, LineFault>
    ensures { Answers result (scan_line words.old) }
{
    let replica = words.name(alloc)?;
    words.last()?;
    Ok(Line::Scan { replica })
}

fn sync_line(alloc: Global, words: &mut Words<'_>) -> Result<Line, LineFault>
    ensures { Answers result (sync_line words.old) }
{
    let source = words.name(alloc)?;
    let destination = words.name(alloc)?;
    let keep = words.keep()?;
    let clash = words.clash()?;
    let options = words.options();
    words.last()?;
    Ok(Line::Sync {
        source,
        destination,
        keep,
        clash,
        options,
    })
}

fn show_line(alloc: Global, words: &mut Words<'_>) -> Result<Line, LineFault>
    ensures { Answers result (show_line words.old) }
{
    let replica = words.name(alloc)?;
    words.last()?;
    Ok(Line::Show { replica })
}

fn knows_line(alloc: Global, words: &mut Words<'_>) -> Result<Line, LineFault>
    ensures { Answers result (knows_line words.old) }
{
    let replica = words.name(alloc)?;
    let item = words.item()?;
    let unit = words.number()?;
    let version = words.version()?;
    words.last()?;
    Ok(Line::Knows {
        replica,
        item,
        unit,
        version,
    })
}

fn equal_line(alloc: Global, words: &mut Words<'_>) -> Result<Line, LineFault>
    ensures { Answers result (equal_line words.old) }
{
    let first = words.name(alloc)?;
    let second = words.name(alloc)?;
    words.last()?;
    Ok(Line::Equal { first, second })
}
