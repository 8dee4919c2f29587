ghost use Rattle.std.specs.Prelude.{◌≡◌, ◌∷◌, ◌++◌, [], IfOk, OnOk};

use crate::Entry;
use sfx_ids::Memory;
use sfx_model::ApplyEnd;
use std::alloc::Global;
use std::marker::Model;

/// What came of a batch: an entry for each item that was gone through, in order, and how it ended.
#[derive(Drop)]
pub struct Applied<const U: usize> {
    pub entries: Vec<Entry<U>>,
    pub end: ApplyEnd,
}

impl<const U: usize> Model for Applied<U> {
    ghost use Rattle.sfx_model.specs.sessions.Session.{AppliedData};

    ghost Value = { AppliedData };

    ghost view = { λ a. record { entries = a.entries.items; end = a.end } };
}

impl<const U: usize> Applied<U> {
    /// An equal value of its own memory.
    ///
    /// # Errors
    /// `Memory`.
    pub fn copy(&self, alloc: Global) -> Result<Self, Memory>
        ensures { IfOk result (λ copied. copied ≡ self.now) }
    {
        Ok(Applied {
            entries: copied_entries(alloc, self.entries.as_slice())?,
            end: self.end,
        })
    }
}

/// Equal entries of their own memory.
fn copied_entries<const U: usize>(
    alloc: Global,
    entries: &[Entry<U>],
) -> Result<Vec<Entry<U>>, Memory>
    ensures { IfOk result (λ copied. copied.items ≡ entries.now) }
{
    let mut copied = Vec::with_capacity(alloc, entries.len())?;
    for entry in entries {
        push_copy(alloc, &mut copied, entry)?;
    }
    Ok(copied)
}

/// Adds an equal entry of its own memory.
fn push_copy<const U: usize>(
    alloc: Global,
    copied: &mut Vec<Entry<U>>,
    entry: &Entry<U>,
) -> Result<(), Memory>
    ensures { OnOk result (copied.new.items ≡ copied.old.items ++ entry.now ∷ []) }
{
    copied.push(entry.copy(alloc)?)?;
    Ok(())
}
