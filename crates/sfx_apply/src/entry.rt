ghost use Rattle.std.specs.Prelude.{◌≡◌, ◌∷◌, ◌++◌, [], IfOk, OnOk};

use crate::Other;
use crate::other::copied_name;
use sfx_ids::{ItemId, Memory, Tick};
use sfx_item::Name;
use sfx_model::EntryKind;
use sfx_settle::Marks;
use std::alloc::Global;
use std::marker::Model;

/// What the applying of a batch did with one item: in one word, and unit by unit; the fresh tick of the units
/// that got a version of the destination; the new name of the item; and the other items that it changed, in
/// order.
#[derive(Drop)]
pub struct Entry<const U: usize> {
    pub item: ItemId,
    pub kind: EntryKind,
    pub marks: Marks<U>,
    pub tick: Option<Tick>,
    pub name: Option<Name>,
    pub others: Vec<Other>,
}

impl<const U: usize> Model for Entry<U> {
    ghost use Rattle.sfx_model.specs.sessions.Entry.{EntryData};

    ghost Value = { EntryData };

    ghost view = { λ e. record {
      item = e.item;
      kind = e.kind;
      marks = e.marks;
      tick = e.tick;
      name = e.name;
      others = e.others.items;
    } };
}

impl<const U: usize> Entry<U> {
    /// An equal entry of its own memory.
    ///
    /// # Errors
    /// `Memory`.
    pub fn copy(&self, alloc: Global) -> Result<Self, Memory>
        ensures { IfOk result (λ copied. copied ≡ self.now) }
    {
        let marks = self.marks.copy(alloc)?;
        self.with_marks(alloc, marks)
    }

    /// The entry in its own memory, with these marks in the place of its own.
    fn with_marks(&self, alloc: Global, marks: Marks<U>) -> Result<Self, Memory>
        ensures { IfOk result (λ copied. copied ≡ record self.now { marks = marks.entry }) }
    {
        let (name, others) = self.copied_rest(alloc)?;
        Ok(Entry {
            item: self.item,
            kind: self.kind,
            marks,
            tick: self.tick,
            name,
            others,
        })
    }

    /// Equal values of the new name and of the other items, of their own memory.
    fn copied_rest(&self, alloc: Global) -> Result<(Option<Name>, Vec<Other>), Memory>
        ensures name { IfOk result (λ rest. rest.0 ≡ self.now.name) }
        ensures others { IfOk result (λ rest. rest.1.items ≡ self.now.others) }
    {
        let name = copied_name(alloc, &self.name)?;
        let others = copied_others(alloc, self.others.as_slice())?;
        Ok((name, others))
    }
}

/// Equal values of their own memory.
fn copied_others(alloc: Global, others: &[Other]) -> Result<Vec<Other>, Memory>
    ensures { IfOk result (λ copied. copied.items ≡ others.now) }
{
    let mut copied = Vec::with_capacity(alloc, others.len())?;
    for other in others {
        push_copy(alloc, &mut copied, other)?;
    }
    Ok(copied)
}

/// Adds an equal value of its own memory.
fn push_copy(alloc: Global, copied: &mut Vec<Other>, other: &Other) -> Result<(), Memory>
    ensures { OnOk result (copied.new.items ≡ copied.old.items ++ other.now ∷ []) }
{
    copied.push(other.copy(alloc)?)?;
    Ok(())
}
