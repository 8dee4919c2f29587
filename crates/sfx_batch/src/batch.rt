ghost use Rattle.std.specs.Prelude.{◌≡◌, ◌↔◌, IsTrue, IfOk};
ghost use Rattle.sfx_ids.specs.declared.cut.Cut.TheVariants.{End};
ghost use Rattle.sfx_knowledge.specs.Knowledge.{HasTicks, IsKnowledge, projected, tick_at};
ghost use Rattle.sfx_model.specs.sessions.Batch.{IsBatch};

use sfx_ids::{Cut, ItemId, Memory, ReplicaId};
use sfx_item::Item;
use sfx_items::copies;
use sfx_knowledge::{Forgotten, Knowledge};
use sfx_model::Mode;
use std::alloc::Global;
use std::marker::Model;

/// What a source sends of its items in the range from a place, `from`, up to but not `to`: what it knew when
/// the batch was made, its own versions included; the deletions that it had forgotten; and the items that
/// changed, in order of their ids. In recovery `here` lists the ids of all items that the source has in the
/// range, ascending, so that the destination learns which of its own the source has not; otherwise it is
/// empty.
#[derive(Drop)]
pub struct Batch<const U: usize> {
    pub source: ReplicaId,
    pub mode: Mode,
    pub from: Cut,
    pub to: Cut,
    pub made_with: Knowledge<U>,
    pub forgotten: Forgotten,
    pub changes: Vec<Item<U>>,
    pub here: Vec<ItemId>,
}

impl<const U: usize> Model for Batch<U> {
    ghost use Rattle.sfx_model.specs.sessions.Batch.{BatchData, IsBatch};

    ghost Value = { BatchData };

    ghost view = { λ b. record {
      source = b.source;
      mode = b.mode;
      from = b.from;
      to = b.to;
      made_with = b.made_with;
      forgotten = b.forgotten;
      changes = b.changes.items;
      here = b.here.items;
    } };

    ghost invariant = { λ b. IsBatch U (record {
      source = b.source;
      mode = b.mode;
      from = b.from;
      to = b.to;
      made_with = b.made_with;
      forgotten = b.forgotten;
      changes = b.changes.items;
      here = b.here.items;
    }) };
}

impl<const U: usize> Batch<U> {
    /// Does nothing. The batch is a right one.
    pub fn keeps(&self)
        ensures batch { IsBatch U self.now }
    {
        let _to = &self.to;
    }

    /// Whether the batch reaches the end, so that none follows it.
    pub fn last(&self) -> bool
        ensures value { IsTrue result ↔ (self.now.to ≡ End) }
        ensures batch { IsBatch U self.now }
    {
        self.to == Cut::End
    }

    /// What the destination learns of the range when it has taken all changes: the made-with knowledge at the
    /// places of the range, and nothing at all others.
    ///
    /// # Errors
    /// `Memory`.
    pub fn learned(&self, alloc: Global) -> Result<Knowledge<U>, Memory>
        ensures ticks { IfOk result (λ k. HasTicks U k
            (projected self.now.from self.now.to (tick_at self.now.made_with))) }
        ensures form { IfOk result (IsKnowledge U) }
    {
        self.made_with.project_range(alloc, &self.from, &self.to)
    }

    /// An equal batch.
    ///
    /// # Errors
    /// `Memory`.
    pub fn copy(&self, alloc: Global) -> Result<Self, Memory>
        ensures { IfOk result (λ copy. copy ≡ self.now) }
    {
        let made_with = self.made_with.copy(alloc)?;
        let forgotten = self.forgotten.copy(alloc)?;
        self.copy_with(alloc, made_with, forgotten)
    }

    /// The batch in its own memory, with these equal values of its knowledge and of what it had forgotten.
    fn copy_with(
        &self,
        alloc: Global,
        made_with: Knowledge<U>,
        forgotten: Forgotten,
    ) -> Result<Self, Memory>
        requires made_with { made_with ≡ self.now.made_with }
        requires forgotten { forgotten ≡ self.now.forgotten }
        ensures { IfOk result (λ copy. copy ≡ self.now) }
    {
        let (changes, here) = self.copied_lists(alloc)?;
        Ok(Batch {
            source: self.source,
            mode: self.mode,
            from: self.from,
            to: self.to,
            made_with,
            forgotten,
            changes,
            here,
        })
    }

    /// Equal lists of the changes and of the ids, of their own memory.
    fn copied_lists(&self, alloc: Global) -> Result<(Vec<Item<U>>, Vec<ItemId>), Memory>
        ensures changes { IfOk result (λ lists. lists.0.items ≡ self.now.changes) }
        ensures here { IfOk result (λ lists. lists.1.items ≡ self.now.here) }
    {
        let changes = copies(alloc, self.changes.as_slice())?;
        let here = Vec::from_slice(alloc, self.here.as_slice())?;
        Ok((changes, here))
    }
}
