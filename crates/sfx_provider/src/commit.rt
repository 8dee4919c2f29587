ghost use Rattle.std.specs.Prelude.{◌≡◌, IfOk};

use sfx_ids::{ItemId, Memory};
use sfx_item::Item;
use sfx_items::copies;
use sfx_knowledge::{Forgotten, Knowledge};
use std::alloc::Global;
use std::marker::Model;

/// A change of a replica that is made at once: its clock, what it knows, its own versions included, and the
/// deletions that it has forgotten, all from then on; the items that are put in the place of those with their
/// ids, or added where there are none; and the ids of the items that are dropped.
#[derive(Drop)]
pub struct Commit<const U: usize> {
    pub clock: u64,
    pub knowledge: Knowledge<U>,
    pub forgotten: Forgotten,
    pub puts: Vec<Item<U>>,
    pub drops: Vec<ItemId>,
}

impl<const U: usize> Model for Commit<U> {
    ghost use Rattle.sfx_provider.specs.Commit.{CommitData};

    ghost Value = { CommitData };

    ghost view = { λ c. record {
      clock = c.clock;
      knowledge = c.knowledge;
      forgotten = c.forgotten;
      puts = c.puts.items;
      drops = c.drops.items;
    } };
}

impl<const U: usize> Commit<U> {
    /// An equal commit.
    ///
    /// # Errors
    /// `Memory`.
    pub fn copy(&self, alloc: Global) -> Result<Self, Memory>
        ensures { IfOk result (λ copy. copy ≡ self.now) }
    {
        Ok(Commit {
            clock: self.clock,
            knowledge: self.knowledge.copy(alloc)?,
            forgotten: self.forgotten.copy(alloc)?,
            puts: copies(alloc, self.puts.as_slice())?,
            drops: Vec::from_slice(alloc, self.drops.as_slice())?,
        })
    }
}
