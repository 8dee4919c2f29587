ghost use Rattle.std.specs.Prelude.{◌≡◌, ◌≤◌, ◌∷◌, ◌++◌, [], length, IfOk, OnOk};
ghost use Rattle.std.specs.Option.{option_map};
ghost use Rattle.sfx_apply.specs.Turns.{with_range_of};
ghost use Rattle.sfx_apply.specs.Work.{put_taken, quiet_entry, taken_state, with_marks};
ghost use Rattle.sfx_ids.specs.declared.cut.Cut.TheVariants.{After, At};
ghost use Rattle.sfx_knowledge.specs.Knowledge.{IsKnowledge};
ghost use Rattle.sfx_model.specs.sessions.Entry.{left_from};
ghost use Rattle.sfx_model.specs.members.Members.{AreAscending};
ghost use Rattle.sfx_model.specs.sessions.MemberKnowledge.{learned_known};
ghost use Rattle.sfx_model.specs.sessions.Session.{is_spent, lefts, reduced};

use crate::Entry;
use crate::learning::{learned_item, learned_range};
use crate::marking::{kind_of, takes};
use crate::taking::taken_state;
use sfx_batch::Batch;
use sfx_ids::{ItemId, Memory};
use sfx_item::Item;
use sfx_items::put;
use sfx_knowledge::Knowledge;
use sfx_provider::Commit;
use sfx_settle::Marks;
use std::alloc::Global;
use std::marker::Model;

/// How far the applying of a batch has come: what waits to be committed, the entries, and how many more of
/// them were asked for.
#[derive(Drop)]
pub(crate) struct Work<const U: usize> {
    pub(crate) pending: Commit<U>,
    pub(crate) entries: Vec<Entry<U>>,
    pub(crate) budget: Option<u64>,
}

impl<const U: usize> Model for Work<U> {
    ghost use Rattle.sfx_apply.specs.Turns.{WorkData};

    ghost Value = { WorkData };

    ghost view = { λ w. record { pending = w.pending; entries = w.entries.items; budget = w.budget } };
}

impl<const U: usize> Work<U> {
    /// The items that wait to be put.
    pub(crate) fn puts(&self) -> &[Item<U>]
        ensures { result.now ≡ self.now.pending.puts }
    {
        self.pending.puts.as_slice()
    }

    /// How many entries there are.
    pub(crate) fn count(&self) -> usize
        ensures { result ≡ length self.now.entries }
    {
        self.entries.len()
    }

    /// Whether no more entries were asked for.
    pub(crate) fn is_spent(&self) -> bool
        ensures { result ≡ is_spent self.now.budget }
    {
        self.budget == Some(0)
    }

    /// Adds the entry of a change with these marks, of an item that the destination has so, or not at all:
    /// what is taken waits to be put, and of the item is learned what the source knows, but for the units
    /// that are left alone.
    pub(crate) fn add(
        &mut self,
        alloc: Global,
        batch: &Batch<U>,
        change: &Item<U>,
        local: Option<&Item<U>>,
        marks: Marks<U>,
    ) -> Result<(), Memory>
        requires some { 1 ≤ U }
        requires form { IsKnowledge U self.old.pending.knowledge }
        requires ascending { AreAscending self.old.pending.puts }
        ensures pending { let here = option_map (λ x. x.now.state) local.entry in
            let c = self.old.pending in
            OnOk result (self.new.pending ≡ with_marks U batch.now change.now marks.entry here c) }
        ensures entries { let entry = quiet_entry change.now.id marks.entry in
            OnOk result (self.new.entries ≡ self.old.entries ++ entry ∷ []) }
        ensures budget { OnOk result (self.new.budget ≡ reduced self.old.budget 1) }
    {
        self.learn_item(alloc, batch, &change.id, &marks)?;
        self.take(alloc, change, local, &marks)?;
        self.budget = one_less(self.budget);
        self.entries.push(entry_of(alloc, &change.id, marks))?;
        Ok(())
    }

    /// Learns what the source knows of an item, but for the units that are left alone.
    fn learn_item(
        &mut self,
        alloc: Global,
        batch: &Batch<U>,
        id: &ItemId,
        marks: &Marks<U>,
    ) -> Result<(), Memory>
        requires some { 1 ≤ U }
        requires form { IsKnowledge U self.old.pending.knowledge }
        ensures pending { let c = self.old.pending in
            let left = left_from id.now 0 marks.now in
            let known = learned_known U (At id.now) (After id.now) left c.knowledge batch.now.made_with in
            OnOk result (self.new.pending ≡ record c { knowledge = known }) }
        ensures entries { OnOk result (self.new.entries ≡ self.old.entries) }
        ensures budget { OnOk result (self.new.budget ≡ self.old.budget) }
    {
        let knowledge = self.learned(alloc, batch, id, marks)?;
        self.pending.knowledge = knowledge;
        Ok(())
    }

    /// What is taken of the change waits to be put, where a unit of it is.
    fn take(
        &mut self,
        alloc: Global,
        change: &Item<U>,
        local: Option<&Item<U>>,
        marks: &Marks<U>,
    ) -> Result<(), Memory>
        requires some { 1 ≤ U }
        requires ascending { AreAscending self.old.pending.puts }
        ensures pending { let c = self.old.pending in
            let here = option_map (λ x. x.now.state) local.entry in
            let puts = put_taken U marks.now change.now here c.puts in
            OnOk result (self.new.pending ≡ record c { puts = puts }) }
        ensures entries { OnOk result (self.new.entries ≡ self.old.entries) }
        ensures budget { OnOk result (self.new.budget ≡ self.old.budget) }
    {
        if takes(marks) {
            let item = taken_item(alloc, marks, change, local)?;
            put(&mut self.pending.puts, item)?;
        }
        Ok(())
    }

    /// Learns what the source knows in the batch's range, but for the units that the entries left alone.
    pub(crate) fn learn(&mut self, alloc: Global, batch: &Batch<U>) -> Result<(), Memory>
        requires some { 1 ≤ U }
        requires form { IsKnowledge U self.old.pending.knowledge }
        ensures { OnOk result (self.new ≡ with_range_of U batch.now self.old) }
    {
        let knowledge = self.range_known(alloc, batch)?;
        self.pending.knowledge = knowledge;
        Ok(())
    }

    /// What is known with what the source knows in the batch's range, but for the units that the entries left
    /// alone.
    fn range_known(&self, alloc: Global, batch: &Batch<U>) -> Result<Knowledge<U>, Memory>
        requires some { 1 ≤ U }
        requires form { IsKnowledge U self.now.pending.knowledge }
        ensures value { let b = batch.now in
            let here = self.now.pending.knowledge in
            let all = learned_known U b.from b.to (lefts self.now.entries) here b.made_with in
            IfOk result (λ known. known ≡ all) }
    {
        batch.keeps();
        let pending = &self.pending;
        learned_range(
            alloc,
            &pending.knowledge,
            &batch.made_with,
            &batch.from,
            &batch.to,
            self.entries.as_slice(),
        )
    }

    /// What is known with what the source knows of an item, but for the units that are left alone.
    fn learned(
        &self,
        alloc: Global,
        batch: &Batch<U>,
        id: &ItemId,
        marks: &Marks<U>,
    ) -> Result<Knowledge<U>, Memory>
        requires some { 1 ≤ U }
        requires form { IsKnowledge U self.now.pending.knowledge }
        ensures value { let left = left_from id.now 0 marks.now in
            let here = self.now.pending.knowledge in
            let all = learned_known U (At id.now) (After id.now) left here batch.now.made_with in
            IfOk result (λ known. known ≡ all) }
    {
        batch.keeps();
        let pending = &self.pending;
        learned_item(alloc, &pending.knowledge, &batch.made_with, id, marks)
    }
}

/// The item of a change of which these marks take units, as it becomes.
fn taken_item<const U: usize>(
    alloc: Global,
    marks: &Marks<U>,
    change: &Item<U>,
    local: Option<&Item<U>>,
) -> Result<Item<U>, Memory>
    requires { 1 ≤ U }
    ensures { let here = option_map (λ x. x.now.state) local.entry in
        let state = taken_state U marks.now change.now.state here in
        IfOk result (λ item. item ≡ record { id = change.now.id; state = state }) }
{
    Ok(Item {
        id: change.id,
        state: taken_state(alloc, marks, change, local)?,
    })
}

/// The entry of an item with these marks.
fn entry_of<const U: usize>(alloc: Global, id: &ItemId, marks: Marks<U>) -> Entry<U>
    ensures { result ≡ quiet_entry id.now marks.entry }
{
    Entry {
        item: *id,
        kind: kind_of(&marks),
        marks,
        tick: None,
        name: None,
        others: Vec::new(alloc),
    }
}

/// The budget after one more entry.
fn one_less(budget: Option<u64>) -> Option<u64>
    ensures { result ≡ reduced budget 1 }
{
    match budget {
        Some(more) => Some(more.saturating_sub(1)),
        None => None,
    }
}
