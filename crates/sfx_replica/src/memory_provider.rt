ghost use Rattle.std.specs.Prelude.{◌≡◌, ◌⊎◌, ◌∷◌, [], Some, take, IfOk, IfSome, OnOk, OnErr};
ghost use Rattle.std.specs.Option.{option_map};
ghost use Rattle.sfx_model.specs.members.Members.{state_of};
ghost use Rattle.sfx_model.specs.members.Readings.{clashing_with, first_from, unseen};
ghost use Rattle.sfx_provider.specs.Commit.{after_commit};
ghost use Rattle.sfx_provider.specs.Fits.{FitsMember};
ghost use Rattle.sfx_provider.specs.Head.{head_of};
ghost use Rattle.sfx_provider.specs.Leaves.{Arrives, BreaksOff};
ghost use Rattle.sfx_replica.specs.MemoryProvider.{Counts, IsProvider, Reads};

use crate::Replica;
use crate::unseen::unseen_copies;
use sfx_ids::{Cut, ItemId, Memory, ReplicaId};
use sfx_item::{Item, Name};
use sfx_knowledge::Knowledge;
use sfx_outside::Calls;
use sfx_provider::{Commit, Head, Provider, ProviderFault};
use std::alloc::Global;
use std::marker::Model;

/// A provider that has its replica in memory. Its storage is the replica itself. The calls in its list fail;
/// `id` and `keeps` are none that count.
#[derive(Drop)]
pub struct MemoryProvider<const U: usize> {
    replica: Replica<U>,
    calls: Calls,
}

impl<const U: usize> Model for MemoryProvider<U> {
    ghost use Rattle.std.specs.Prelude.{◌≡◌, []};
    ghost use Rattle.sfx_replica.specs.MemoryProvider.{MemoryProviderData};

    ghost Value = { MemoryProviderData };

    ghost view = { λ p. record {
      member = p.replica;
      fails = p.calls.fails.items;
      calls = p.calls.made;
      faults = p.calls.faults;
    } };

    ghost invariant = { λ p. p.calls.fails.items ≡ [] → p.calls.faults ≡ 0 };
}

impl<const U: usize> MemoryProvider<U> {
    /// A provider of this replica. The calls whose numbers `fails` lists fail, counted from 1.
    pub fn new(replica: Replica<U>, fails: Vec<u64>) -> Self
        ensures { result ≡ record { member = replica.entry; fails = fails.items; calls = 0; faults = 0 } }
    {
        MemoryProvider {
            replica,
            calls: Calls::new(fails),
        }
    }

    /// The replica, as the commits left it.
    pub fn into_replica(self) -> Replica<U>
        ensures value { result ≡ self.entry.member }
        ensures valid { IsProvider U self.entry }
    {
        self.replica
    }

    /// Counts a call, and fails where it is one of those that do.
    fn begin(&mut self) -> Result<(), ProviderFault>
        ensures { Reads self.old self.new result }
    {
        if self.calls.next_fails() {
            return Err(ProviderFault::Failed);
        }
        Ok(())
    }
}

impl<const U: usize> Provider<U> for MemoryProvider<U> {
    ghost use Rattle.std.proofs.Common.{◌∙◌};
    ghost use Rattle.std.specs.Prelude.{refl};
    ghost use Rattle.sfx_replica.specs.MemoryProvider.{BrokeAt, CameBy, FailAlike, IsSettled, kept_by, held_member};

    ghost state = { held_member };

    ghost kept = { kept_by };

    ghost settled = { IsSettled };

    ghost faults = { λ p. p.faults };

    ghost came = { CameBy };

    ghost broke = { BrokeAt };

    ghost came_self = { λ p. refl };

    ghost came_on = { λ p q r xs ys first second. second ∙ first };

    ghost came_read = { λ p q r xs first second. second ∙ first };

    ghost settled_kept = { λ p settled. refl };

    fn keeps(&self) {
        self.replica.id();
    }

    fn id(&self) -> ReplicaId {
        self.replica.id()
    }

    fn head(&mut self, alloc: Global) -> Result<Head<U>, ProviderFault>
        ensures call { Reads self.old self.new result }
        ensures value { IfOk result (λ head. head ≡ head_of U self.old.member) }
    {
        self.begin()?;
        Ok(self.replica.head(alloc)?)
    }

    fn item(&mut self, alloc: Global, id: &ItemId) -> Result<Option<Item<U>>, ProviderFault>
        ensures call { Reads self.old self.new result }
        ensures value { IfOk result (λ item. option_map (λ x. x.state) item ≡
            state_of self.old.member.items id.now) }
        ensures same { IfOk result (λ item. IfSome item (λ x. x.id ≡ id.now)) }
    {
        self.begin()?;
        Ok(copy_of(alloc, self.replica.item(id))?)
    }

    fn next_from(&mut self, alloc: Global, from: &Cut) -> Result<Option<Item<U>>, ProviderFault>
        ensures call { Reads self.old self.new result }
        ensures value { IfOk result (λ item. item ≡ first_from from.now self.old.member.items) }
    {
        self.begin()?;
        Ok(copy_of(alloc, self.replica.next_from(from))?)
    }

    fn clashing(
        &mut self,
        alloc: Global,
        name: &Name,
        except: &ItemId,
    ) -> Result<Vec<ItemId>, ProviderFault>
        ensures call { Reads self.old self.new result }
        ensures value { IfOk result (λ ids. ids.items ≡
            clashing_with name.now (Some except.now) self.old.member.items) }
    {
        self.begin()?;
        Ok(self.replica.clashing(alloc, name, Some(*except))?)
    }

    fn unseen(
        &mut self,
        alloc: Global,
        to: &Knowledge<U>,
        from: &Cut,
        limit: usize,
    ) -> Result<Vec<Item<U>>, ProviderFault>
        ensures call { Reads self.old self.new result }
        ensures value { IfOk result (λ items. items.items ≡
            take limit (unseen U to.now from.now self.old.member.items)) }
    {
        self.begin()?;
        Ok(unseen_copies(alloc, self.replica.items(), to, from, limit)?)
    }

    fn commit(&mut self, commit: &Commit<U>) -> Result<(), ProviderFault>
        requires fits { FitsMember U commit.now self.old.member }
        ensures counts { Counts self.old self.new result }
        ensures ok { OnOk result (self.new.member ≡ after_commit U commit.now self.old.member) }
        ensures err { OnErr result (self.new.member ≡ self.old.member) }
        ensures arrives { let next = after_commit U commit.now self.old.member in
            OnOk result (Arrives held_member kept_by IsSettled CameBy self.old self.new (next ∷ []) next) }
        ensures broke { OnErr result (FailAlike self.old self.new) }
        ensures state_err { let next = after_commit U commit.now self.old.member in
            OnErr result ((self.new.member ≡ self.old.member) ⊎ (self.new.member ≡ next)) }
        ensures breaks_off { let next = after_commit U commit.now self.old.member in
            OnErr result (BreaksOff kept_by CameBy BrokeAt self.old self.new (next ∷ [])
            (self.old.member ∷ next ∷ [])) }
    {
        self.begin()?;
        Ok(self.replica.install(commit)?)
    }
}

/// A copy of the item, where there is one.
fn copy_of<const U: usize>(alloc: Global, item: Option<&Item<U>>) -> Result<Option<Item<U>>, Memory>
    ensures { IfOk result (λ copy. copy ≡ option_map (λ x. x.now) item.entry) }
{
    match item {
        Some(item) => Ok(Some(item.copy(alloc)?)),
        None => Ok(None),
    }
}
