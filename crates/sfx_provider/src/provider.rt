ghost use Rattle.std.specs.Prelude.{◌≡◌, ◌⊎◌, ℕ, List, [], ◌∷◌, ◌++◌, Option, Some, take, IfOk, IfSome, OnOk, OnErr};
ghost use Rattle.std.specs.Option.{option_map};
ghost use Rattle.sfx_model.specs.members.Consistent.{IsConsistent};
ghost use Rattle.sfx_model.specs.members.Members.{Member, state_of};
ghost use Rattle.sfx_model.specs.members.Readings.{clashing_with, first_from, unseen};
ghost use Rattle.sfx_provider.specs.Commit.{after_commit};
ghost use Rattle.sfx_provider.specs.Fault.{HasCause, blames_storage};
ghost use Rattle.sfx_provider.specs.Fits.{FitsMember};
ghost use Rattle.sfx_provider.specs.Head.{head_of};
ghost use Rattle.sfx_provider.specs.Leaves.{Arrives, BreaksOff, Rests};

use crate::{Commit, Head, ProviderFault};
use sfx_ids::{Cut, ItemId, ReplicaId};
use sfx_item::{Item, Name};
use sfx_knowledge::Knowledge;
use std::alloc::Global;

/// What holds a replica's state, of items with `U` change units: it is read part by part, and changed by
/// commits. A provider may tell, to proofs alone, the state that its storage keeps; it counts its faults, up
/// to the greatest `u64`.
///
/// A call that reads leaves the state and the kept state as they are, whatever it answers, and a settled
/// provider settled. Only a settled provider takes a commit, and it is settled after Ok. After a commit that did
/// not answer Ok it may be settled no more, and then has to be opened again. Whether a provider tells what its
/// storage keeps never changes.
pub trait Provider<const U: usize> {
    // The replica's state.
    ghost state: { Self → Member };

    // The state that the storage keeps, where the provider tells it.
    ghost kept: { Self → Option Member };

    // The storage keeps the state, where the provider tells what it keeps, and what the provider knows of its
    // storage besides is so.
    ghost settled: { Self → Type 0 };

    // How many calls have failed.
    ghost faults: { Self → ℕ };

    // What the provider says besides of an earlier and a later value of it, between which commits made
    // these states, in order.
    ghost came: { Self → Self → List Member → Type 0 };

    // What it says of its value before and after a commit that did not answer Ok, and of the state that Ok
    // would have given.
    ghost broke: { Self → Self → Member → Type 0 };

    /// Does nothing. The state is consistent.
    fn keeps(&self)
        ensures consistent { IsConsistent U (state self.now) };

    /// The id under which the replica makes its versions.
    fn id(&self) -> ReplicaId
        ensures value { result ≡ (state self.now).id };

    /// All of the state but the items.
    ///
    /// # Errors
    /// `Failed`, only where the count of faults rose, and `Memory`.
    fn head(&mut self, alloc: Global) -> Result<Head<U>, ProviderFault>
        ensures value { IfOk result (λ head. head ≡ head_of U (state self.old)) }
        ensures rests { Rests state kept settled came self.old self.new }
        ensures cause { HasCause blames_storage (faults self.old) (faults self.new) result };

    /// The item with this id, or `None` where the replica holds none.
    ///
    /// # Errors
    /// `Failed`, only where the count of faults rose, and `Memory`.
    fn item(&mut self, alloc: Global, id: &ItemId) -> Result<Option<Item<U>>, ProviderFault>
        ensures value { IfOk result (λ item. option_map (λ x. x.state) item ≡
            state_of (state self.old).items id.now) }
        ensures same { IfOk result (λ item. IfSome item (λ x. x.id ≡ id.now)) }
        ensures rests { Rests state kept settled came self.old self.new }
        ensures cause { HasCause blames_storage (faults self.old) (faults self.new) result };

    /// The first item whose place is not before `from`, or `None` where there is none.
    ///
    /// # Errors
    /// `Failed`, only where the count of faults rose, and `Memory`.
    fn next_from(&mut self, alloc: Global, from: &Cut) -> Result<Option<Item<U>>, ProviderFault>
        ensures value { IfOk result (λ item. item ≡ first_from from.now (state self.old).items) }
        ensures rests { Rests state kept settled came self.old self.new }
        ensures cause { HasCause blames_storage (faults self.old) (faults self.new) result };

    /// The ids of the live items but the excepted one whose names clash with this one, ascending.
    ///
    /// # Errors
    /// `Failed`, only where the count of faults rose, and `Memory`.
    fn clashing(
        &mut self,
        alloc: Global,
        name: &Name,
        except: &ItemId,
    ) -> Result<Vec<ItemId>, ProviderFault>
        ensures value { IfOk result (λ ids. ids.items ≡
            clashing_with name.now (Some except.now) (state self.old).items) }
        ensures rests { Rests state kept settled came self.old self.new }
        ensures cause { HasCause blames_storage (faults self.old) (faults self.new) result };

    /// The first `limit` items, from those whose place is not before `from`, with a unit whose version `to`
    /// does not contain.
    ///
    /// # Errors
    /// `Failed`, only where the count of faults rose, and `Memory`.
    fn unseen(
        &mut self,
        alloc: Global,
        to: &Knowledge<U>,
        from: &Cut,
        limit: usize,
    ) -> Result<Vec<Item<U>>, ProviderFault>
        ensures value { IfOk result (λ items. items.items ≡
            take limit (unseen U to.now from.now (state self.old).items)) }
        ensures rests { Rests state kept settled came self.old self.new }
        ensures cause { HasCause blames_storage (faults self.old) (faults self.new) result };

    /// Changes the state as the commit says. All else of it stays.
    ///
    /// # Errors
    /// `Failed`, only where the count of faults rose, and `Memory`. The state is then the old one or the one
    /// that Ok would have given, and so is the kept state, where it is told.
    fn commit(&mut self, commit: &Commit<U>) -> Result<(), ProviderFault>
        requires settled { settled self.old }
        requires fits { FitsMember U commit.now (state self.old) }
        ensures arrives { let next = after_commit U commit.now (state self.old) in
            OnOk result (Arrives state kept settled came self.old self.new (next ∷ []) next) }
        ensures broke { OnErr result (broke self.old self.new (after_commit U commit.now (state self.old))) }
        ensures state_err { let next = after_commit U commit.now (state self.old) in
            OnErr result ((state self.new ≡ state self.old) ⊎ (state self.new ≡ next)) }
        ensures breaks_off { let next = after_commit U commit.now (state self.old) in
            OnErr result (BreaksOff kept came broke self.old self.new (next ∷ []) (state self.old ∷ next ∷ [])) }
        ensures cause { HasCause blames_storage (faults self.old) (faults self.new) result };

    // A value came from itself by no state.
    ghost came_self: { (p : Self) → came p p [] };

    // Two stretches that follow each other came by the states of both.
    ghost came_on: { (p q r : Self) (xs ys : List Member) → came p q xs → came q r ys → came p r (xs ++ ys) };

    // Readings before a stretch do not change by which states it came.
    ghost came_read: { (p q r : Self) (xs : List Member) → came p q [] → came q r xs → came p r xs };

    // A settled provider that tells what it keeps keeps its state.
    ghost settled_kept: { (p : Self) → settled p → IfSome (kept p) (λ k. k ≡ state p) };
}
