ghost use Rattle.std.specs.Prelude.{◌≡◌, ◌≤◌, ◌<◌, ℕ, false, Bool, Option, Some, None};
ghost use Rattle.sfx_ids.specs.ItemId.{creation_of};
ghost use Rattle.sfx_ids.specs.declared.cut.Cut.{Cut};
ghost use Rattle.sfx_ids.specs.declared.cut.Cut.TheVariants.{At};
ghost use Rattle.sfx_ids.specs.declared.item_id.ItemId.{ItemId};
ghost use Rattle.sfx_ids.specs.declared.version.Version.{Version};
ghost use Rattle.sfx_model.specs.world.Events.{Drops, Event, IsFresh, IsKnownHere, Keeps, Legal, Stamps, Takes, UnitLegal, after};
ghost use Rattle.sfx_item.specs.Item.{ItemState};
ghost use Rattle.sfx_model.specs.members.Members.{Shown, state_of};
ghost use Rattle.sfx_model.specs.members.Snapshots.{AreWithin, Carried, HasContained, Meets};
ghost use Rattle.sfx_model.specs.world.World.{Content, IsContained, Site, Snapshot, WellFormed, World};

/// A snapshot that is carried through a world stays sound, and what comes with it stays exact,
/// through each event that leaves the unit count as it is. A law, which does nothing when called.
pub fn snapshots_stay()
    ensures { (w : World) (event : Event) (snapshot : Snapshot) (i : ItemId)
        (made_with : Cut → ℕ → ℕ → ℕ) (seen : Option ItemState) →
        WellFormed w → Legal w event → (after w event).units ≡ w.units →
        Carried w snapshot i made_with seen → Carried (after w event) snapshot i made_with seen }
{}

/// What comparing a member's knowledge with that of a snapshot which it meets says of the marks of
/// an entry and of a learned range, as a law. It does nothing when called.
///
/// A unit may keep its version where the seen one is known here (`known`). It may be taken where
/// the version here is contained in the made-with knowledge (`newer`), where the creation of the
/// item is not known here (`created`), and where the item is gone here with all that was forgotten
/// of it within the made-with knowledge (`cleaned`). A fresh version may be stamped where the item
/// is seen or held (`stamped`, `restamped`). A unit may be dropped where the snapshot lacks the
/// item, the version here is contained in the made-with knowledge, and what the snapshot forgot is
/// forgotten here (`dropped`). Of an item of a range, what the snapshot knows is known here where
/// each seen version is (`listed`), where the snapshot lacks the item and what it forgot is known
/// here (`lacking`), and where the made-with knowledge lacks the item's creation (`uncreated`).
pub fn marks_are_legal()
    ensures known { (w : World) (s : Site) (m : Shown) (snapshot : Snapshot) (i : ItemId)
        (made_with : Cut → ℕ → ℕ → ℕ)
        (seen : ItemState) (v : Version) (u : ℕ) →
        WellFormed w → Meets w s m snapshot i made_with (Some seen) → u < w.units →
        HasContained seen u (m.vector_at (At i) u) →
        UnitLegal w s snapshot i v u Keeps }
    ensures newer { (w : World) (s : Site) (m : Shown) (snapshot : Snapshot) (i : ItemId)
        (made_with : Cut → ℕ → ℕ → ℕ)
        (seen held : ItemState) (v : Version) (u : ℕ) →
        WellFormed w → Meets w s m snapshot i made_with (Some seen) → u < w.units →
        state_of m.items i ≡ Some held → HasContained held u (made_with (At i) u) →
        UnitLegal w s snapshot i v u Takes }
    ensures created { (w : World) (s : Site) (m : Shown) (snapshot : Snapshot) (i : ItemId)
        (made_with : Cut → ℕ → ℕ → ℕ)
        (seen : ItemState) (v : Version) (u : ℕ) →
        WellFormed w → Meets w s m snapshot i made_with (Some seen) →
        ¬ IsContained (m.vector_at (At i) 0) (creation_of i) →
        UnitLegal w s snapshot i v u Takes }
    ensures cleaned { (w : World) (s : Site) (m : Shown) (snapshot : Snapshot) (i : ItemId)
        (made_with : Cut → ℕ → ℕ → ℕ)
        (seen : ItemState) (v : Version) (u : ℕ) →
        WellFormed w → Meets w s m snapshot i made_with (Some seen) → u < w.units →
        state_of m.items i ≡ None → AreWithin w.units i m.forgotten made_with →
        UnitLegal w s snapshot i v u Takes }
    ensures stamped { (w : World) (s : Site) (m : Shown) (snapshot : Snapshot) (i : ItemId)
        (made_with : Cut → ℕ → ℕ → ℕ)
        (seen : ItemState) (v : Version) (u : ℕ) (c : Content) →
        WellFormed w → Meets w s m snapshot i made_with (Some seen) → IsFresh s v →
        UnitLegal w s snapshot i v u (Stamps c) }
    ensures restamped { (w : World) (s : Site) (m : Shown) (snapshot : Snapshot) (i : ItemId)
        (made_with : Cut → ℕ → ℕ → ℕ)
        (seen : Option ItemState) (held : ItemState) (v : Version) (u : ℕ) (c : Content) →
        WellFormed w → Meets w s m snapshot i made_with seen → state_of m.items i ≡ Some held →
        IsFresh s v →
        UnitLegal w s snapshot i v u (Stamps c) }
    ensures dropped { (w : World) (s : Site) (m : Shown) (snapshot : Snapshot) (i : ItemId)
        (made_with : Cut → ℕ → ℕ → ℕ)
        (held : ItemState) (v : Version) (u : ℕ) →
        WellFormed w → Meets w s m snapshot i made_with None → u < w.units →
        state_of m.items i ≡ Some held → HasContained held u (made_with (At i) u) →
        ((r : ℕ) → snapshot.forgotten (At i) r ≤ m.forgotten (At i) r) →
        UnitLegal w s snapshot i v u Drops }
    ensures listed { (w : World) (s : Site) (m : Shown) (snapshot : Snapshot) (i : ItemId)
        (made_with : Cut → ℕ → ℕ → ℕ)
        (seen : ItemState) (left : ItemId → ℕ → Bool) →
        WellFormed w → Meets w s m snapshot i made_with (Some seen) →
        ((u : ℕ) → u < w.units → left i u ≡ false → HasContained seen u (m.vector_at (At i) u)) →
        IsKnownHere s snapshot left i }
    ensures lacking { (w : World) (s : Site) (m : Shown) (snapshot : Snapshot) (i : ItemId)
        (made_with : Cut → ℕ → ℕ → ℕ)
        (left : ItemId → ℕ → Bool) →
        WellFormed w → Meets w s m snapshot i made_with None →
        AreWithin w.units i snapshot.forgotten m.vector_at →
        IsKnownHere s snapshot left i }
    ensures uncreated { (w : World) (s : Site) (m : Shown) (snapshot : Snapshot) (i : ItemId)
        (made_with : Cut → ℕ → ℕ → ℕ)
        (seen : Option ItemState) (left : ItemId → ℕ → Bool) →
        WellFormed w → Meets w s m snapshot i made_with seen →
        ¬ IsContained (made_with (At i) 0) (creation_of i) →
        IsKnownHere s snapshot left i }
{}
