ghost use Rattle.std.specs.Prelude.{◌≡◌, ℕ, List, [], ◌∷◌, IsSome};
ghost use Rattle.sfx_ids.specs.declared.item_id.ItemId.{ItemId};
ghost use Rattle.sfx_ids.specs.declared.cut.Cut.TheVariants.{Start};
ghost use Rattle.sfx_knowledge.specs.Knowledge.{IsKnowledge};
ghost use Rattle.sfx_model.specs.members.Consistent.{AreApart, IsConsistent};
ghost use Rattle.sfx_item.specs.Item.{ItemData};
ghost use Rattle.sfx_model.specs.members.Members.{AreAscending, Member, state_of};
ghost use Rattle.sfx_model.specs.members.ItemLists.{put_item};
ghost use Rattle.sfx_provider.specs.Commit.{CommitData, commit_of, after_commit};
ghost use Rattle.sfx_provider.specs.Exact.{Commits};
ghost use Rattle.sfx_provider.specs.Fits.{FitsMember, IsKnownItem};
ghost use Rattle.sfx_provider.specs.Head.{head_of};
ghost use Rattle.sfx_provider.specs.Walk.{IsWalk};

/// A walk over items in order of their ids, by the first one from the start and then each time the first
/// one from behind it, lists all of them, each once and in order.
pub fn walks_list_items()
    ensures all { (items : List ItemData) → AreAscending items → IsWalk items Start items }
    ensures only { (items walked : List ItemData) → AreAscending items → IsWalk items Start walked → walked ≡ items }
{}

/// What a commit that a consistent state takes makes of it, part by part.
pub fn commits_are_exact()
    ensures { (units : ℕ) (c : CommitData) (m : Member) →
        IsConsistent units m → IsKnowledge units c.knowledge → FitsMember units c m →
        Commits units c m (after_commit units c m) }
{}

/// A commit that a consistent state takes leaves it consistent.
pub fn commits_keep_consistency()
    ensures { (units : ℕ) (c : CommitData) (m : Member) →
        IsConsistent units m → IsKnowledge units c.knowledge → FitsMember units c m →
        IsConsistent units (after_commit units c m) }
{}

/// The commit of a state's head, as a law of consistent states: the state takes it, and it changes nothing
/// (`fits`, `same`). The state takes it as well with one known item put that leaves live names apart (`put`),
/// and with one present item dropped (`drop`).
pub fn heads_are_commits()
    ensures fits { (units : ℕ) (m : Member) → IsConsistent units m → FitsMember units (commit_of (head_of units m)) m }
    ensures same { (units : ℕ) (m : Member) → IsConsistent units m →
        after_commit units (commit_of (head_of units m)) m ≡ m }
    ensures put { (units : ℕ) (m : Member) (x : ItemData) → IsConsistent units m →
        IsKnownItem units (head_of units m).knowledge x.id x.state → AreApart (put_item x m.items) →
        FitsMember units (record (commit_of (head_of units m)) { puts = x ∷ [] }) m }
    ensures drop { (units : ℕ) (m : Member) (i : ItemId) → IsConsistent units m → IsSome (state_of m.items i) →
        FitsMember units (record (commit_of (head_of units m)) { drops = i ∷ [] }) m }
{}
