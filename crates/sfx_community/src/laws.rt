ghost use Rattle.std.specs.Prelude.{◌≡◌, ◌≢◌, ◌⊎◌, ◌<◌, ◌++◌, false, true, List, Some, ℕ};
ghost use Rattle.sfx_ids.specs.declared.item_id.ItemId.{ItemId};
ghost use Rattle.sfx_ids.specs.declared.version.Version.{Version};
ghost use Rattle.sfx_model.specs.world.Events.{after_deeds};
ghost use Rattle.sfx_model.specs.members.StandsIn.{HasMember, IsWhole, StateStandsIn};
ghost use Rattle.sfx_model.specs.world.World.{Made, World, WellFormed};
ghost use Rattle.sfx_reply.specs.declared.reply.Reply.TheVariants.{Compared};
ghost use Rattle.sfx_community.specs.Comparisons.{IsAccount, IsComparison};
ghost use Rattle.sfx_community.specs.History.{AllFit, AreNotAhead, AreOrderly, HasHappened, IsAllOf, has_session};
ghost use Rattle.sfx_community.specs.State.{KeptMember, State, community_of, is_id_taken, member_of};
ghost use Rattle.sfx_community.specs.Turn.{equal_turn, knows_turn, last_or, turn, turns};

/// What the lines of a script do happens in every well-formed world in which the state stands, where what
/// they say of the whole community fits the world: a unit count, and the ids of replicas that join. The
/// world may have other replicas, which are kept elsewhere. A law: nothing happens when this is called.
///
/// `happen`: it does where the lists of all members are in order, as those of the program's replicas are at
/// any time; `orderly`: and then they are so afterwards; `not_ahead`: and no session is refused because its
/// source is ahead of its destination. `alone`: it does in any case where no line runs a session. `fit`:
/// where the state is all of the world, every script fits; `whole`: and it is all of the world afterwards.
pub fn turns_happen()
    ensures happen { (w : World) (s : State) (lines : List (List ℕ)) →
        WellFormed w → StateStandsIn w (community_of s) → AreOrderly (community_of s) →
        AllFit w (turns s lines).deeds →
        HasHappened w s (turns s lines) }
    ensures orderly { (w : World) (s : State) (lines : List (List ℕ)) →
        WellFormed w → StateStandsIn w (community_of s) → AreOrderly (community_of s) →
        AllFit w (turns s lines).deeds →
        AreOrderly (community_of (turns s lines).state) }
    ensures not_ahead { (w : World) (s : State) (lines : List (List ℕ)) →
        WellFormed w → StateStandsIn w (community_of s) → AreOrderly (community_of s) →
        AllFit w (turns s lines).deeds →
        AreNotAhead (turns s lines).replies }
    ensures alone { (w : World) (s : State) (lines : List (List ℕ)) →
        WellFormed w → StateStandsIn w (community_of s) → has_session (turns s lines).replies ≡ false →
        AllFit w (turns s lines).deeds →
        HasHappened w s (turns s lines) }
    ensures fit { (w : World) (s : State) (lines : List (List ℕ)) →
        WellFormed w → StateStandsIn w (community_of s) → IsAllOf w (community_of s) →
        AreOrderly (community_of s) ⊎ (has_session (turns s lines).replies ≡ false) →
        AllFit w (turns s lines).deeds }
    ensures whole { (w : World) (s : State) (lines : List (List ℕ)) →
        WellFormed w → StateStandsIn w (community_of s) → IsAllOf w (community_of s) →
        AreOrderly (community_of s) ⊎ (has_session (turns s lines).replies ≡ false) →
        IsAllOf (after_deeds w (turns s lines).deeds) (community_of (turns s lines).state) }
{}

/// A line leaves the state that it committed last, and where it commits none, nothing has changed; and so
/// does a whole script. A law: nothing happens when this is called.
pub fn commits_end_in_state()
    ensures line { (s : State) (line : List ℕ) → last_or s (turn s line).commits ≡ (turn s line).state }
    ensures script { (s : State) (lines : List (List ℕ)) → last_or s (turns s lines).commits ≡ (turns s lines).state }
{}

/// On a machine that keeps the whole community, an id is taken where a replica has it and nowhere else: who
/// is heard of there is a replica there. A law: nothing happens when this is called.
pub fn taken_ids_have_members()
    ensures { (w : World) (s : State) (id : ℕ) →
        StateStandsIn w (community_of s) → IsWhole w (community_of s) → AreOrderly (community_of s) →
        is_id_taken id s.members ≡ true → HasMember (community_of s) id }
{}

/// What the lines `equal` and `knows` tell is what the replicas know and hold. A law: nothing happens when
/// this is called.
///
/// `equal`: `knowledge` is told to be the same exactly where both know the same at every place and unit, and
/// `items` exactly where they hold the same live items. `never`: in a state that stands in a well-formed
/// world no line finds the same knowledge and different items. `knows`: there a version that was made is
/// told to be known exactly where the replica holds it or one made knowing it.
pub fn comparisons_are_exact()
    ensures equal { (s : State) (first second : List ℕ) (m n : KeptMember) →
        AreOrderly (community_of s) →
        member_of s.members first ≡ Some m → member_of s.members second ≡ Some n →
        IsComparison s.units m.member n.member (equal_turn s first second).reply }
    ensures never { (w : World) (s : State) (line : List ℕ) →
        WellFormed w → StateStandsIn w (community_of s) → AreOrderly (community_of s) →
        (turn s line).reply ≢ Compared true false }
    ensures knows { (w : World) (s : State) (name : List ℕ) (m : KeptMember) (i : ItemId) (u : ℕ) (v : Version) →
        WellFormed w → StateStandsIn w (community_of s) →
        member_of s.members name ≡ Some m → u < s.units → Made w.records i u v →
        IsAccount w m.member i u v (knows_turn s name i u v).reply }
{}

/// A script may be cut anywhere between its lines: what comes of it is what comes of the lines before the
/// cut, and then of the others from the state that those left. A law: nothing happens when this is called.
pub fn lines_follow()
    ensures replies { (s : State) (xs ys : List (List ℕ)) →
        (turns s (xs ++ ys)).replies ≡ (turns s xs).replies ++ (turns (turns s xs).state ys).replies }
    ensures state { (s : State) (xs ys : List (List ℕ)) →
        (turns s (xs ++ ys)).state ≡ (turns (turns s xs).state ys).state }
{}
