ghost use Rattle.std.specs.Prelude.{◌≡◌, ℕ, ◌<◌, ◌≤◌, Bool, List, [], length, true, Option, Some};
ghost use Rattle.sfx_ids.specs.declared.cut.Cut.{Cut};
ghost use Rattle.sfx_ids.specs.declared.item_id.ItemId.{ItemId};
ghost use Rattle.sfx_ids.specs.declared.version.Version.{Version};
ghost use Rattle.sfx_ids.specs.Tick.{max_tick};
ghost use Rattle.sfx_item.specs.declared.cell.Cell.{Cell};
ghost use Rattle.sfx_knowledge.specs.Forgotten.{fvec};
ghost use Rattle.sfx_knowledge.specs.Knowledge.{tick_at};
ghost use Rattle.sfx_model.specs.world.Events.{Apply, AreLegalDeeds, Clean, Deed, Event, Forget, IsNewId, Join, Learn, Legal, Make, UnitMark, Units, after, after_deeds};
ghost use Rattle.sfx_model.specs.sessions.Acts.{IsOrderly};
ghost use Rattle.sfx_model.specs.sessions.MemberKnowledge.{names_id};
ghost use Rattle.sfx_model.specs.members.Headline.{DeletionsAreRespected, EqualKnowledgeMeansEqualItems, FactsHold, KnowledgeIsExact};
ghost use Rattle.sfx_item.specs.Item.{Dead, ItemState, Live};
ghost use Rattle.sfx_model.specs.members.Members.{AreAscending, Community, ItemRepresents, Member, NamedMember, Represents, Shown, shown, state_of};
ghost use Rattle.sfx_model.specs.members.Replica.{ActsIn, IsNewMember, IsOfOthers, RepresentsReplica};
ghost use Rattle.sfx_model.specs.members.Results.{Backs, BacksForgotten, BacksRange, CleanResult, EditResult, EntryResult, ForgetResult, LearnResult};
ghost use Rattle.sfx_model.specs.world.Sets.{Has, IsPart};
ghost use Rattle.sfx_model.specs.members.StandsIn.{AreDisjoint, AreIdsApart, AreOfOthers, HasMember, HasNoOtherUnits, IsWhole, StateStandsIn, together};
ghost use Rattle.sfx_model.specs.members.States.{ChangesMember, Continues, IsNewState, IsOf, Rises, cells_with, created_contents, deleted_contents, edited_contents, member_named, next_created, next_item, next_version, with_added, with_changed, with_item, with_state};
ghost use Rattle.sfx_model.specs.world.Units.{IsUnitCount};
ghost use Rattle.sfx_model.specs.world.World.{Content, Site, Snapshot, WellFormed, World, holding};
ghost use Rattle.sfx_segments.specs.Segments.{IsPlace};
ghost use Rattle.sfx_vector.specs.Clocks.{tick_of};

/// The three facts, as a law of every well-formed world, for any number of replicas and units, and
/// of every state that represents a site of it. Calling this does nothing.
///
/// `exact`: knowledge contains a made version of a unit exactly if the replica holds it or one made
/// knowing it, cleaned deletions included. `same`: replicas of equal knowledge hold equal live
/// items. `deletions`: each live unit's version was made knowing every deletion of that unit that
/// the replica knows. `community`: all three, of all members of a state that stands in the world.
pub fn knowledge_is_exact()
    ensures exact { (w : World) (s : Site) (m : Shown) →
        WellFormed w → Has s w.sites → Represents w s m → KnowledgeIsExact w m }
    ensures same { (w : World) (s t : Site) (m n : Shown) →
        WellFormed w → Has s w.sites → Has t w.sites → Represents w s m → Represents w t n →
        AreAscending m.items → AreAscending n.items → EqualKnowledgeMeansEqualItems w m n }
    ensures deletions { (w : World) (s : Site) (m : Shown) →
        WellFormed w → Has s w.sites → Represents w s m → DeletionsAreRespected w m }
    ensures community { (w : World) (c : Community) →
        WellFormed w → StateStandsIn w c → FactsHold w c }
{}

/// What each event does to the states that represent replicas of a well-formed world, as a law. It
/// does nothing when called.
///
/// `others`: an event leaves the states of the other replicas representing them. `joined`: the
/// empty state of a replica that joins represents it. The other clauses are of the replica that
/// acts: its state represents it afterwards where it changed as the clause's result says, by a
/// creation, edit or deletion (`edit`), a cleanup (`cleaned`), forgotten deletions joined
/// (`forgot`), an applied entry (`entry`) or a learned range (`range`). `seen`, `made_with` and
/// `forgotten` are what comes with a snapshot: its state of the item, its knowledge and its
/// forgotten deletions.
pub fn members_stand()
    ensures others { (w : World) (event : Event) (r : ℕ) (m : Shown) →
        WellFormed w → Legal w event → IsOfOthers event r →
        RepresentsReplica w r m → RepresentsReplica (after w event) r m }
    ensures joined { (w : World) (id : ℕ) (m : Shown) →
        WellFormed w → Legal w (Join id) → IsNewMember w.units id m →
        RepresentsReplica (after w (Join id)) id m }
    ensures edit { (w : World) (r : ℕ) (i : ItemId) (v : Version) (contents : ℕ → Option Content)
        (m n : Shown) →
        WellFormed w → Legal w (Make r i v contents) → RepresentsReplica w r m →
        EditResult w.units i v contents m n →
        RepresentsReplica (after w (Make r i v contents)) r n }
    ensures cleaned { (w : World) (r : ℕ) (i : ItemId) (v : Version) (lo hi : Cut) (m n : Shown) →
        WellFormed w → Legal w (Clean r i v lo hi) → RepresentsReplica w r m →
        CleanResult w.units i v lo hi m n →
        RepresentsReplica (after w (Clean r i v lo hi)) r n }
    ensures forgot { (w : World) (r : ℕ) (s : Snapshot) (forgotten : Cut → ℕ → ℕ) (lo hi : Cut)
        (m n : Shown) →
        WellFormed w → Legal w (Forget r s lo hi) → RepresentsReplica w r m →
        BacksForgotten w s lo hi forgotten → ForgetResult w.units forgotten lo hi m n →
        RepresentsReplica (after w (Forget r s lo hi)) r n }
    ensures entry { (w : World) (r : ℕ) (s : Snapshot) (i : ItemId) (v : Version)
        (marks : ℕ → UnitMark)
        (seen : Option ItemState) (made_with : Cut → ℕ → ℕ → ℕ) (m n : Shown) →
        WellFormed w → Legal w (Apply r s i v marks) → RepresentsReplica w r m →
        Backs w s i made_with → ItemRepresents w.units w.records i (holding s i) seen →
        EntryResult w.units i v marks seen made_with m n →
        RepresentsReplica (after w (Apply r s i v marks)) r n }
    ensures range { (w : World) (r : ℕ) (s : Snapshot) (lo hi : Cut) (left : ItemId → ℕ → Bool)
        (made_with : Cut → ℕ → ℕ → ℕ) (m n : Shown) →
        WellFormed w → Legal w (Learn r s lo hi left) → RepresentsReplica w r m →
        BacksRange w s lo hi made_with → LearnResult w.units lo hi left made_with m n →
        RepresentsReplica (after w (Learn r s lo hi left)) r n }
{}

/// What an edit of a replica does to every well-formed world in which its state represents its site, as
/// a law: the event is one that may happen, the world after it is well-formed, and the new state
/// represents the site there. It does nothing when called.
///
/// The state m becomes n by its next version: with one more item (`created`), with a value written to
/// one unit of a live item (`edited`), or with a live item deleted (`deleted`).
pub fn edits_act()
    ensures created { (w : World) (m n : Member) (values : List (List ℕ)) →
        WellFormed w → RepresentsReplica w m.id (shown m) → AreAscending m.items →
        m.clock < max_tick → length values ≡ w.units →
        Rises w.units m n (with_item (next_created m values) m.items) →
        ActsIn w (Make m.id (next_item m) (next_version m) (created_contents values)) m.id n }
    ensures edited { (w : World) (m n : Member) (i : ItemId) (unit : ℕ) (value : List ℕ)
        (cells : List Cell) →
        WellFormed w → RepresentsReplica w m.id (shown m) → AreAscending m.items →
        m.clock < max_tick → unit < w.units →
        state_of m.items i ≡ Some (Live cells) →
        Rises w.units m n (with_state i (Live (cells_with m cells unit value)) m.items) →
        ActsIn w (Make m.id i (next_version m) (edited_contents unit value)) m.id n }
    ensures deleted { (w : World) (m n : Member) (i : ItemId) (cells : List Cell) →
        WellFormed w → RepresentsReplica w m.id (shown m) → AreAscending m.items →
        m.clock < max_tick →
        state_of m.items i ≡ Some (Live cells) →
        Rises w.units m n (with_state i (Dead (next_version m)) m.items) →
        ActsIn w (Make m.id i (next_version m) (deleted_contents w.units)) m.id n }
{}

/// What the lines of a script do to a state that stands in a well-formed world, as a law: the line's
/// event may happen, the world after it is well-formed, and the state afterwards stands there. The
/// world may have other replicas, which are kept elsewhere. Nothing happens when this is called.
///
/// `empty`: a program starts with no units and no members, which stands in every world. `units`: it
/// says the unit count, where the world has no other one. `joined`: a replica is added behind the
/// others, under an id that is new in the world. `created`, `edited` and `deleted`: the member m
/// becomes n by its next version, with one more item, with a value written to one unit of a live
/// item, or with a live item deleted; the other members stay. `acted`: any event that a replica does
/// at its own site, where its new state is known to represent it. `named`: what putting a member in
/// the place of the one with its name does. `others`: deeds of replicas that are kept elsewhere, and
/// that leave the unit count as it is, leave the state standing.
pub fn state_stands()
    ensures empty { (w : World) → StateStandsIn w (record { units = 0; members = [] }) }
    ensures units { (w : World) (c : Community) (units : ℕ) →
        WellFormed w → StateStandsIn w c → IsUnitCount units → HasNoOtherUnits w units →
        Continues w (Units units) (record { units = units; members = c.members }) }
    ensures joined { (w : World) (c : Community) (name : List ℕ) (id : ℕ) (m : Member) →
        WellFormed w → StateStandsIn w c → 1 ≤ c.units → IsNewId w id → IsNewState c.units id m →
        Continues w (Join id) (with_added name m c) }
    ensures created { (w : World) (c d : Community) (m n : Member) (values : List (List ℕ)) →
        WellFormed w → StateStandsIn w c → ChangesMember m n c d → m.clock < max_tick →
        length values ≡ c.units →
        Rises c.units m n (with_item (next_created m values) m.items) →
        Continues w (Make m.id (next_item m) (next_version m) (created_contents values)) d }
    ensures edited { (w : World) (c d : Community) (m n : Member) (i : ItemId) (unit : ℕ)
        (value : List ℕ) (cells : List Cell) →
        WellFormed w → StateStandsIn w c → ChangesMember m n c d → m.clock < max_tick →
        unit < c.units →
        state_of m.items i ≡ Some (Live cells) →
        Rises c.units m n (with_state i (Live (cells_with m cells unit value)) m.items) →
        Continues w (Make m.id i (next_version m) (edited_contents unit value)) d }
    ensures deleted { (w : World) (c d : Community) (m n : Member) (i : ItemId)
        (cells : List Cell) →
        WellFormed w → StateStandsIn w c → ChangesMember m n c d → m.clock < max_tick →
        state_of m.items i ≡ Some (Live cells) →
        Rises c.units m n (with_state i (Dead (next_version m)) m.items) →
        Continues w (Make m.id i (next_version m) (deleted_contents c.units)) d }
    ensures acted { (w : World) (event : Event) (c d : Community) (m n : Member) →
        WellFormed w → StateStandsIn w c → Legal w event → IsOf event m.id →
        ChangesMember m n c d →
        AreAscending n.items → RepresentsReplica (after w event) m.id (shown n) →
        StateStandsIn (after w event) d }
    ensures named { (name : List ℕ) (m n : Member) (c : Community) →
        member_named name c.members ≡ Some m → ChangesMember m n c (with_changed name n c) }
    ensures others { (w : World) (deeds : List Deed) (c : Community) →
        WellFormed w → StateStandsIn w c → AreLegalDeeds w deeds → AreOfOthers deeds c →
        (after_deeds w deeds).units ≡ w.units → StateStandsIn (after_deeds w deeds) c }
{}

/// The replicas of a community may be kept as several states, as on several machines. A law of states
/// that stand in one world: it does nothing when called.
///
/// `split`: some members of a state, with its unit count, stand as a state of their own. `joined`: two
/// states without a common id stand as one state. `known` and `forgotten`: in a whole state, which
/// has a member for each replica of the world, each id that a member's knowledge or its forgotten
/// deletions name, by a tick at some place, is that of a member. `named`: and so is each id that a member
/// is computed to name, where its lists are in order.
pub fn states_part()
    ensures split { (w : World) (c d : Community) →
        StateStandsIn w c → d.units ≡ c.units → IsPart d.members c.members → AreIdsApart d.members →
        StateStandsIn w d }
    ensures joined { (w : World) (c d : Community) →
        StateStandsIn w c → StateStandsIn w d → AreDisjoint c d → StateStandsIn w (together c d) }
    ensures known { (w : World) (c : Community) (m : NamedMember) (place : Cut) (u r : ℕ) →
        StateStandsIn w c → IsWhole w c → Has m c.members → IsPlace place → u < c.units →
        1 ≤ tick_at m.member.knowledge place u r → HasMember c r }
    ensures forgotten { (w : World) (c : Community) (m : NamedMember) (place : Cut) (r : ℕ) →
        StateStandsIn w c → IsWhole w c → Has m c.members → IsPlace place →
        1 ≤ tick_of (fvec m.member.forgotten place) r → HasMember c r }
    ensures named { (w : World) (c : Community) (m : NamedMember) (r : ℕ) →
        StateStandsIn w c → IsWhole w c → Has m c.members → IsOrderly c.units m.member →
        names_id r m.member ≡ true → HasMember c r }
{}
