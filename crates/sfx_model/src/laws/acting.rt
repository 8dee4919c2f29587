ghost use Rattle.std.specs.Prelude.{◌≡◌, ◌≢◌, ℕ, ◌≤◌, ◌++◌, List, [], ◌∷◌, map, codes, true, false, IsSomeAnd, Option, None, Some};
ghost use Rattle.sfx_ids.specs.declared.item_id.ItemId.{ItemId};
ghost use Rattle.sfx_knowledge.specs.Knowledge.{tick_at};
ghost use Rattle.sfx_model.specs.sessions.Acts.{DeedsActIn, DeedsContinue, EntryActs, HasTicksLeft, IsDue, IsInForm, IsMemberOf, IsOrderly, KnowsForgotten, LearnsItem, RangeActs, RangeFits, Supplies};
ghost use Rattle.sfx_model.specs.sessions.Batch.{BatchData};
ghost use Rattle.sfx_model.specs.members.Consistent.{IsConsistent};
ghost use Rattle.sfx_model.specs.sessions.CutRun.{before_cut, contained, created_records, cut_community, cut_deeds, cut_member, cut_world, got, known_names, present_items, world_before};
ghost use Rattle.sfx_model.specs.sessions.Deeds.{batch_deeds, events_with, session_deeds, task_deeds};
ghost use Rattle.sfx_model.specs.sessions.Entry.{Change, Task, Unlisted, task_item, task_plan};
ghost use Rattle.sfx_model.specs.world.Events.{AllLegal, AreLegalDeeds, after_all, site_of};
ghost use Rattle.sfx_model.specs.members.Headline.{FactsHold, HaveEqualKnowledge};
ghost use Rattle.sfx_model.specs.sessions.MemberKnowledge.{ahead_of, laid_known};
ghost use Rattle.sfx_item.specs.Item.{ItemState, ItemData};
ghost use Rattle.sfx_model.specs.members.Members.{Community, Member, shown, state_of};
ghost use Rattle.sfx_model.specs.members.Replica.{RepresentsReplica};
ghost use Rattle.sfx_model.specs.members.Results.{BacksRange};
ghost use Rattle.sfx_model.specs.sessions.Rules.{RulesData};
ghost use Rattle.sfx_model.specs.sessions.Session.{outcome_of, session_of};
ghost use Rattle.sfx_model.specs.sessions.SessionExamples.{five, nth_item, nth_version};
ghost use Rattle.sfx_model.specs.members.Snapshots.{Carried};
ghost use Rattle.sfx_model.specs.members.StandsIn.{IsWhole, StateStandsIn, together};
ghost use Rattle.sfx_model.specs.members.States.{ChangesMember};
ghost use Rattle.sfx_model.specs.sessions.TwoStates.{first_state, second_deeds, second_state, two_world};
ghost use Rattle.sfx_model.specs.world.World.{IsSound, Snapshot, WellFormed, World, empty_world};
ghost use Rattle.sfx_model.specs.declared.mode.Mode.TheVariants.{Recover};

/// A member that is consistent has its lists in order, as sessions ask of it, as a law. It does nothing when
/// called.
pub fn consistent_members_are_orderly()
    ensures { (units : ℕ) (m : Member) → IsConsistent units m → IsOrderly units m }
{}

/// What an applied entry does in every well-formed world, in either mode and under every rule, as a law: its
/// events may happen one after another, the world after them is well-formed, and there the destination as the
/// definition of the entry has it represents its site, with lists in order and live names that do not clash.
/// It does nothing when called.
///
/// `change`: the entry is a change of an item that the snapshot has in this state. `unlisted`: it is of an
/// item that the snapshot lacks and the destination holds, in recovery. `learned`: afterwards all that the
/// snapshot knows of the item is known, but for the units that are left alone.
pub fn entries_act()
    ensures change { (w : World) (snapshot : Snapshot) (b : BatchData) (rules : RulesData) (m : Member) (item : ItemData) →
        WellFormed w → RepresentsReplica w m.id (shown m) → IsOrderly w.units m → Supplies w snapshot b →
        Carried w snapshot item.id (tick_at b.made_with) (Some item.state) →
        HasTicksLeft w b rules m (Change item) →
        EntryActs w snapshot b rules m (Change item) }
    ensures unlisted { (w : World) (snapshot : Snapshot) (b : BatchData) (rules : RulesData) (m : Member) (i : ItemId)
        (local : ItemState) →
        WellFormed w → RepresentsReplica w m.id (shown m) → IsOrderly w.units m → Supplies w snapshot b →
        Carried w snapshot i (tick_at b.made_with) None →
        b.mode ≡ Recover → state_of m.items i ≡ Some local →
        HasTicksLeft w b rules m (Unlisted i) →
        EntryActs w snapshot b rules m (Unlisted i) }
    ensures learned { (w : World) (snapshot : Snapshot) (b : BatchData) (rules : RulesData) (m : Member) (t : Task) →
        WellFormed w → RepresentsReplica w m.id (shown m) → EntryActs w snapshot b rules m t →
        LearnsItem (after_all w (events_with snapshot (task_deeds w.units b t (task_plan w.units rules b m t) m)))
        m.id snapshot (task_item t) (task_plan w.units rules b m t).draft }
{}

/// What learning a batch's range does in every well-formed world, as a law: where each item of it is known
/// at the destination but for the units left out, or is gone from both sides, the events may happen, the
/// world after them is well-formed, and there the destination as the definition has it represents its site.
/// It does nothing when called.
pub fn ranges_act()
    ensures { (w : World) (snapshot : Snapshot) (b : BatchData) (left : List (ItemId × ℕ)) (m : Member) →
        WellFormed w → RepresentsReplica w m.id (shown m) → IsOrderly w.units m → Supplies w snapshot b →
        IsSound w snapshot → BacksRange w snapshot b.from b.to (tick_at b.made_with) →
        IsSomeAnd (site_of w.sites m.id) (λ s. RangeFits s snapshot b left) →
        RangeActs w snapshot b left m }
{}

/// What applying a batch does in every well-formed world in which source and destination represent their
/// sites, as a law: where the batch is the one that is due from the source, its deeds may happen one after
/// another, and the world after them is well-formed; there the source still represents its site, and so
/// does the destination as it is then, with its lists in order and live names that do not clash. It holds
/// however the batch ends: whole, cut, or for want of ticks. The source's live names may clash. It does
/// nothing when called.
pub fn batches_act()
    ensures { (w : World) (source m : Member) (b : BatchData) (rules : RulesData) (size : ℕ) (budget : Option ℕ) →
        WellFormed w → source.id ≢ m.id →
        RepresentsReplica w source.id (shown source) → RepresentsReplica w m.id (shown m) →
        IsInForm w.units source → IsOrderly w.units m →
        1 ≤ size → IsDue w.units source m size b → KnowsForgotten w.units b m →
        DeedsActIn w (batch_deeds w.units b rules budget m) source m.id (outcome_of w.units b rules budget m).member }
{}

/// What a session does in every well-formed world in which source and destination represent their sites, as
/// a law: its deeds may happen one after another, and the world after them is well-formed. It holds under
/// every rule, in either mode, and whether the session is done, cut or full. It does nothing when called.
///
/// `session`: afterwards the source still represents its site, and so does the destination as it is then,
/// with its lists in order and live names that do not clash. `state`: a state that stands, of which source and
/// destination are two members, stands again.
pub fn sessions_act()
    ensures session { (w : World) (source m : Member) (rules : RulesData) (size : ℕ) (cut : Option ℕ) →
        WellFormed w → source.id ≢ m.id →
        RepresentsReplica w source.id (shown source) → RepresentsReplica w m.id (shown m) →
        IsOrderly w.units source → IsOrderly w.units m → 1 ≤ size →
        DeedsActIn w (session_deeds w.units source m rules size cut) source m.id
        (session_of w.units source m rules size cut).course.member }
    ensures state { (w : World) (c d : Community) (source m : Member) (rules : RulesData) (size : ℕ) (cut : Option ℕ) →
        WellFormed w → StateStandsIn w c → source.id ≢ m.id → IsMemberOf c source →
        ChangesMember m (session_of w.units source m rules size cut).course.member c d →
        IsOrderly w.units source → IsOrderly w.units m → 1 ≤ size →
        DeedsContinue w (session_deeds w.units source m rules size cut) d }
{}

/// No replica of a well-formed world knows or has forgotten more of another than that one made, as a law: of
/// two members that represent their sites none is ahead of the other, so that no session between them is
/// refused for that. It does nothing when called.
pub fn none_is_ahead()
    ensures { (w : World) (source m : Member) →
        RepresentsReplica w source.id (shown source) → RepresentsReplica w m.id (shown m) →
        IsOrderly w.units source →
        ahead_of m (laid_known w.units source) source.forgotten ≡ None }
{}

/// The world of a session that is cut, on literals: the replica A created five items, and the new replica B
/// gets two of them. It does nothing when called.
///
/// `before`, `legal`: what happened before the session may happen, and so may the session's deeds.
/// `entries`: they are the entries of the first two items, and no range is learned. `records`: a session
/// makes no version, and the world's records are those of the creations, the latest first. `known`,
/// `present`: of B's site, which knows of each of the five items what it has. `state`: the state of both
/// replicas stands in the world. `facts`: the three facts hold of them. `exact`, `other`: B's knowledge
/// contains the versions of the two items that it has and no others, while A's contains all. `differ`: so
/// their knowledge is not equal.
pub fn cut_run()
    ensures before { AllLegal empty_world before_cut }
    ensures legal { AreLegalDeeds world_before cut_deeds }
    ensures entries { map got cut_deeds ≡ Some (nth_item 1 10) ∷ Some (nth_item 2 10) ∷ [] }
    ensures records { cut_world.records ≡ created_records 5 (codes "n5") ++
        (created_records 4 (codes "n4") ++
        (created_records 3 (codes "n3") ++ (created_records 2 (codes "n2") ++ created_records 1 (codes "n1")))) }
    ensures known { known_names cut_world 11 ≡
        Some ((nth_version 1 10 ∷ []) ∷ (nth_version 2 10 ∷ []) ∷ [] ∷ [] ∷ [] ∷ []) }
    ensures present { present_items cut_world 11 ≡ Some (true ∷ true ∷ false ∷ false ∷ false ∷ []) }
    ensures state { StateStandsIn cut_world cut_community }
    ensures facts { FactsHold cut_world cut_community }
    ensures exact { contained cut_member ≡ true ∷ true ∷ false ∷ false ∷ false ∷ [] }
    ensures other { contained five ≡ true ∷ true ∷ true ∷ true ∷ true ∷ [] }
    ensures differ { ¬ HaveEqualKnowledge 2 (shown five) (shown cut_member) }
{}

/// Two states in one world, as on two machines, each with replicas, edits and a session of its own. It
/// does nothing when called.
///
/// `legal`: what happens on the second machine may happen in the world of the first; the unit count is
/// said again. `first` and `second`: both states stand in the world afterwards. `both` and `facts`: and so
/// they do as one state, of which the three facts hold. `elsewhere`: the first state is not whole, since
/// the replicas of the second are not in it.
pub fn two_states()
    ensures legal { AreLegalDeeds cut_world second_deeds }
    ensures first { StateStandsIn two_world first_state }
    ensures second { StateStandsIn two_world second_state }
    ensures both { StateStandsIn two_world (together first_state second_state) }
    ensures facts { FactsHold two_world (together first_state second_state) }
    ensures elsewhere { ¬ IsWhole two_world first_state }
{}
