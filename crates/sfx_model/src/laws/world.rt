ghost use Rattle.std.specs.Prelude.{◌≡◌, ℕ, ◌≤◌, List, [], ◌∷◌, true, false};
ghost use Rattle.sfx_ids.specs.declared.item_id.ItemId.{ItemId};
ghost use Rattle.sfx_model.specs.world.World.{Written, Site, Snapshot, World, WellFormed, empty_world};
ghost use Rattle.sfx_model.specs.world.Events.{UnitMark, Joint, Event, Units, Legal, after, AllLegal, after_all, Deed, AreLegalDeeds, after_deeds};
ghost use Rattle.sfx_model.specs.world.Agreement.{AgreesAcrossUnits};
ghost use Rattle.sfx_model.specs.members.StandsIn.{StateStandsIn};
ghost use Rattle.sfx_model.specs.members.Headline.{FactsHold};
ghost use Rattle.sfx_model.specs.members.Examples.{example_version, example_record, edited_records, edited_again, deleted, example_world, run_events, run_world, run_records, run_community, twins};

/// The law of the world: it begins well-formed, and each event that may happen keeps it so, for every
/// number of replicas and units. The law is said of one event, of a list of events and of a list of
/// deeds, which name their source by its id. Nothing happens when this function is called.
pub fn events_keep()
    ensures empty { WellFormed empty_world }
    ensures one { (w : World) (e : Event) → WellFormed w → Legal w e → WellFormed (after w e) }
    ensures all { (w : World) (es : List Event) → WellFormed w → AllLegal w es → WellFormed (after_all w es) }
    ensures deeds { (w : World) (ds : List Deed) → WellFormed w → AreLegalDeeds w ds → WellFormed (after_deeds w ds) }
{}

/// The shapes that the marks of an entry can have are what is asked of any two units, said unit by unit:
/// neither asks more than the other. Nothing happens when this function is called.
pub fn marks_agree()
    ensures shape { (w : World) (s : Site) (snapshot : Snapshot) (i : ItemId) (marks : ℕ → UnitMark) → 1 ≤ w.units →
        AgreesAcrossUnits w s snapshot i marks → Joint w s snapshot i marks }
    ensures agreement { (w : World) (s : Site) (snapshot : Snapshot) (i : ItemId) (marks : ℕ → UnitMark) →
        Joint w s snapshot i marks → AgreesAcrossUnits w s snapshot i marks }
{}

/// Worlds that are well-formed, and worlds that are not, each for one cause: a version is known without
/// what its maker knew; two versions were made without knowing each other, so that a present item has no
/// latest version; an item is gone, and no forgotten deletion contains its versions; one version was
/// made twice at one cell.
///
/// In a world of two units, `units` may be said again as it is (`again`), and with no other count
/// (`recount`). Items cannot have three units (`three`). A state with one id in both of its members
/// stands nowhere (`twins`). Nothing happens when this function is called.
pub fn examples()
    ensures edit { WellFormed (example_world edited_records 2 (example_version 2 ∷ example_version 1 ∷ []) true 0) }
    ensures cleanup { WellFormed (example_world deleted 2 (example_version 2 ∷ example_version 1 ∷ []) false 2) }
    ensures gap { ¬ WellFormed (example_world edited_records 2 (example_version 2 ∷ []) true 0) }
    ensures fork { ¬ WellFormed (example_world (edited_again (example_version 1 ∷ [])) 3
        (example_version 3 ∷ example_version 2 ∷ example_version 1 ∷ []) true 0) }
    ensures lost { ¬ WellFormed (example_world deleted 2 (example_version 2 ∷ example_version 1 ∷ []) false 0) }
    ensures twice { ¬ WellFormed (example_world
        (example_record 1 (Written (98 ∷ [])) [] ∷ example_record 1 (Written (97 ∷ [])) [] ∷ []) 1
        (example_version 1 ∷ []) true 0) }
    ensures again { Legal run_world (Units 2) }
    ensures recount { ¬ Legal run_world (Units 4) }
    ensures three { ¬ Legal empty_world (Units 3) }
    ensures twins { (w : World) → ¬ StateStandsIn w twins }
{}

/// A short run from the empty world: its events may happen, they make these records, this state stands
/// in the world afterwards, and the three facts hold of it. Nothing happens when this function is
/// called.
pub fn short_run()
    ensures legal { AllLegal empty_world run_events }
    ensures records { run_world.records ≡ run_records }
    ensures state { StateStandsIn run_world run_community }
    ensures facts { FactsHold run_world run_community }
{}
