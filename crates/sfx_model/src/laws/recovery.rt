ghost use Rattle.std.specs.Prelude.{◌≡◌, ◌++◌, List, [], ◌∷◌, Some, None, codes, length};
ghost use Rattle.sfx_ids.specs.declared.cut.Cut.TheVariants.{After, At, Start};
ghost use Rattle.sfx_ids.specs.Tick.{max_tick};
ghost use Rattle.sfx_model.specs.sessions.RecoveryExamples.{both_renamed, brought_back, cleaner_to_edit, cleaner_to_new, cleanup, cleanup_back, counts_of, creator_to_editor, cut_recovery, deletion_to_creator, deletion_to_editor, edit_to_cleaner, five_by, forgetful, free_name_first, with_full_clock, left_then_settled, modes_of, new_name_taken, own_deletions, same_name, third_after_cut, to_full_clock};
ghost use Rattle.sfx_model.specs.sessions.SessionExamples.{destination_of, created_of, dead_of, entries_of, entry, first, nth_item, items_after, known_after, live_of, other, quiet, segment_of, nth_version};
ghost use Rattle.sfx_model.specs.declared.clash_rule.ClashRule.TheVariants.{Destination, RenameDestination, RenameSource, Skip, Source};
ghost use Rattle.sfx_model.specs.declared.entry_kind.EntryKind.TheVariants.{Deleted, Dropped, Renamed, Settled, Skipped, Took};
ghost use Rattle.sfx_model.specs.declared.keep.Keep.TheVariants as keeps;
ghost use Rattle.sfx_model.specs.declared.mark.Mark.TheVariants.{Gone, Left, Stamped, Stays, Taken};
ghost use Rattle.sfx_model.specs.declared.mode.Mode.TheVariants.{Normal, Recover};
ghost use Rattle.sfx_model.specs.declared.session_end.SessionEnd.TheVariants as session_ends;
ghost use Rattle.sfx_model.specs.declared.session_end.SessionEnd.TheVariants.{Full};

/// Small sessions with a replica that deleted its item and cleaned it away. Nothing happens when this
/// function is called.
///
/// `mode`, `dropped`, `cleaned`: a destination that still has the item recovers, drops it, and then knows
/// and has forgotten what the source does. `unsent`, `unsent_mode`: the other way nothing is sent.
///
/// An item that was edited elsewhere comes to the cleaner: it is deleted again under the rule that keeps the
/// destination's side (`kept_deleted`), and made live again under the one that keeps the source's (`revived`,
/// `revived_entry`). The cleaner's deletion comes to the edited item: it is deleted (`edit_deleted`,
/// `edit_deleted_entry`) or stays (`edit_stays`). An edit that was kept so knows the deletion, and is taken
/// at the cleaner without a conflict (`brought_back`). `left`, `left_known`: an edited item that is left
/// alone stays unknown at its place. `again_mode`, `again`: so the next session recovers again and settles
/// it.
///
/// Recovery of two items that is cut after the first: that one is dropped (`cut`, `cut_end`), and its
/// place alone knows and has forgotten what the source does (`cut_known`). So its edit by a third replica
/// is met as a conflict and not as a new item (`third_mode`, `third`), and it is deleted again
/// (`third_items`).
///
/// `new_sent`, `new_mode`: a new replica recovers, and nothing is sent. `own`: a destination does not
/// recover for deletions of its own.
pub fn recovery_on_examples()
    ensures mode { modes_of cleanup ≡ Recover ∷ [] }
    ensures dropped { entries_of cleanup ≡ quiet first Dropped Gone Gone ∷ [] }
    ensures cleaned { destination_of cleanup ≡ forgetful 11 0 (segment_of Start ((10, 2) ∷ [])) ((10, 2) ∷ []) [] }
    ensures unsent { entries_of cleanup_back ≡ [] }
    ensures unsent_mode { modes_of cleanup_back ≡ Normal ∷ [] }
    ensures revived { items_after (edit_to_cleaner keeps.Source) ≡
        live_of first (nth_version 3 10) (codes "n1") (nth_version 3 10) (codes "y") ∷ [] }
    ensures revived_entry { entries_of (edit_to_cleaner keeps.Source) ≡
        entry first Settled Stamped Stamped (Some 3) None [] ∷ [] }
    ensures kept_deleted { items_after (edit_to_cleaner keeps.Destination) ≡ dead_of first (nth_version 3 10) ∷ [] }
    ensures edit_deleted { items_after (cleaner_to_edit keeps.Source) ≡ dead_of first (nth_version 2 11) ∷ [] }
    ensures edit_deleted_entry { entries_of (cleaner_to_edit keeps.Source) ≡
        entry first Settled Stamped Stamped (Some 2) None [] ∷ [] }
    ensures edit_stays { items_after (cleaner_to_edit keeps.Destination) ≡
        live_of first (nth_version 2 11) (codes "n1") (nth_version 2 11) (codes "y") ∷ [] }
    ensures brought_back { entries_of brought_back ≡ quiet first Took Taken Taken ∷ [] }
    ensures left { entries_of (cleaner_to_edit keeps.Skip) ≡ quiet first Skipped Left Left ∷ [] }
    ensures left_known { known_after (cleaner_to_edit keeps.Skip) ≡
        segment_of Start ((10, 2) ∷ (11, 1) ∷ []) ++ segment_of (At first) ((10, 1) ∷ (11, 1) ∷ []) ++ segment_of
        (After first) ((10, 2) ∷ (11, 1) ∷ []) }
    ensures again_mode { modes_of left_then_settled ≡ Recover ∷ [] }
    ensures again { entries_of left_then_settled ≡ entry first Settled Stamped Stamped (Some 2) None [] ∷ [] }
    ensures cut { entries_of cut_recovery ≡ quiet first Dropped Gone Gone ∷ [] }
    ensures cut_end { cut_recovery.end ≡ session_ends.Cut }
    ensures cut_known { destination_of cut_recovery ≡ forgetful 11 0
        (segment_of Start ((10, 2) ∷ []) ++ segment_of (At first) ((10, 4) ∷ []) ++ segment_of (After first)
        ((10, 2) ∷ [])) ((10, 4) ∷ []) (created_of 2 10 (codes "n2") ∷ []) }
    ensures third_mode { modes_of third_after_cut ≡ Normal ∷ [] }
    ensures third { entries_of third_after_cut ≡ entry first Settled Stamped Stamped (Some 1) None [] ∷ [] }
    ensures third_items { items_after third_after_cut ≡
        dead_of first (nth_version 1 11) ∷ created_of 2 10 (codes "n2") ∷ [] }
    ensures new_sent { entries_of cleaner_to_new ≡ [] }
    ensures new_mode { modes_of cleaner_to_new ≡ Recover ∷ [] }
    ensures own { modes_of own_deletions ≡ Normal ∷ [] }
{}

/// Small sessions to a replica whose clock is full, and whose item has the name of one that comes, under the
/// rule that deletes what comes, which needs a new version. Nothing happens when this function is called.
///
/// `full_entries`, `full_end`, `full_state`: there is no version left, so the session ends with no entry,
/// says the clock, and leaves the replica as it was. `one_taken`, `one_end`: an item before it that needs no
/// new version is taken first. `cut_end`: a session that is cut right after that one ends by the cut.
pub fn clocks_on_examples()
    ensures full_entries { entries_of (to_full_clock same_name None) ≡ [] }
    ensures full_end { (to_full_clock same_name None).end ≡ Full max_tick }
    ensures full_state { destination_of (to_full_clock same_name None) ≡ with_full_clock }
    ensures one_taken { length (entries_of (to_full_clock free_name_first None)) ≡ 1 }
    ensures one_end { (to_full_clock free_name_first None).end ≡ Full max_tick }
    ensures cut_end { (to_full_clock free_name_first (Some 1)).end ≡ session_ends.Cut }
{}

/// A deletion that meets edits over three replicas. Nothing happens when this function is called.
///
/// The third replica deleted an item. The deletion comes to the creator, which keeps its edit (`kept`). From
/// there the item comes to a replica with an edit of its own, which takes the name and leaves the value alone
/// (`taken`). Then the deletion comes there too: the name is known to have outlived it, the value is not, and
/// under the rule that keeps the deletion the whole item is deleted (`deleted`, `deleted_item`). Of the value
/// the creator's edit stays unknown (`deleted_known`).
pub fn deletions_on_examples()
    ensures kept { entries_of deletion_to_creator ≡ entry first Settled Stamped Stamped (Some 3) None [] ∷ [] }
    ensures taken { entries_of creator_to_editor ≡ quiet first Took Taken Left ∷ [] }
    ensures deleted { entries_of deletion_to_editor ≡ entry first Settled Stamped Stamped (Some 2) None [] ∷ [] }
    ensures deleted_item { items_after deletion_to_editor ≡ dead_of first (nth_version 2 11) ∷ [] }
    ensures deleted_known { known_after deletion_to_editor ≡
        segment_of Start ((10, 3) ∷ (11, 2) ∷ (12, 1) ∷ []) ++ (
          At first,
          record {
            base = (10, 3) ∷ (11, 2) ∷ (12, 1) ∷ [];
            others =
                (1, (10, 1) ∷ (11, 2) ∷ (12, 1) ∷ []) ∷ [];
          },
        ) ∷
        segment_of (After first) ((10, 3) ∷ (11, 2) ∷ (12, 1) ∷ []) }
{}

/// Names that an item of the destination has already. Nothing happens when this function is called.
///
/// `both_renamed`: an item `dir` comes to a destination with two items below that name, which are both
/// renamed; the first new name of the first of them is not free. The other clauses are of an item that both
/// sides have, and that the source gave the name of another item of the destination, under each rule.
pub fn taken_names_on_examples()
    ensures both_renamed { entries_of both_renamed ≡ entry first Took Taken Taken None None
        (other (nth_item 1 11) 4 (Some (codes "dir~2/f")) ∷ other (nth_item 2 11) 5 (Some (codes "dir~1/g")) ∷ [])
        ∷ [] }
    ensures rename_source { entries_of (new_name_taken RenameSource) ≡
        entry first Renamed Stamped Stays (Some 2) (Some (codes "m~1")) [] ∷ [] }
    ensures source { entries_of (new_name_taken Source) ≡
        entry first Took Taken Stays None None (other (nth_item 1 11) 2 None ∷ []) ∷ [] }
    ensures destination { entries_of (new_name_taken Destination) ≡
        entry first Deleted Stamped Stamped (Some 2) None [] ∷ [] }
    ensures rename_destination { entries_of (new_name_taken RenameDestination) ≡
        entry first Took Taken Stays None None (other (nth_item 1 11) 2 (Some (codes "m~1")) ∷ []) ∷ [] }
    ensures skip { entries_of (new_name_taken Skip) ≡ quiet first Skipped Left Left ∷ [] }
{}

/// How many states a session that brings five items commits, and at how many its storage may be left, the
/// first of them the state before it. Nothing happens when this function is called.
///
/// `whole_by_one` and the others to `whole_by_nine`: in one batch, in groups of 1, 2, 3, 5 and 9 entries.
/// `cut_by_one` to `cut_by_three`: the session is cut after two entries, and what came since the last whole
/// group is committed at the cut. `twos_by_one`, `twos_by_two`: in batches of two items each. `twos_cut`,
/// `twos_cut_batches`, `twos_cut_by_one`: such a session that is cut after four entries ends with its second
/// batch.
pub fn moments_on_examples()
    ensures whole_by_one { counts_of 1 (five_by 100 None) ≡ (5, 7) }
    ensures whole_by_two { counts_of 2 (five_by 100 None) ≡ (3, 4) }
    ensures whole_by_three { counts_of 3 (five_by 100 None) ≡ (2, 3) }
    ensures whole_by_five { counts_of 5 (five_by 100 None) ≡ (1, 3) }
    ensures whole_by_nine { counts_of 9 (five_by 100 None) ≡ (1, 2) }
    ensures cut_by_one { counts_of 1 (five_by 100 (Some 2)) ≡ (2, 4) }
    ensures cut_by_two { counts_of 2 (five_by 100 (Some 2)) ≡ (1, 3) }
    ensures cut_by_three { counts_of 3 (five_by 100 (Some 2)) ≡ (1, 2) }
    ensures twos_by_one { counts_of 1 (five_by 2 None) ≡ (5, 9) }
    ensures twos_by_two { counts_of 2 (five_by 2 None) ≡ (3, 6) }
    ensures twos_cut { (five_by 2 (Some 4)).end ≡ session_ends.Cut }
    ensures twos_cut_batches { length (five_by 2 (Some 4)).course.steps ≡ 2 }
    ensures twos_cut_by_one { counts_of 1 (five_by 2 (Some 4)) ≡ (4, 7) }
{}
