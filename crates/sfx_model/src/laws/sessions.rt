ghost use Rattle.std.specs.Prelude.{◌≡◌, ◌++◌, ◌+◌, ◌≤◌, ◌<◌, ◌↔◌, ℕ, IsTrue, length, Option, List, [], ◌∷◌, Some, None, codes};
ghost use Rattle.sfx_ids.specs.declared.cut.Cut.TheVariants.{After, End, Start};
ghost use Rattle.sfx_ids.specs.declared.cut.Cut.{Cut};
ghost use Rattle.sfx_ids.specs.declared.item_id.ItemId.{ItemId};
ghost use Rattle.sfx_knowledge.specs.Forgotten.{Forgets, IsForgottenWithinAt};
ghost use Rattle.sfx_knowledge.specs.Knowledge.{HasTicks, IsKnowledge, Known, learned_ticks, tick_at};
ghost use Rattle.sfx_model.specs.sessions.Batch.{batch_from};
ghost use Rattle.sfx_model.specs.sessions.Class.{is_forgotten_within};
ghost use Rattle.sfx_model.specs.sessions.MemberKnowledge.{learned_known};
ghost use Rattle.sfx_model.specs.members.Members.{Member};
ghost use Rattle.sfx_model.specs.sessions.Moments.{Moment, committed};
ghost use Rattle.sfx_model.specs.members.Readings.{items_from};
ghost use Rattle.sfx_model.specs.sessions.Rules.{RulesData};
ghost use Rattle.sfx_model.specs.sessions.Session.{Course, ending, session_from};
ghost use Rattle.sfx_model.specs.sessions.SessionExamples.{destination_of, collision, conflict, created_of, creator, dead_of, deletion, editor, entries_of, entry, first, first_two, five, nth_item, items_after, known_after, live_of, new, other, quiet, ranges_of, receiver, rest_of, revalued, second_collision, skipping, two, unknown_value, nth_version};
ghost use Rattle.sfx_model.specs.declared.apply_end.ApplyEnd.{ApplyEnd};
ghost use Rattle.sfx_model.specs.declared.clash_rule.ClashRule.TheVariants.{Destination, RenameDestination, RenameSource, Skip, Source};
ghost use Rattle.sfx_model.specs.declared.entry_kind.EntryKind.TheVariants.{Deleted, Renamed, Settled, Skipped, Took};
ghost use Rattle.sfx_model.specs.declared.keep.Keep.TheVariants as keeps;
ghost use Rattle.sfx_model.specs.declared.keep.Keep.TheVariants.{Merge};
ghost use Rattle.sfx_model.specs.declared.mark.Mark.TheVariants.{Left, Stamped, Stays, Taken};
ghost use Rattle.sfx_model.specs.declared.mode.Mode.{Mode};
ghost use Rattle.sfx_model.specs.declared.session_end.SessionEnd.TheVariants as session_ends;
ghost use Rattle.sfx_model.specs.declared.session_end.SessionEnd.TheVariants.{Done};

/// Moments that follow others add their committed states. Nothing happens when this function is called.
pub fn moments_join()
    ensures { (group : ℕ) (xs ys : List Moment) →
        committed group (xs ++ ys) ≡ committed group xs ++ committed group ys }
{}

/// Small sessions that meet no conflict. Nothing happens when this function is called.
///
/// `taken`, `learned`: a new item is taken, and the destination then has it and knows what the source
/// knows. `unsent`: nothing is sent to one that knows it. `edited`, `changed`: of an item the unit that
/// changed is taken, and the other stays. `cut`, `cut_end`, `cut_known`: a session that is cut learns the
/// items of its entries alone. `rest`, `rest_known`: the next session sends the others and learns the
/// whole range. `batches`, `batches_end`: in batches of one change each, the second range begins where
/// the first ends.
pub fn sessions_on_examples()
    ensures taken { entries_of (skipping creator new 100 None) ≡ quiet first Took Taken Taken ∷ [] }
    ensures learned { destination_of (skipping creator new 100 None) ≡ receiver }
    ensures unsent { ranges_of (skipping creator (editor (codes "y")) 100 None) ≡ (Start, End, 0) ∷ [] }
    ensures edited { entries_of (skipping (editor (codes "y")) creator 100 None) ≡ quiet first Took Stays Taken ∷ [] }
    ensures changed { items_after (skipping (editor (codes "y")) creator 100 None) ≡
        revalued (nth_version 1 11) (codes "y") ∷ [] }
    ensures cut { entries_of (skipping five new 100 (Some 2)) ≡
        quiet (nth_item 1 10) Took Taken Taken ∷ quiet (nth_item 2 10) Took Taken Taken ∷ [] }
    ensures cut_end { (skipping five new 100 (Some 2)).end ≡ session_ends.Cut }
    ensures cut_known { known_after (skipping five new 100 (Some 2)) ≡ first_two }
    ensures rest { ranges_of rest_of ≡ (Start, End, 3) ∷ [] }
    ensures rest_known { destination_of rest_of ≡ destination_of (skipping five new 100 None) }
    ensures batches { ranges_of (skipping two new 1 None) ≡ (Start, After first, 1) ∷ (After first, End, 1) ∷ [] }
    ensures batches_end { (skipping two new 1 None).end ≡ Done }
{}

/// Small sessions in which both sides changed an item, under each rule: its value on both sides (`source`,
/// `destination`, `merge`, `skip`), or the source deleted it (`deleted`, `kept`, `merged`). Each clause is
/// followed by one on the item afterwards, and under the skip rule on what is known. Nothing happens when
/// this function is called.
pub fn conflicts_on_examples()
    ensures source { entries_of (conflict keeps.Source) ≡ entry first Settled Stays Stamped (Some 2) None [] ∷ [] }
    ensures source_item { items_after (conflict keeps.Source) ≡ revalued (nth_version 2 11) (codes "aa") ∷ [] }
    ensures destination { entries_of (conflict keeps.Destination) ≡
        entry first Settled Stays Stamped (Some 2) None [] ∷ [] }
    ensures destination_item { items_after (conflict keeps.Destination) ≡ revalued (nth_version 2 11) (codes "b") ∷ [] }
    ensures merge_item { items_after (conflict Merge) ≡ revalued (nth_version 2 11) (codes "aa") ∷ [] }
    ensures skip { entries_of (conflict keeps.Skip) ≡ quiet first Skipped Stays Left ∷ [] }
    ensures skip_item { items_after (conflict keeps.Skip) ≡ revalued (nth_version 1 11) (codes "b") ∷ [] }
    ensures skip_known { known_after (conflict keeps.Skip) ≡ unknown_value }
    ensures deleted { entries_of (deletion keeps.Source) ≡ entry first Settled Stamped Stamped (Some 2) None [] ∷ [] }
    ensures deleted_item { items_after (deletion keeps.Source) ≡ dead_of first (nth_version 2 11) ∷ [] }
    ensures kept_item { items_after (deletion keeps.Destination) ≡
        live_of first (nth_version 2 11) (codes "n1") (nth_version 2 11) (codes "b") ∷ [] }
    ensures merged_item { items_after (deletion Merge) ≡
        live_of first (nth_version 2 11) (codes "n1") (nth_version 2 11) (codes "b") ∷ [] }
    ensures left { entries_of (deletion keeps.Skip) ≡ quiet first Skipped Left Left ∷ [] }
{}

/// Small sessions in which an item `dir` comes to a destination that has an item `dir/f`, under each rule,
/// and one in which the first new name is not free. Nothing happens when this function is called.
pub fn clashes_on_examples()
    ensures rename_source { entries_of (collision RenameSource) ≡
        entry first Renamed Stamped Taken (Some 2) (Some (codes "dir~1")) [] ∷ [] }
    ensures source { entries_of (collision Source) ≡
        entry first Took Taken Taken None None (other (nth_item 1 11) 2 None ∷ []) ∷ [] }
    ensures source_items { items_after (collision Source) ≡
        created_of 1 10 (codes "dir") ∷ dead_of (nth_item 1 11) (nth_version 2 11) ∷ [] }
    ensures destination { entries_of (collision Destination) ≡
        entry first Deleted Stamped Stamped (Some 2) None [] ∷ [] }
    ensures destination_items { items_after (collision Destination) ≡
        dead_of first (nth_version 2 11) ∷ created_of 1 11 (codes "dir/f") ∷ [] }
    ensures rename_destination { entries_of (collision RenameDestination) ≡
        entry first Took Taken Taken None None (other (nth_item 1 11) 2 (Some (codes "dir~1/f")) ∷ []) ∷ [] }
    ensures rename_items { items_after (collision RenameDestination) ≡
        created_of 1 10 (codes "dir") ∷ live_of (nth_item 1 11) (nth_version 2 11) (codes "dir~1/f") (nth_version 1 11)
        (codes "x") ∷ [] }
    ensures skip { entries_of (collision Skip) ≡ quiet first Skipped Left Left ∷ [] }
    ensures taken_name { entries_of second_collision ≡
        entry first Renamed Stamped Taken (Some 3) (Some (codes "dir~2")) [] ∷ [] }
{}

/// A session takes at most as many batches as its source has items, and one more: the bound of its
/// recursion is never met. Nothing happens when this function is called.
///
/// `fewer`: where a batch does not end the session, fewer items of the source are behind its range than
/// were behind its first place. `enough`: any two bounds that are as great as the number of these items
/// give the same session.
pub fn batches_are_bounded()
    ensures fewer { (units : ℕ) (source : Member) (mode : Mode) (size : ℕ) (known : Known) (from : Cut)
        (end : ApplyEnd) (budget : Option ℕ) →
        ending (batch_from units source mode size known from).to end budget ≡ None →
        length (items_from (batch_from units source mode size known from).to source.items) < length
        (items_from from source.items) }
    ensures enough { (n k units : ℕ) (source : Member) (mode : Mode) (rules : RulesData) (size : ℕ) (c : Course)
        (from : Cut) →
        length (items_from from source.items) ≤ n → length (items_from from source.items) ≤ k →
        session_from (n + 1) units source mode rules size c from ≡
        session_from (k + 1) units source mode rules size c from }
{}

/// What is known and forgotten, as functions that compute it. Nothing happens when this function is called.
///
/// `within`: whether forgotten deletions are within the knowledge of an item. `learned`: knowledge that is
/// learned is in its one form, and has the learned ticks.
pub fn knowledge_is_decided()
    ensures within { (units : ℕ) (forgotten : Forgets) (known : Known) (i : ItemId) →
        IsTrue (is_forgotten_within units forgotten known i) ↔ IsForgottenWithinAt units forgotten known i }
    ensures learned { (units : ℕ) (lo hi : Cut) (skipped : List (ItemId × ℕ)) (here there : Known) →
        1 ≤ units → IsKnowledge units here → IsKnowledge units there →
        IsKnowledge units (learned_known units lo hi skipped here there)
        × HasTicks units (learned_known units lo hi skipped here there)
        (learned_ticks lo hi skipped (tick_at here) (tick_at there)) }
{}
