ghost use Rattle.std.specs.Prelude.{◌≡◌, ℕ, ◌<◌, ◌≤◌, ◌^◌, List};
ghost use Rattle.sfx_ids.specs.declared.cut.Cut.{Cut};
ghost use Rattle.sfx_ids.specs.declared.cut.Cut.TheVariants.{Start, At, After, End};
ghost use Rattle.sfx_ids.specs.declared.item_id.ItemId.{ItemId};
ghost use Rattle.sfx_vector.specs.Clocks.{tick_of};
ghost use Rattle.sfx_knowledge.specs.Forgotten.{AreForgets, Forgets, ForgotBoth, fvec};
ghost use Rattle.sfx_knowledge.specs.Knowledge.{HasTicks, IsKnowledge, Known, Ticks, laid_over, learned_ticks, tick_at};
ghost use Rattle.sfx_knowledge.specs.Skips.{is_skipped};
ghost use Rattle.sfx_model.specs.world.Events.{UnitMark};
ghost use Rattle.sfx_model.specs.sessions.MemberKnowledge.{joined_forgets, stored_known};
ghost use Rattle.sfx_model.specs.members.Members.{Member, shown, vector_at};
ghost use Rattle.sfx_model.specs.members.Results.{ForgetResult, LearnResult, SameVectors, SkipsLeft, joined_at};

/// What the lists of a member that learned owe, in the words of what an event owes of the member, as a
/// law. It does nothing when called.
///
/// A list that learned, and over which the replica's own tick was then laid, has the ticks of learning
/// with that tick laid over (`ticks`), also where the own clock was laid over what learned (`laid`).
/// The member m becomes n, which stores what m stored and learned, but for its own entry: at one item,
/// with the units skipped that an entry leaves alone, its vectors are those that the entry owes
/// (`item`); in a range it is what a learned range owes (`range`). Forgotten deletions joined at every
/// place are what such a join owes (`forgot`). There is one list in its form that has the ticks of what is
/// stored then (`known`, and `form` and `stored` of that very list), and so there is one of forgotten
/// deletions joined with others (`forgets`, and `forgets_form` and `joined` of that very list).
pub fn results_follow()
    ensures ticks { (units own tick : ℕ) (lo hi : Cut) (skipped : List (ItemId × ℕ)) (here there : Ticks)
        (k n : Known) →
        HasTicks units k (learned_ticks lo hi skipped here there) →
        HasTicks units n (laid_over own tick (tick_at k)) →
        HasTicks units n (laid_over own tick (learned_ticks lo hi skipped here there)) }
    ensures laid { (units own clock tick : ℕ) (lo hi : Cut) (skipped : List (ItemId × ℕ)) (here there : Ticks)
        (k n : Known) →
        HasTicks units k (learned_ticks lo hi skipped (laid_over own clock here) there) →
        HasTicks units n (laid_over own tick (tick_at k)) →
        HasTicks units n (laid_over own tick (learned_ticks lo hi skipped here there)) }
    ensures item { (units : ℕ) (m n : Member) (i : ItemId) (marks : ℕ → UnitMark) (skipped : List (ItemId × ℕ))
        (there : Ticks) →
        n.id ≡ m.id → SkipsLeft units i marks skipped →
        HasTicks units n.knowledge (laid_over m.id 0 (learned_ticks (At i) (After i) skipped (tick_at m.knowledge) there)) →
        SameVectors units (vector_at n) (laid_over n.id n.clock (joined_at i marks (vector_at m) there)) }
    ensures range { (units : ℕ) (m n : Member) (lo hi : Cut) (skipped : List (ItemId × ℕ)) (there : Ticks) →
        n.id ≡ m.id → n.clock ≡ m.clock → n.forgotten ≡ m.forgotten → n.items ≡ m.items →
        HasTicks units n.knowledge (laid_over m.id 0 (learned_ticks lo hi skipped (tick_at m.knowledge) there)) →
        LearnResult units lo hi (is_skipped skipped) there (shown m) (shown n) }
    ensures forgot { (units : ℕ) (m n : Member) (other : Forgets) →
        n.id ≡ m.id → n.clock ≡ m.clock → n.knowledge ≡ m.knowledge → n.items ≡ m.items →
        ForgotBoth m.forgotten other n.forgotten →
        ForgetResult units (λ place r. tick_of (fvec other place) r) Start End (shown m) (shown n) }
    ensures form { (units own : ℕ) (lo hi : Cut) (skipped : List (ItemId × ℕ)) (here there : Known) →
        1 ≤ units → own < 2 ^ 128 → IsKnowledge units here → IsKnowledge units there →
        IsKnowledge units (stored_known units own lo hi skipped here there) }
    ensures stored { (units own : ℕ) (lo hi : Cut) (skipped : List (ItemId × ℕ)) (here there : Known) →
        1 ≤ units → own < 2 ^ 128 → IsKnowledge units here → IsKnowledge units there →
        HasTicks units (stored_known units own lo hi skipped here there)
        (laid_over own 0 (learned_ticks lo hi skipped (tick_at here) (tick_at there))) }
    ensures known { (units own : ℕ) (lo hi : Cut) (skipped : List (ItemId × ℕ)) (here there known : Known) →
        1 ≤ units → own < 2 ^ 128 → IsKnowledge units here → IsKnowledge units there → IsKnowledge units known →
        HasTicks units known (laid_over own 0 (learned_ticks lo hi skipped (tick_at here) (tick_at there))) →
        known ≡ stored_known units own lo hi skipped here there }
    ensures forgets_form { (a b : Forgets) → AreForgets a → AreForgets b → AreForgets (joined_forgets a b) }
    ensures joined { (a b : Forgets) → AreForgets a → AreForgets b → ForgotBoth a b (joined_forgets a b) }
    ensures forgets { (a b both : Forgets) →
        AreForgets a → AreForgets b → AreForgets both → ForgotBoth a b both → both ≡ joined_forgets a b }
{}
