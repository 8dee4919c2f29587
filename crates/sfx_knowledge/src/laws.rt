ghost use Rattle.std.specs.Prelude.{◌≡◌, ◌≤◌, ◌<◌, ◌^◌, ℕ, List};
ghost use Rattle.sfx_ids.specs.Tick.{max_tick};
ghost use Rattle.sfx_ids.specs.declared.cut.Cut.{Cut};
ghost use Rattle.sfx_ids.specs.declared.item_id.ItemId.{ItemId};
ghost use Rattle.sfx_vector.specs.Clocks.{tick_of};
ghost use Rattle.sfx_segments.specs.Segments.{IsPlace};
ghost use Rattle.sfx_knowledge.specs.Row.{UnitRowData, row_at, IsClockRow};
ghost use Rattle.sfx_knowledge.specs.Knowledge.{Known, Ticks, IsKnowledge, HasTicks, KnowAlike, tick_at, laid_over, nothing_known};
ghost use Rattle.sfx_knowledge.specs.Skips.{is_skipped, AreSkips};
ghost use Rattle.sfx_knowledge.specs.Forgotten.{Forgets, AreForgets, fvec, nothing_forgotten};
ghost use Rattle.sfx_knowledge.specs.Forms.{AreTicks, ChangeAtAlone, knowledge_of, with_own};

/// Knowledge is determined by its vectors: two pieces of knowledge that agree at every place and unit are
/// equal, and so are two rows that have the same ticks at every unit.
pub fn knowledge_is_its_vectors()
    ensures one_form { (units : ℕ) (a b : Known) → 1 ≤ units → IsKnowledge units a → IsKnowledge units b →
        KnowAlike units a b → a ≡ b }
    ensures rows { (units : ℕ) (a b : UnitRowData) → 1 ≤ units → IsClockRow units a → IsClockRow units b →
        ((u r : ℕ) → u < units → tick_of (row_at a u) r ≡ tick_of (row_at b u) r) → a ≡ b }
    ensures nothing { (units : ℕ) → IsKnowledge units nothing_known }
{}

/// Knowledge that is made of ticks has them and is in its one form, where they are a clock vector's and
/// change at the listed cuts alone. So it is where a replica's own tick is laid over knowledge.
pub fn knowledge_of_ticks()
    ensures form { (units : ℕ) (cuts : List Cut) (replicas : List ℕ) (ticks : Ticks) → 1 ≤ units →
        AreTicks units replicas ticks → ChangeAtAlone units cuts ticks →
        IsKnowledge units (knowledge_of units cuts replicas ticks) }
    ensures ticks { (units : ℕ) (cuts : List Cut) (replicas : List ℕ) (ticks : Ticks) →
        AreTicks units replicas ticks → ChangeAtAlone units cuts ticks →
        HasTicks units (knowledge_of units cuts replicas ticks) ticks }
    ensures own { (units own tick : ℕ) (known : Known) → IsKnowledge units known → tick ≤ max_tick → own < 2 ^ 128 →
        IsKnowledge units (with_own units own tick known)
        × HasTicks units (with_own units own tick known) (laid_over own tick (tick_at known)) }
{}

/// Forgotten deletions are determined by their vectors, and lists of skipped units by their members.
pub fn lists_are_their_members()
    ensures forgotten { (a b : Forgets) → AreForgets a → AreForgets b →
        ((place : Cut) → IsPlace place → fvec a place ≡ fvec b place) → a ≡ b }
    ensures nothing { (place : Cut) (r : ℕ) → tick_of (fvec nothing_forgotten place) r ≡ 0 }
    ensures skips { (units : ℕ) (a b : List (ItemId × ℕ)) → AreSkips units a → AreSkips units b →
        ((i : ItemId) (u : ℕ) → is_skipped a i u ≡ is_skipped b i u) → a ≡ b }
{}
