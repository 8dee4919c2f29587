ghost use Rattle.std.specs.Prelude.{◌≡◌, ℕ};
ghost use Rattle.sfx_vector.specs.Clocks.{Clocks, AreClocks, tick_of};

/// Two clock vectors that have the same tick for every replica are the same list.
pub fn ticks_tell_apart()
    ensures { (a b : Clocks) → AreClocks a → AreClocks b → ((r : ℕ) → tick_of a r ≡ tick_of b r) → a ≡ b }
{}
