ghost use Rattle.std.specs.Prelude.{◌≡◌, ℕ, ◌≤◌, ◌↔◌, IsSome, IfSome};
ghost use Rattle.sfx_ids.specs.Tick.{IsTick, max_tick};

use std::marker::Model;

/// The greatest tick of a replica's clock, 2^63 - 1.
pub const MAX_TICK: u64 = 9223372036854775807;

/// A tick of a replica's clock: 1 to `MAX_TICK`.
#[derive(Clone, Copy, Debug, PartialEq, Eq, PartialOrd, Ord)]
pub struct Tick {
    count: u64,
}

impl Model for Tick {
    ghost Value = { ℕ };

    ghost view = { λ t. t.count };

    ghost invariant = { λ t. IsTick t.count };

    ghost inverse = { λ n. record { count = n } };
}

impl Tick {
    /// The tick with this number, or `None` where no tick has it.
    pub fn new(count: u64) -> Option<Self>
        ensures valid { IsSome result ↔ IsTick count }
        ensures value { IfSome result (λ tick. tick ≡ count) }
    {
        if (1..=MAX_TICK).contains(&count) {
            Some(Tick { count })
        } else {
            None
        }
    }

    /// The tick as a number.
    pub fn get(&self) -> u64
        ensures value { result ≡ self.now }
        ensures valid { IsTick self.now }
    {
        self.count
    }
}
