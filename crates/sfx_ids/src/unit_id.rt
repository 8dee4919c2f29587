ghost use Rattle.std.specs.Prelude.{◌≡◌, ℕ, ◌<◌, ◌↔◌, IsSome, IfSome};

use std::marker::Model;

/// A change unit of items that have `U` of them: a number below `U`.
#[derive(Clone, Copy, Debug, PartialEq, Eq, PartialOrd, Ord)]
pub struct UnitId<const U: usize> {
    index: usize,
}

impl<const U: usize> Model for UnitId<U> {
    ghost Value = { ℕ };

    ghost view = { λ u. u.index };

    ghost invariant = { λ u. u.index < U };

    ghost inverse = { λ n. record { index = n } };
}

impl<const U: usize> UnitId<U> {
    /// The unit with this number, or `None` where there is none.
    pub fn new(index: usize) -> Option<Self>
        ensures valid { IsSome result ↔ (index < U) }
        ensures value { IfSome result (λ unit. unit ≡ index) }
    {
        if index < U {
            Some(UnitId { index })
        } else {
            None
        }
    }

    /// The unit's number, from 0 on.
    pub fn get(&self) -> usize
        ensures value { result ≡ self.now }
        ensures valid { self.now < U }
    {
        self.index
    }
}
