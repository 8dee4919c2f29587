ghost use Rattle.std.specs.Prelude.{◌≡◌, ℕ, ◌<◌, ◌^◌};

use std::marker::Model;

/// The id of a replica: the 128 bits of a UUID (RFC 9562) as a number.
#[derive(Clone, Copy, Debug, PartialEq, Eq, PartialOrd, Ord)]
pub struct ReplicaId {
    number: u128,
}

impl Model for ReplicaId {
    ghost Value = { ℕ };

    ghost view = { λ r. r.number };

    ghost invariant = { λ r. r.number < 2 ^ 128 };

    ghost inverse = { λ n. record { number = n } };
}

impl ReplicaId {
    /// The replica with this number.
    pub fn new(number: u128) -> Self
        ensures { result ≡ number }
    {
        ReplicaId { number }
    }

    /// The 128 bits as a number, the first byte of the UUID highest.
    pub fn number(&self) -> u128
        ensures value { result ≡ self.now }
        ensures fits { self.now < 2 ^ 128 }
    {
        self.number
    }
}
