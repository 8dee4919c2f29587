ghost use Rattle.std.specs.Prelude.{◌≡◌, ℕ, ◌<◌, ◌≤◌, Option, List, length, take, drop, IfOk, OnErr};
ghost use Rattle.sfx_outside.specs.Fault.{HasRisen};
ghost use Rattle.sfx_outside.specs.Source.{Takes, IsAtEnd};

use crate::Failed;

/// Where bytes come from. A source may tell, to proofs alone, which bytes it has left; it counts its
/// faults, up to the greatest `u64`.
pub trait Source {
    // The bytes that reads give from here on, where the source tells them.
    ghost left: { Self → Option (List ℕ) };

    // How many reads have failed.
    ghost faults: { Self → ℕ };

    /// Reads the next bytes into the prefix of `into` and says how many they are. For a slice that is
    /// not empty, 0 is the end: nothing is left.
    ///
    /// # Errors
    /// `Failed`, only where the count of faults rose; nothing was taken then.
    fn read(&mut self, into: &mut [u8]) -> Result<usize, Failed>
        ensures count { IfOk result (λ n. n ≤ length into.old) }
        ensures taken { IfOk result (λ n. Takes (left self.old) (left self.new) (take n into.new)) }
        ensures rest { IfOk result (λ n. drop n into.new ≡ drop n into.old) }
        ensures end { IfOk result (λ n. n ≡ 0 → 0 < length into.old → IsAtEnd (left self.new)) }
        ensures err { OnErr result (left self.new ≡ left self.old) }
        ensures faults { faults self.old ≤ faults self.new }
        ensures cause { OnErr result (HasRisen (faults self.old) (faults self.new)) };
}
