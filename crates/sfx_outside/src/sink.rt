ghost use Rattle.std.specs.Prelude.{◌≡◌, ℕ, ◌<◌, ◌≤◌, Option, List, length, take, IfOk, OnErr, IsErrOf};
ghost use Rattle.sfx_outside.specs.Fault.{HasRisen};
ghost use Rattle.sfx_outside.specs.Sink.{Adds, AddsPrefix};

use crate::SinkFault;

/// Where bytes go. A sink may tell, to proofs alone, which bytes it holds; it counts its faults, up
/// to the greatest `u64`.
pub trait Sink {
    // The bytes that the sink holds, where it tells them.
    ghost held: { Self → Option (List ℕ) };

    // How many writes have failed.
    ghost faults: { Self → ℕ };

    /// Takes a prefix of `piece`, and says how many bytes that is: at least one, unless the piece is
    /// empty.
    ///
    /// # Errors
    /// `Failed`, only where the count of faults rose, and `Memory`. In both cases a prefix of the
    /// piece may have been taken, perhaps nothing.
    fn write(&mut self, piece: &[u8]) -> Result<usize, SinkFault>
        ensures count { IfOk result (λ n. n ≤ length piece.now) }
        ensures progress { IfOk result (λ n. 0 < length piece.now → 0 < n) }
        ensures added { IfOk result (λ n. Adds (held self.old) (held self.new) (take n piece.now)) }
        ensures err { OnErr result (AddsPrefix (held self.old) (held self.new) piece.now) }
        ensures faults { faults self.old ≤ faults self.new }
        ensures cause { IsErrOf result SinkFault.Failed → HasRisen (faults self.old) (faults self.new) };
}
