ghost use Rattle.std.specs.Prelude.{◌≡◌, ◌↔◌, IsTrue, IfOk};

use crate::Memory;
use std::alloc::Global;

/// A value that is held at many places, so that it is compared and copied.
pub trait Part: Drop {
    /// Whether both are one value, as contracts see them.
    fn same(&self, other: &Self) -> bool
        ensures { IsTrue result ↔ (self.now ≡ other.now) };

    /// An equal value in memory of its own, or `Memory` where that runs out.
    fn copy(&self, alloc: Global) -> Result<Self, Memory>
        ensures { IfOk result (λ copied. copied ≡ self.now) };
}
