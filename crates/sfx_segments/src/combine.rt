ghost use Rattle.std.specs.Prelude.{◌≡◌, IfOk};

use sfx_ids::Memory;
use std::alloc::Global;

/// A way to make one value of two, whose meaning is a function.
pub trait Combine<T> {
    ghost meaning: { Self → T → T → T };

    /// The value made of both.
    fn combine(&self, alloc: Global, a: &T, b: &T) -> Result<T, Memory>
        ensures { IfOk result (λ made. made ≡ meaning self.now a.now b.now) };
}
