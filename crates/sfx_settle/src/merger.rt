ghost use Rattle.std.specs.Prelude.{◌≡◌, ℕ, List, IfOk};
ghost use Rattle.sfx_item.specs.Name.{IsName};

use sfx_ids::Memory;
use sfx_item::Value;
use std::alloc::Global;

/// A way to make one value of two, of which neither side knew the other's.
pub trait Merger {
    ghost meaning: { Self → ℕ → List ℕ → List ℕ → List ℕ };

    /// What the unit gets in place of the source's and the destination's values. Of two names it is a name.
    ///
    /// # Errors
    /// `Memory`.
    fn merge(
        &self,
        alloc: Global,
        unit: usize,
        source: &Value,
        destination: &Value,
    ) -> Result<Value, Memory>
        ensures value { IfOk result (λ made. made ≡ meaning self.now unit source.now destination.now) }
        ensures name { IfOk result (λ made. IsName source.now → IsName destination.now → IsName made) };
}
