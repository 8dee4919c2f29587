ghost use Rattle.std.specs.Prelude.{◌≡◌, if◌then◌else◌, IfOk};

use crate::Combine;
use sfx_ids::{Memory, Part};
use std::alloc::Global;

/// A way to make a value of one type from values of two others, whose meaning is a function.
pub trait Join<A, B, C> {
    ghost meaning: { Self → A → B → C };

    /// The value made of both.
    fn join(&self, alloc: Global, a: &A, b: &B) -> Result<C, Memory>
        ensures { IfOk result (λ made. made ≡ meaning self.now a.now b.now) };
}

/// Values combined.
#[derive(Drop)]
pub struct Combined<'a, H> {
    pub how: &'a H,
}

impl<T, H: Combine<T>> Join<T, T, T> for Combined<'_, H> {
    ghost meaning = { λ c. H.meaning c.how.now };

    fn join(&self, alloc: Global, a: &T, b: &T) -> Result<T, Memory> {
        self.how.combine(alloc, a, b)
    }
}

/// One value laid over others, where a mark says so.
#[derive(Drop)]
pub struct Overlay<'a, T> {
    pub value: &'a T,
}

impl<T: Part> Join<T, bool, T> for Overlay<'_, T> {
    ghost meaning = { λ o old marked. (if marked then o.value.now else old) };

    fn join(&self, alloc: Global, a: &T, b: &bool) -> Result<T, Memory> {
        if *b {
            self.value.copy(alloc)
        } else {
            a.copy(alloc)
        }
    }
}
