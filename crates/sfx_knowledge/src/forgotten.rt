ghost use Rattle.std.specs.Prelude.{◌≡◌, ◌↔◌, IsTrue, IfOk, OnOk, OnErr};
ghost use Rattle.sfx_ids.specs.declared.cut.Cut.{Cut};
ghost use Rattle.sfx_segments.specs.Segments.{IsPlace};
ghost use Rattle.sfx_knowledge.specs.Forgotten.{AreForgets, Forgot, ForgotBoth, IsForgottenWithin, IsForgottenWithinAt, fvec, nothing_forgotten};

use crate::Knowledge;
use crate::facts::vector_in_form;
use sfx_ids::{Cut, ItemId, Memory, Version};
use sfx_vector::ClockVector;
use std::alloc::Global;
use std::marker::Model;

/// The deletions that a replica has forgotten, as a clock vector: the version of a deletion may be forgotten
/// where the vector contains it.
#[derive(Drop)]
pub struct Forgotten {
    vector: ClockVector,
}

impl Model for Forgotten {
    ghost use Rattle.std.specs.Prelude.{◌∷◌, []};
    ghost use Rattle.sfx_ids.specs.declared.cut.Cut.TheVariants.{Start};
    ghost use Rattle.sfx_knowledge.specs.Forgotten.{Forgets};

    ghost Value = { Forgets };

    ghost view = { λ f. (Start, f.vector) ∷ [] };
}

impl Forgotten {
    /// No deletion forgotten. Takes no memory.
    pub fn none(alloc: Global) -> Forgotten
        ensures { result ≡ nothing_forgotten }
    {
        Forgotten {
            vector: ClockVector::new(alloc),
        }
    }

    /// Forgets the version of a deletion. The one error is running out of memory, and then all stays as it was.
    pub fn forget(&mut self, v: &Version) -> Result<(), Memory>
        ensures ok { OnOk result (Forgot self.old self.new v.now) }
        ensures err { OnErr result (self.new ≡ self.old) }
        ensures form { AreForgets self.new }
    {
        vector_in_form(&self.vector);
        self.vector.raise(v)?;
        vector_in_form(&self.vector);
        Ok(())
    }

    /// Forgets what the other has forgotten. The one error is running out of memory, and then all stays as it was.
    pub fn join(&mut self, other: &Forgotten) -> Result<(), Memory>
        ensures ok { OnOk result (ForgotBoth self.old other.now self.new) }
        ensures err { OnErr result (self.new ≡ self.old) }
        ensures form { AreForgets self.new }
    {
        vector_in_form(&self.vector);
        self.vector.join(&other.vector)?;
        vector_in_form(&self.vector);
        Ok(())
    }

    /// The forgotten deletions, which are those of every place.
    pub fn vector(&self) -> &ClockVector
        ensures value { (place : Cut) → IsPlace place → fvec self.now place ≡ result.now }
        ensures form { AreForgets self.now }
    {
        vector_in_form(&self.vector);
        &self.vector
    }

    /// Whether the forgotten deletions are within the knowledge at every place and unit.
    pub fn within<const U: usize>(&self, k: &Knowledge<U>) -> bool
        ensures value { IsTrue result ↔ IsForgottenWithin U self.now k.now }
        ensures form { AreForgets self.now }
    {
        vector_in_form(&self.vector);
        k.contain_everywhere(&self.vector)
    }

    /// Whether the forgotten deletions are within the knowledge of the item, at every unit.
    pub fn within_item<const U: usize>(&self, k: &Knowledge<U>, id: &ItemId) -> bool
        ensures value { IsTrue result ↔ IsForgottenWithinAt U self.now k.now id.now }
        ensures form { AreForgets self.now }
    {
        vector_in_form(&self.vector);
        k.segments().get(&Cut::At(*id)).contain(&self.vector)
    }

    /// Equal forgotten deletions of their own memory. The one error is running out of memory.
    pub fn copy(&self, alloc: Global) -> Result<Forgotten, Memory>
        ensures { IfOk result (λ copied. copied ≡ self.now) }
    {
        Ok(Forgotten {
            vector: self.vector.copy(alloc)?,
        })
    }
}
