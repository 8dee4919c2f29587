ghost use Rattle.std.specs.Prelude.{ℕ};
ghost use Rattle.sfx_ids.specs.declared.cut.Cut.{Cut};
ghost use Rattle.sfx_knowledge.specs.Forgotten.{AreForgets};
ghost use Rattle.sfx_knowledge.specs.Knowledge.{Known};
ghost use Rattle.sfx_model.specs.sessions.Batch.{IsBatch, batch_from};
ghost use Rattle.sfx_model.specs.members.Consistent.{IsConsistent};
ghost use Rattle.sfx_model.specs.members.Members.{Member};
ghost use Rattle.sfx_model.specs.declared.mode.Mode.{Mode};
ghost use Rattle.sfx_segments.specs.Segments.{IsPlace};

/// The batch that is due from a place, of a consistent source whose forgotten deletions are in their form,
/// is a right one. Nothing happens when this function is called.
pub fn due_batches_are_right()
    ensures { (units size : ℕ) (source : Member) (mode : Mode) (known : Known) (from : Cut) →
        IsConsistent units source → AreForgets source.forgotten → IsPlace from →
        IsBatch units (batch_from units source mode size known from) }
{}
