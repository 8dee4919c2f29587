ghost use Rattle.std.specs.Prelude.{◌≡◌};

/// What becomes of a change unit that both sides changed, neither knowing of the other's change.
#[derive(Clone, Copy, Debug, PartialEq, Eq)]
pub enum Keep {
    /// The source's content is kept.
    Source,
    /// The destination's content is kept.
    Destination,
    /// Both contents are merged into one. Of a change and a deletion the change is kept.
    Merge,
    /// The destination stays as it is, and goes on not knowing the source's change, so that it comes
    /// again with the next session.
    Skip,
}
