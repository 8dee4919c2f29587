ghost use Rattle.std.specs.Prelude.{◌≡◌};

/// How a session goes about the items that the source does not have.
#[derive(Clone, Copy, Debug, PartialEq, Eq)]
pub enum Mode {
    /// The destination knows all that the source forgot, so an item that is not sent stays.
    Normal,
    /// The source forgot deletions that the destination does not know, so each batch lists the items that
    /// the source has.
    Recover,
}
