ghost use Rattle.std.specs.Prelude.{◌≡◌};

/// What an entry did, in one word.
#[derive(Clone, Copy, Debug, PartialEq, Eq)]
pub enum EntryKind {
    /// Nothing: the destination knew the change.
    Known,
    /// A unit was taken from the source, and none got a fresh version.
    Took,
    /// A unit got a fresh version.
    Settled,
    /// A unit was left out, and the others stayed.
    Skipped,
    /// The item went.
    Dropped,
    /// The incoming item got a new name.
    Renamed,
    /// The incoming item was deleted for a clash of names.
    Deleted,
}
