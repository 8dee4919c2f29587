ghost use Rattle.std.specs.Prelude.{◌≡◌};

/// How a replica is kept.
#[derive(Clone, Copy, Debug, PartialEq, Eq)]
pub enum Kind {
    /// As a record of its state alone.
    Record,
    /// With a folder of files, one for each of its live items.
    Files,
}
