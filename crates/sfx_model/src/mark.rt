ghost use Rattle.std.specs.Prelude.{◌≡◌};

/// What an entry does with one unit of its item.
#[derive(Clone, Copy, Debug, PartialEq, Eq)]
pub enum Mark {
    /// The unit stays as the destination has it.
    Stays,
    /// The unit gets the source's value at the source's version.
    Taken,
    /// The unit gets a content at a fresh version of the destination.
    Stamped,
    /// The unit stays as it is, and what the source knows of it is not learned.
    Left,
    /// The unit goes with its item.
    Gone,
}
