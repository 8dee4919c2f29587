ghost use Rattle.std.specs.Prelude.{◌≡◌};

/// What becomes of an item of the destination that the source does not list.
#[derive(Clone, Copy, Debug, PartialEq, Eq)]
pub enum Absent {
    /// It stays: the source never had it, or the destination knew already what the source forgot.
    Keep,
    /// It goes: the source knew its versions and cleaned their deletion away.
    Drop,
    /// The source cleaned a deletion away that did not know the destination's versions.
    Conflict,
}
