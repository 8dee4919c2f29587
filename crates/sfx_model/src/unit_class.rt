ghost use Rattle.std.specs.Prelude.{◌≡◌};

/// What a change is at one unit of an item that is live on both sides.
#[derive(Clone, Copy, Debug, PartialEq, Eq)]
pub enum UnitClass {
    /// The destination knows the unit's version already.
    Known,
    /// The source knew the destination's version of the unit.
    Newer,
    /// Neither side knows the other's version of the unit.
    Concurrent,
}
