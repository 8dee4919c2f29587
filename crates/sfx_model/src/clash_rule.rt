ghost use Rattle.std.specs.Prelude.{◌≡◌};

/// What becomes of an incoming item whose name clashes with names of other items at the destination.
#[derive(Clone, Copy, Debug, PartialEq, Eq)]
pub enum ClashRule {
    /// The incoming item comes, and each item that it clashes with is deleted.
    Source,
    /// The items of the destination stay, and the incoming item is deleted.
    Destination,
    /// The incoming item comes under a new name that clashes with none.
    RenameSource,
    /// The incoming item comes, and each item that it clashes with gets a new name that clashes with none.
    RenameDestination,
    /// The incoming item is left out, and the destination goes on not knowing it, so that it comes again
    /// with the next session.
    Skip,
}
