ghost use Rattle.std.specs.Prelude.{◌≡◌};

/// How the applying of a batch ended.
#[derive(Clone, Copy, Debug, PartialEq, Eq)]
pub enum ApplyEnd {
    /// Each entry was applied, and the batch's range was learned.
    Whole,
    /// As many entries as were asked for were applied, and more remain.
    Cut,
    /// The clock has this tick, and fewer are left than the next entry needs.
    Full(u64),
}
