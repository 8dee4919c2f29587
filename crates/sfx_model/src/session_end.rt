ghost use Rattle.std.specs.Prelude.{◌≡◌};

/// How a session ended.
#[derive(Clone, Copy, Debug, PartialEq, Eq)]
pub enum SessionEnd {
    /// The last batch was applied whole.
    Done,
    /// As many entries as were asked for were applied, and more remain.
    Cut,
    /// The destination's clock has this tick, and fewer are left than the next entry needs.
    Full(u64),
}
