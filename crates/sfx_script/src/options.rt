ghost use Rattle.std.specs.Prelude.{◌≡◌, None, false};

/// The options of a session.
#[derive(Clone, Copy, Debug, PartialEq, Eq)]
pub struct Options {
    /// How many entries a batch has at most, 1 to 10,000.
    pub batch: u64,
    /// How many entries are committed together at most, 1 to 10,000.
    pub group: u64,
    /// After how many entries the session is cut, 1 to 1,000,000,000, if at all.
    pub cut: Option<u64>,
    /// Whether the bytes of each batch are shown.
    pub trace: bool,
}

impl Default for Options {
    /// Batches of 100 entries, each entry committed by itself, no cut and no trace.
    fn default() -> Self
        ensures { result ≡ record { batch = 100; group = 1; cut = None; trace = false } }
    {
        Options {
            batch: 100,
            group: 1,
            cut: None,
            trace: false,
        }
    }
}
