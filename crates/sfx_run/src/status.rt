ghost use Rattle.std.specs.Prelude.{◌≡◌};
ghost use Rattle.sfx_run.specs.Status.{status_number};

/// How a run ended.
#[derive(Clone, Copy, Debug, PartialEq, Eq)]
pub enum Status {
    /// Every line was answered, and none refused.
    Done,
    /// Every line was answered, and some were refused.
    Refused,
    /// The words are no command.
    Usage,
    /// The input failed.
    SourceFault,
    /// The output failed.
    SinkFault,
    /// The input is longer than `MAX_INPUT` bytes.
    TooLong,
    /// Memory ran out.
    Memory,
}

impl Status {
    /// The number with which the process ends.
    pub fn number(self) -> u8
        ensures { result ≡ status_number self }
    {
        match self {
            Status::Done => 0,
            Status::Refused => 1,
            Status::Usage => 2,
            Status::SourceFault => 3,
            Status::SinkFault => 4,
            Status::TooLong => 7,
            Status::Memory => 8,
        }
    }

    /// The line that tells of a fault on standard error.
    pub fn message(self) -> Option<&'static str> {
        match self {
            Status::Done | Status::Refused => None,
            Status::Usage => Some("syncfx: use play, do, check or make"),
            Status::SourceFault => Some("syncfx: input failed"),
            Status::SinkFault => Some("syncfx: output failed"),
            Status::TooLong => Some("syncfx: input too long"),
            Status::Memory => Some("syncfx: out of memory"),
        }
    }
}
