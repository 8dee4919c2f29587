use std::error::Error;
use std::fmt;

/// The outside failed: a read could not be made. What was left is as before.
#[derive(Clone, Copy, Debug, PartialEq, Eq)]
pub struct Failed;

impl fmt::Display for Failed {
    fn fmt<W: fmt::Write>(&self, f: &mut fmt::Formatter<W>) -> fmt::Result {
        f.write_str("a read failed")
    }
}

impl Error for Failed {}
