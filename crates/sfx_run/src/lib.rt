//! The run of the program: the command that its words make, its input and output, and how it ended.
#![tactic(auto)]

pub use command::{MAX_INPUT, run};
pub use lines::play;
pub use status::Status;

mod command;
mod lines;
mod status;
