//! The lines of a script, and how values and clock vectors are printed.
#![tactic(auto)]

pub use laws::{lines_are_right, values_read_back};
pub use line::Line;
pub use line_fault::LineFault;
pub use options::Options;
pub use parsing::parse_line;
pub use printed::{write_value, write_vector};
pub use values::Values;

mod kind;
mod laws;
mod line;
mod line_fault;
mod line_words;
mod options;
mod parsing;
mod printed;
mod value_word;
mod values;
mod word;
mod words;
