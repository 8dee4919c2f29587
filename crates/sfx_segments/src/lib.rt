//! Total maps from places to values, each in its one form.
#![tactic(auto)]

pub use combine::Combine;
pub use laws::segments_are_their_values;
pub use segments::Segments;

mod combine;
mod join;
mod laws;
mod merge;
mod segments;
