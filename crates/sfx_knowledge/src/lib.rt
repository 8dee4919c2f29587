//! What a replica knows: a clock vector for each place and change unit.
#![tactic(auto)]

pub use forgotten::Forgotten;
pub use knowledge::Knowledge;
pub use laws::{knowledge_is_its_vectors, knowledge_of_ticks, lists_are_their_members};
pub use skips::Skips;
pub use unit_row::UnitRow;

mod facts;
mod forgotten;
mod knowledge;
mod laws;
mod rows;
mod skips;
mod unit_row;
mod vectors;
