//! Applying a batch to a destination, entry by entry.
#![tactic(auto)]

pub use applied::Applied;
pub use apply_fault::ApplyFault;
pub use applying::apply_batch;
pub use entry::Entry;
pub use known_most::most_known;
pub use other::Other;

mod applied;
mod apply_fault;
mod applying;
mod committing;
mod drafting;
mod entry;
mod known_most;
mod learning;
mod marking;
mod naming;
mod ordering;
mod other;
mod planning;
mod reading;
mod stepping;
mod taking;
mod turn;
mod work;
