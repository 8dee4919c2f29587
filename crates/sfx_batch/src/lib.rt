//! Batches: what a source sends of its items in a range, and the making of the one that is due.
#![tactic(auto)]

pub use batch::Batch;
pub use batch_fault::BatchFault;
pub use laws::due_batches_are_right;
pub use making::make_batch;

mod batch;
mod batch_fault;
mod laws;
mod making;
