//! A replica: what it holds, knows and has forgotten, and the edits that its user makes.
#![tactic(auto)]

pub use edit_fault::EditFault;
pub use memory_provider::MemoryProvider;
pub use replica::Replica;

mod clashes;
mod edit_fault;
mod items;
mod live;
mod memory_provider;
mod replica;
mod unseen;
