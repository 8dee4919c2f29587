//! The replies to the lines of a script, and their texts.
#![tactic(auto)]

pub use reason::Reason;
pub use reply::{Listing, Reply};
pub use report::told;
pub use showing::listing;

mod reason;
mod reply;
mod report;
mod showing;
mod text;
