//! Sessions: what a source knows and a destination does not is sent in batches and applied.
#![tactic(auto)]

pub use laws::uncut_sessions_are_done;
pub use report::Report;
pub use session_fault::SessionFault;
pub use sessions::session;
pub use step::Step;

mod heads;
mod laws;
mod refusal;
mod report;
mod session_fault;
mod sessions;
mod side;
mod step;
mod travel;
