//! The state that a script works on, and what each of its lines does.
#![tactic(auto)]

pub use kind::Kind;
pub use laws::{
    commits_end_in_state, comparisons_are_exact, lines_follow, taken_ids_have_members, turns_happen,
};
pub use meeting::{Meeting, meet};
pub use pending::Pending;
pub use state::State;

mod comparing;
mod kept;
mod kind;
mod laws;
mod meeting;
mod members;
mod pending;
mod refusing;
mod state;
