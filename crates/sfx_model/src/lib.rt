//! The model of a community of replicas: the world, its events, what it means that a replica's state
//! represents its part of a world, and the laws of these.
#![tactic(auto)]

pub use absent::Absent;
pub use apply_end::ApplyEnd;
pub use clash_rule::ClashRule;
pub use entry_kind::EntryKind;
pub use keep::Keep;
pub use laws::achieved::knowledge_is_joined;
pub use laws::acting::{
    batches_act, consistent_members_are_orderly, cut_run, entries_act, none_is_ahead, ranges_act,
    sessions_act, two_states,
};
pub use laws::members::{edits_act, knowledge_is_exact, members_stand, state_stands, states_part};
pub use laws::recovery::{
    clocks_on_examples, deletions_on_examples, moments_on_examples, recovery_on_examples,
    taken_names_on_examples,
};
pub use laws::results::results_follow;
pub use laws::sessions::{
    batches_are_bounded, clashes_on_examples, conflicts_on_examples, knowledge_is_decided,
    moments_join, sessions_on_examples,
};
pub use laws::snapshots::{marks_are_legal, snapshots_stay};
pub use laws::undisturbed::undisturbed_sessions;
pub use laws::world::{events_keep, examples, marks_agree, short_run};
pub use mark::Mark;
pub use mode::Mode;
pub use session_end::SessionEnd;
pub use unit_class::UnitClass;

mod absent;
mod apply_end;
mod clash_rule;
mod entry_kind;
mod keep;
mod laws;
mod mark;
mod mode;
mod session_end;
mod unit_class;
