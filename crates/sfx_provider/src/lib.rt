//! Providers: what holds a replica's state, so that it can be read and changed by commits.
#![tactic(auto)]

pub use commit::Commit;
pub use committing::commit_all;
pub use head::Head;
pub use laws::{commits_are_exact, commits_keep_consistency, heads_are_commits, walks_list_items};
pub use provider::Provider;
pub use provider_fault::ProviderFault;
pub use walking::all_items;

mod commit;
mod committing;
mod head;
mod laws;
mod provider;
mod provider_fault;
mod walking;
