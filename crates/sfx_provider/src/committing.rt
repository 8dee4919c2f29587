ghost use Rattle.std.specs.Prelude.{◌∷◌, OnOk, OnErr};
ghost use Rattle.sfx_provider.specs.Course.{CommitsFit, after_commits, states_after};
ghost use Rattle.sfx_provider.specs.Fault.{HasCause, blames_storage};
ghost use Rattle.sfx_provider.specs.Leaves.{Arrives, BreaksOff};

use crate::{Commit, Provider, ProviderFault};

/// Makes commits one after another, each from the state that the one before it left.
///
/// # Errors
/// `Failed`, only where the provider's count of faults rose, and `Memory`. The first commits are made then,
/// perhaps none, and the next one may have broken off; what is kept is the state before or after one of them.
pub fn commit_all<const U: usize, P: Provider<U>>(
    provider: &mut P,
    commits: &[Commit<U>],
) -> Result<(), ProviderFault>
    requires settled { P.settled provider.old }
    requires fit { CommitsFit U commits.now (P.state provider.old) }
    ensures arrives { let first = P.state provider.old in
        OnOk result (Arrives P.state P.kept P.settled P.came provider.old provider.new
        (states_after U commits.now first) (after_commits U commits.now first)) }
    ensures breaks_off { let states = states_after U commits.now (P.state provider.old) in
        OnErr result (BreaksOff P.kept P.came P.broke provider.old provider.new states
        (P.state provider.old ∷ states)) }
    ensures cause { HasCause blames_storage (P.faults provider.old) (P.faults provider.new) result }
{
    'commits: for commit in commits {
        provider.commit(commit)?;
    }
    Ok(())
}
