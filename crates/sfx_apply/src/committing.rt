//! Commits of what waits.
ghost use Rattle.std.specs.Prelude.{◌≡◌, ◌∷◌, OnOk, OnErr};
ghost use Rattle.sfx_apply.specs.Turns.{emptied, state_if, states_if, work_if};
ghost use Rattle.sfx_apply.specs.Work.{Waits};
ghost use Rattle.sfx_provider.specs.Fault.{HasCause, blames_storage};
ghost use Rattle.sfx_provider.specs.Leaves.{Arrives, BreaksOff};

use crate::work::Work;
use sfx_provider::{Provider, ProviderFault};

/// Commits what waits, where a commit is due. Nothing waits then.
pub(crate) fn commit_if<const U: usize, P: Provider<U>>(
    provider: &mut P,
    work: &mut Work<U>,
    due: bool,
) -> Result<(), ProviderFault>
    requires settled { P.settled provider.old }
    requires waits { Waits U work.old.pending (P.state provider.old) }
    ensures work { OnOk result (work.new ≡ work_if due work.old) }
    ensures arrives { let m = P.state provider.old in
        OnOk result (Arrives P.state P.kept P.settled P.came provider.old provider.new
        (states_if U due work.old m) (state_if U due work.old m)) }
    ensures breaks_off { let made = states_if U due work.old (P.state provider.old) in
        OnErr result (BreaksOff P.kept P.came P.broke provider.old provider.new made (P.state provider.old ∷ made)) }
    ensures cause { HasCause blames_storage (P.faults provider.old) (P.faults provider.new) result }
{
    if due {
        provider.commit(&work.pending)?;
        empty(work);
    }
    Ok(())
}

/// Nothing waits any more.
fn empty<const U: usize>(work: &mut Work<U>)
    ensures { work.new ≡ emptied work.old }
{
    work.pending.puts.clear();
    work.pending.drops.clear();
}
