//! A session between two replicas that are in memory.
ghost use Rattle.std.specs.Prelude.{◌≡◌, [], IfOk, IsErrOf};
ghost use Rattle.sfx_script.specs.Limits.{AreWithinLimits};
ghost use Rattle.sfx_provider.specs.Answer.{Refuses};
ghost use Rattle.sfx_session.specs.Fault.{refuses_session};
ghost use Rattle.sfx_session.specs.Refusals.{session_refusal};
ghost use Rattle.sfx_session.specs.Report.{report_of};
ghost use Rattle.sfx_community.specs.Turn.{built_rules, session_under};

use sfx_ids::Memory;
use sfx_replica::{MemoryProvider, Replica};
use sfx_script::Options;
use sfx_session::{Report, SessionFault, session};
use sfx_settle::{ClashRule, Keep, Longer, Rules};
use std::alloc::Global;

/// The rules of the sessions that are built: each conflict is left alone.
const BUILT: Rules<Longer> = Rules {
    keep: Keep::Skip,
    clash: ClashRule::Skip,
    merger: Longer,
};

/// What comes of a session: what it did, and the destination afterwards.
#[derive(Drop)]
pub struct Meeting<const U: usize> {
    pub report: Report<U>,
    pub destination: Replica<U>,
}

/// Runs a session under these options between copies of the source and the destination, which stay as they
/// are.
///
/// # Errors
/// What refuses the session, and `Memory`. No copy fails, as both are in memory.
pub fn meet<const U: usize>(
    alloc: Global,
    source: &Replica<U>,
    destination: &Replica<U>,
    options: &Options,
) -> Result<Meeting<U>, SessionFault>
    requires limits { AreWithinLimits options.now }
    ensures refused { Refuses refuses_session result (session_refusal U source.now destination.now) }
    ensures report { let o = options.now in
        IfOk result (λ met. met.report ≡ report_of U source.now destination.now built_rules o.batch o.cut) }
    ensures destination { let whole = session_under U source.now destination.now options.now in
        IfOk result (λ met. met.destination ≡ whole.course.member) }
    ensures source_stays { IsErrOf result SessionFault.Source → ⊥ }
    ensures destination_stays { IsErrOf result SessionFault.Destination → ⊥ }
{
    let mut from = provider_of(alloc, source)?;
    let mut to = provider_of(alloc, destination)?;
    let size = options.batch as usize;
    let (group, cut) = (options.group, options.cut);
    let report = session(alloc, &mut from, &mut to, &BUILT, size, group, cut)?;
    Ok(Meeting {
        report,
        destination: to.into_replica(),
    })
}

/// A provider of a copy of the replica, none of whose calls fails.
fn provider_of<const U: usize>(
    alloc: Global,
    replica: &Replica<U>,
) -> Result<MemoryProvider<U>, Memory>
    ensures { IfOk result (λ p. p ≡ record { member = replica.now; fails = []; calls = 0; faults = 0 }) }
{
    Ok(MemoryProvider::new(replica.copy(alloc)?, Vec::new(alloc)))
}
