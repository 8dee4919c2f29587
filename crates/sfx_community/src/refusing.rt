//! How lines are refused.
ghost use Rattle.std.specs.Prelude.{◌≡◌, ◌≢◌, false, IfOk};
ghost use Rattle.sfx_reply.specs.declared.reply.Reply.TheVariants.{Refused};
ghost use Rattle.sfx_reply.specs.declared.reason.Reason.TheVariants.{Edit, NoReplica, Session};
ghost use Rattle.sfx_reply.specs.Reply.{is_memory};
ghost use Rattle.sfx_script.specs.Limits.{AreWithinLimits};
ghost use Rattle.sfx_community.specs.Turn.{empty_state, is_built, is_units, leaves_changes, leaves_names, turn_of};

use sfx_ids::Memory;
use sfx_model::{ClashRule, Keep};
use sfx_outside::Text;
use sfx_replica::EditFault;
use sfx_reply::{Reason, Reply};
use sfx_script::{Line, Options};
use sfx_session::SessionFault;

/// The refusal of a line, other than of `units`, before the unit count is said: there is no replica then.
pub(crate) fn refusal_unset(line: Line) -> Reply
    requires other { is_units line ≡ false }
    ensures { result ≡ (turn_of empty_state line).reply }
{
    match line {
        Line::Units { .. } => unreachable!(),
        Line::Replica { .. } => Reply::Refused(Reason::NoUnits),
        Line::Create { replica, .. } => no_replica(replica),
        Line::Set { replica, .. } => no_replica(replica),
        Line::Delete { replica, .. } => no_replica(replica),
        Line::Show { replica } => no_replica(replica),
        Line::Knows { replica, .. } => no_replica(replica),
        Line::Equal { first, .. } => no_replica(first),
        Line::Sync {
            source,
            keep,
            clash,
            options,
            ..
        } => {
            if is_built(keep, clash, &options) {
                no_replica(source)
            } else {
                Reply::Refused(Reason::NotBuilt)
            }
        }
        Line::Files { .. } | Line::Clean { .. } | Line::Scan { .. } => {
            Reply::Refused(Reason::NotBuilt)
        }
    }
}

/// The refusal of a line that names no replica.
pub(crate) fn no_replica(name: Text) -> Reply
    ensures { result ≡ Refused (NoReplica name) }
{
    Reply::Refused(Reason::NoReplica(name))
}

/// The refusal of a line whose edit a replica refuses. Running out of memory refuses no line.
pub(crate) fn refusal(fault: EditFault) -> Result<Reply, Memory>
    ensures { IfOk result (λ reply. (reply ≡ Refused (Edit fault)) × (is_memory fault ≡ false)) }
{
    if is_memory(&fault) {
        return Err(Memory);
    }
    Ok(Reply::Refused(Reason::Edit(fault)))
}

/// Whether memory ran out.
fn is_memory(fault: &EditFault) -> bool
    ensures { result ≡ is_memory fault.now }
{
    matches!(fault, EditFault::Memory)
}

/// The refusal of a line whose session is refused. Running out of memory refuses no line.
pub(crate) fn session_refusal(fault: SessionFault) -> Result<Reply, Memory>
    requires source { fault ≢ SessionFault.Source }
    requires destination { fault ≢ SessionFault.Destination }
    ensures { IfOk result (λ reply. (reply ≡ Refused (Session fault)) × (fault ≢ SessionFault.Memory)) }
{
    match fault {
        SessionFault::SameReplica | SessionFault::Ahead { .. } | SessionFault::NotBuilt => {
            Ok(Reply::Refused(Reason::Session(fault)))
        }
        SessionFault::Source | SessionFault::Destination => unreachable!(),
        SessionFault::Memory => Err(Memory),
    }
}

/// Whether sessions under these rules and options are built.
pub(crate) fn is_built(keep: Keep, clash: ClashRule, options: &Options) -> bool
    ensures { result ≡ is_built keep clash options.now }
{
    keep == Keep::Skip && clash == ClashRule::Skip && !options.trace
}
