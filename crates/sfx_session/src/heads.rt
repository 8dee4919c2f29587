ghost use Rattle.std.specs.Prelude.{◌≡◌, IfErr, IfOk, OnOk};
ghost use Rattle.sfx_model.specs.members.Consistent.{IsConsistent};
ghost use Rattle.sfx_provider.specs.Answer.{IsNever};
ghost use Rattle.sfx_provider.specs.Fault.{HasCause};
ghost use Rattle.sfx_provider.specs.Head.{head_of};
ghost use Rattle.sfx_provider.specs.Leaves.{Rests};
ghost use Rattle.sfx_session.specs.Fault.{blames, fault_at, refuses_session};

use crate::SessionFault;
use crate::side::Side;
use sfx_provider::{Head, Provider, ProviderFault};
use std::alloc::Global;

/// The head of the replica on this side, whose state is consistent and stays as it is.
pub(crate) fn head_of<const U: usize, P: Provider<U>>(
    alloc: Global,
    provider: &mut P,
    side: Side,
) -> Result<Head<U>, SessionFault>
    ensures value { IfOk result (λ head. head ≡ head_of U (P.state provider.old)) }
    ensures consistent { IsConsistent U (P.state provider.old) }
    ensures fault { IfErr result (λ e. (f : ProviderFault) × (e ≡ fault_at side f)) }
    ensures no_refusal { IsNever refuses_session result }
    ensures rests { Rests P.state P.kept P.settled P.came provider.old provider.new }
    ensures cause { HasCause (blames side) (P.faults provider.old) (P.faults provider.new) result }
{
    provider.keeps();
    match provider.head(alloc) {
        Ok(head) => Ok(head),
        Err(fault) => Err(side.fault(fault)),
    }
}
