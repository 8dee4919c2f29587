ghost use Rattle.std.specs.Prelude.{◌≡◌};

use crate::SessionFault;
use sfx_provider::ProviderFault;

/// A side of a session: the replica that it comes from, or the one that it goes to.
#[derive(Clone, Copy, Debug, PartialEq, Eq)]
pub(crate) enum Side {
    Source,
    Destination,
}

impl Side {
    ghost use Rattle.sfx_session.specs.Fault.{fault_at};

    /// The fault of a session whose provider on this side answered with that fault.
    pub(crate) fn fault(self, fault: ProviderFault) -> SessionFault
        ensures { result ≡ fault_at self fault }
    {
        match (self, fault) {
            (Side::Source, ProviderFault::Failed) => SessionFault::Source,
            (Side::Destination, ProviderFault::Failed) => SessionFault::Destination,
            (_, ProviderFault::Memory) => SessionFault::Memory,
        }
    }
}
