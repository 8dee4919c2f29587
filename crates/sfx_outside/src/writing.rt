ghost use Rattle.std.specs.Prelude.{◌≤◌, OnOk, OnErr, IsErrOf};
ghost use Rattle.sfx_outside.specs.Fault.{HasRisen};
ghost use Rattle.sfx_outside.specs.Sink.{Adds, AddsPrefix};

use crate::{Sink, SinkFault};

/// Writes the whole piece, in as many writes as the sink asks for.
///
/// # Errors
/// That of the first write that fails; a prefix of the piece may have been taken by then.
pub fn write_all<B: Sink>(out: &mut B, piece: &[u8]) -> Result<(), SinkFault>
    ensures ok { OnOk result (Adds (B.held out.old) (B.held out.new) piece.now) }
    ensures err { OnErr result (AddsPrefix (B.held out.old) (B.held out.new) piece.now) }
    ensures faults { B.faults out.old ≤ B.faults out.new }
    ensures cause { IsErrOf result SinkFault.Failed → HasRisen (B.faults out.old) (B.faults out.new) }
{
    let mut done = 0;
    while done < piece.len() {
        done += out.write(&piece[done..])?;
    }
    Ok(())
}
