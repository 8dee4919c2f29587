//! Playing a script: its lines one by one, each with its reply.
ghost use Rattle.std.specs.Prelude.{◌≡◌, ◌<◌, ◌≤◌, ◌⊎◌, [], ◌∷◌, length, IfOk, IfSome, OnOk, OnErr, IsErrOf};
ghost use Rattle.sfx_outside.specs.Fault.{HasRisen};
ghost use Rattle.sfx_outside.specs.Sink.{Adds, AddsPrefix};
ghost use Rattle.sfx_script.specs.Script.{is_passed, lines_of};
ghost use Rattle.sfx_reply.specs.Reply.{is_refusal, reply_text};
ghost use Rattle.sfx_run.specs.Run.{BrokeOff, NotRun, RanInPart, RanOutOfMemory};
ghost use Rattle.sfx_run.specs.Run.{has_refusal, line_text, lines_left, replies_text};
ghost use Rattle.sfx_community.specs.Turn.{turns};

use sfx_community::State;
use sfx_ids::Memory;
use sfx_outside::{Sink, SinkFault, write_all};
use sfx_reply::Reply;
use std::alloc::Global;

/// Plays a script from this state on: its lines one by one, each with its reply, which is written before the
/// next line is run. It says whether a line was refused.
///
/// # Errors
/// `Failed`, only where the sink's count of faults rose: all lines up to one were run then, and all replies
/// but a part of the last were written. `Memory`: so it may be then, too, or a line was not run.
pub fn play<B: Sink>(
    alloc: Global,
    state: &mut State,
    script: &[u8],
    out: &mut B,
) -> Result<bool, SinkFault>
    ensures text { let all = turns state.old (lines_of script.now) in
        OnOk result (Adds (B.held out.old) (B.held out.new) (replies_text all.replies)) }
    ensures after { OnOk result (state.new ≡ (turns state.old (lines_of script.now)).state) }
    ensures refusal { IfOk result (λ refused.
        refused ≡ has_refusal (turns state.old (lines_of script.now)).replies) }

    ensures failed { IsErrOf result SinkFault.Failed →
        BrokeOff state.old script.now (B.held out.old) (B.held out.new) state.new }
    ensures memory { IsErrOf result SinkFault.Memory →
        RanOutOfMemory state.old script.now (B.held out.old) (B.held out.new) state.new }
    ensures faults { B.faults out.old ≤ B.faults out.new }
    ensures cause { IsErrOf result SinkFault.Failed → HasRisen (B.faults out.old) (B.faults out.new) }
{
    let mut has_refusal = false;
    let mut rest = Some(script);
    'lines: while let Some(script) = rest {
        let (line, left) = next_line(script);
        let is_refused = answer(alloc, state, line, out)?;
        has_refusal |= is_refused;
        rest = left;
    }
    Ok(has_refusal)
}

/// The first line of a script, and what follows its end, where it has one.
fn next_line(script: &[u8]) -> (&[u8], Option<&[u8]>)
    ensures split { lines_of script.now ≡ result.0.now ∷ lines_left result.1 }
    ensures shorter { IfSome result.1 (λ left. length left.now < length script.now) }
{
    for (place, byte) in script.iter().enumerate() {
        if *byte == b'\n' {
            return (&script[..place], Some(&script[place + 1..]));
        }
    }
    (script, None)
}

/// Runs a line and writes its reply, where it is none that is passed over, and says whether it was
/// refused.
fn answer<B: Sink>(
    alloc: Global,
    state: &mut State,
    line: &[u8],
    out: &mut B,
) -> Result<bool, SinkFault>
    ensures text { OnOk result (Adds (B.held out.old) (B.held out.new) (line_text state.old line.now)) }
    ensures after { OnOk result (state.new ≡ (turns state.old (line.now ∷ [])).state) }
    ensures refusal { IfOk result (λ refused. refused ≡ has_refusal (turns state.old (line.now ∷ [])).replies) }
    ensures failed { IsErrOf result SinkFault.Failed →
        RanInPart state.old line.now (B.held out.old) (B.held out.new) state.new }
    ensures memory { IsErrOf result SinkFault.Memory →
        RanInPart state.old line.now (B.held out.old) (B.held out.new) state.new
        ⊎ NotRun state.old (B.held out.old) (B.held out.new) state.new }
    ensures faults { B.faults out.old ≤ B.faults out.new }
    ensures cause { IsErrOf result SinkFault.Failed → HasRisen (B.faults out.old) (B.faults out.new) }
{
    if is_passed(line) {
        return Ok(false);
    }
    match state.turn(alloc, line) {
        Ok(reply) => write_reply(alloc, &reply, out),
        Err(_) => Err(SinkFault::Memory),
    }
}

/// Writes the reply, and says whether it refuses its line.
fn write_reply<B: Sink>(alloc: Global, reply: &Reply, out: &mut B) -> Result<bool, SinkFault>
    ensures text { OnOk result (Adds (B.held out.old) (B.held out.new) (reply_text reply.now)) }
    ensures refusal { IfOk result (λ refused. refused ≡ is_refusal reply.now) }
    ensures err { OnErr result (AddsPrefix (B.held out.old) (B.held out.new) (reply_text reply.now)) }
    ensures faults { B.faults out.old ≤ B.faults out.new }
    ensures cause { IsErrOf result SinkFault.Failed → HasRisen (B.faults out.old) (B.faults out.new) }
{
    let Ok(text) = text_of(alloc, reply) else {
        return Err(SinkFault::Memory);
    };
    write_all(out, &text)?;
    Ok(reply.is_refusal())
}

/// The text of the reply. The one error is running out of memory.
fn text_of(alloc: Global, reply: &Reply) -> Result<Vec<u8>, Memory>
    ensures { IfOk result (λ text. text.items ≡ reply_text reply.now) }
{
    let mut text = Vec::new(alloc);
    reply.write(&mut text)?;
    Ok(text)
}

/// Whether the line is passed over: it is empty, or begins with `#`.
fn is_passed(line: &[u8]) -> bool
    ensures { result ≡ is_passed line.now }
{
    match line.first() {
        Some(byte) => *byte == b'#',
        None => true,
    }
}
