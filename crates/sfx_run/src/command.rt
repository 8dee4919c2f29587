ghost use Rattle.std.specs.Prelude.{◌≡◌, ◌<◌, ◌≤◌, ◌⊎◌, ◌↔◌, ◌+◌, ℕ, true, false, length, map, string_bytes, IfSome, IsTrue};
ghost use Rattle.sfx_outside.specs.Fault.{HasRisen};
ghost use Rattle.sfx_outside.specs.Sink.{Adds};
ghost use Rattle.sfx_outside.specs.Source.{IsAtEnd, TakesAtMost};
ghost use Rattle.sfx_model.specs.world.World.{World, WellFormed};
ghost use Rattle.sfx_community.specs.History.{AllFit, AreNotAhead, HasHappened, IsAllOf};
ghost use Rattle.sfx_run.specs.Run.{BrokeOff, RanOutOfMemory, has_refusal, is_play, played, played_text, played_to};
ghost use Rattle.sfx_community.specs.State.{State, community_of};
ghost use Rattle.sfx_community.specs.Turn.{empty_state};
ghost use Rattle.sfx_run.specs.Status.{HasBrokenOff, HasNotBegun, IsAnswered};

use crate::lines::play;
use crate::status::Status;
use sfx_community::State;
use sfx_outside::{ReadFault, Sink, SinkFault, Source, read_to_end};
use std::alloc::Global;

/// How many bytes an input has at most.
pub const MAX_INPUT: usize = 16_777_216;

/// Runs the command that the words make. The one command that is built is `play`: it reads a script
/// from the input to its end, runs its lines, and writes the reply of each.
pub fn run<A: Source, B: Sink>(
    alloc: Global,
    words: &Vec<String>,
    input: &mut A,
    out: &mut B,
) -> Status
    // Every line is answered: what is written are the replies, and nothing of the input is left.
    ensures answered { IsAnswered result →
        IfSome (A.left input.old) (λ script. Adds (B.held out.old) (B.held out.new) (played_text script)) }
    ensures end { IsAnswered result → IsAtEnd (A.left input.new) }
    ensures refused { result ≡ Status.Refused →
        IfSome (A.left input.old) (λ script. has_refusal (played script).replies ≡ true) }
    ensures done { result ≡ Status.Done →
        IfSome (A.left input.old) (λ script. has_refusal (played script).replies ≡ false) }

    // What the first so many lines do, for any number of them, happens in every well-formed world which they
    // fit: one with no unit count but that of the script, and with no replica of an id that they add. All
    // replicas there are kept elsewhere.
    ensures history { IsAnswered result → IfSome (A.left input.old) (λ script. (w : World) (count : ℕ) →
        WellFormed w → AllFit w (played_to count script).deeds → HasHappened w empty_state (played_to count script)) }

    // They fit each world of which the state at the start is all: one with no replica and no unit count yet.
    ensures whole { IsAnswered result → IfSome (A.left input.old) (λ script. (w : World) (count : ℕ) →
        WellFormed w → IsAllOf w (community_of empty_state) → AllFit w (played_to count script).deeds) }

    // No session of a script is refused because its source knows more of the destination than that made.
    ensures not_ahead { IsAnswered result →
        IfSome (A.left input.old) (λ script. AreNotAhead (played script).replies) }

    // When each other end comes.
    ensures usage { (result ≡ Status.Usage) ↔ (is_play (map string_bytes words.now.items) ≡ false) }
    ensures source_fault { result ≡ Status.SourceFault → HasRisen (A.faults input.old) (A.faults input.new) }
    ensures sink_fault { result ≡ Status.SinkFault → HasRisen (B.faults out.old) (B.faults out.new) }
    ensures too_long { result ≡ Status.TooLong → IfSome (A.left input.old) (λ script. MAX_INPUT < length script) }
    ensures fits { (IsAnswered result ⊎ (result ≡ Status.SinkFault)) →
        IfSome (A.left input.old) (λ script. length script ≤ MAX_INPUT) }

    // What is written then. Where the output failed, the replies of some lines were written whole, and a prefix
    // of the next one; where memory ran out, so it is, or none of the next, or nothing was written at all.
    ensures silent { HasNotBegun result → B.held out.new ≡ B.held out.old }
    ensures broken_off { result ≡ Status.SinkFault → IfSome (A.left input.old) (λ script.
        (s : State) × BrokeOff empty_state script (B.held out.old) (B.held out.new) s) }
    ensures memory { result ≡ Status.Memory → (B.held out.new ≡ B.held out.old)
        ⊎ IfSome (A.left input.old) (λ script.
        (s : State) × RanOutOfMemory empty_state script (B.held out.old) (B.held out.new) s) }

    // What is read.
    ensures taken { TakesAtMost (MAX_INPUT + 1) (A.left input.old) (A.left input.new) }
    ensures unread { result ≡ Status.Usage → A.left input.new ≡ A.left input.old }

    // Where no end fails and the input is not too long, every line is answered, or memory runs out.
    ensures complete { is_play (map string_bytes words.now.items) ≡ true →
        (HasRisen (A.faults input.old) (A.faults input.new) → ⊥) →
        (HasRisen (B.faults out.old) (B.faults out.new) → ⊥) →
        IfSome (A.left input.old) (λ script.
        length script ≤ MAX_INPUT → IsAnswered result ⊎ (result ≡ Status.Memory)) }
    ensures refuses_long { is_play (map string_bytes words.now.items) ≡ true →
        (HasRisen (A.faults input.old) (A.faults input.new) → ⊥) →
        IfSome (A.left input.old) (λ script.
        MAX_INPUT < length script → (result ≡ Status.TooLong) ⊎ (result ≡ Status.Memory)) }
{
    if !is_play(words) {
        return Status::Usage;
    }
    let script = match read_to_end(alloc, input, MAX_INPUT) {
        Ok(script) => script,
        Err(ReadFault::Failed) => return Status::SourceFault,
        Err(ReadFault::TooLong) => return Status::TooLong,
        Err(ReadFault::Memory) => return Status::Memory,
    };
    answer(alloc, script.as_slice(), out)
}

/// Answers each line of the script, and says how that ended.
fn answer<B: Sink>(alloc: Global, script: &[u8], out: &mut B) -> Status
    ensures ends { IsAnswered result ⊎ HasBrokenOff result }
    ensures answered { IsAnswered result → Adds (B.held out.old) (B.held out.new) (played_text script.now) }
    ensures refused { result ≡ Status.Refused → has_refusal (played script.now).replies ≡ true }
    ensures done { result ≡ Status.Done → has_refusal (played script.now).replies ≡ false }
    ensures broken_off { result ≡ Status.SinkFault →
        (s : State) × BrokeOff empty_state script.now (B.held out.old) (B.held out.new) s }
    ensures memory { result ≡ Status.Memory →
        (s : State) × RanOutOfMemory empty_state script.now (B.held out.old) (B.held out.new) s }
    ensures sink_fault { result ≡ Status.SinkFault → HasRisen (B.faults out.old) (B.faults out.new) }
{
    let mut state = State::new();
    match play(alloc, &mut state, script, out) {
        Ok(false) => Status::Done,
        Ok(true) => Status::Refused,
        Err(SinkFault::Failed) => Status::SinkFault,
        Err(SinkFault::Memory) => Status::Memory,
    }
}

/// Whether the words are the command `play`.
fn is_play(words: &Vec<String>) -> bool
    ensures { result ≡ is_play (map string_bytes words.now.items) }
{
    words.len() == 1 && words[0].as_str() == "play"
}
