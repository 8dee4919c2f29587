ghost use Rattle.std.specs.Prelude.{◌≡◌, ◌<◌, ◌≤◌, ◌^◌, IfOk, OnErr, is_ok, length, take, IsErrOf, if◌then◌else◌};
ghost use Rattle.std.specs.Io.KnownBytes.{Appends, WriteAppends};
ghost use Rattle.sfx_outside.specs.Fault.{counted};
ghost use Rattle.sfx_outside.specs.StdSink.{AppendsPrefix};

use crate::{Sink, SinkFault};
use std::io;
use std::io::{ErrorKind, Write};
use std::marker::Model;

/// Standard output as a sink, or another writer: `StdSink::new(rt.stdout())`. Each call is one write
/// and one flush of the writer, and one that a signal cuts short is made again. A failed flush is a
/// fault, and so is a write that takes nothing of a piece. As a sink it tells nothing of the bytes
/// that it holds; that they go to its writer is a clause of `write`.
#[derive(Drop)]
pub struct StdSink<W: Write> {
    writer: W,
    faults: u64,
}

impl<W: Write> Model for StdSink<W> {
    ghost use Rattle.std.specs.Prelude.{◌<◌, ◌^◌};
    ghost use Rattle.sfx_outside.specs.StdSink.{StdSinkData};

    ghost Value = { StdSinkData };

    ghost view = { λ s. record { known = W.contents s.writer; faults = s.faults } };

    ghost invariant = { λ s. s.faults < 2 ^ 64 };
}

impl<W: Write> StdSink<W> {
    /// A sink into the writer; no write has failed yet. `main` makes one.
    pub fn new(writer: W) -> Self
        ensures { result ≡ record { known = W.contents writer; faults = 0 } }
    {
        StdSink { writer, faults: 0 }
    }

    /// The writer, as the calls left it.
    pub fn writer(&self) -> &W
        ensures { W.contents result.now ≡ self.now.known }
    {
        &self.writer
    }

    /// How many writes have failed, up to the greatest `u64`.
    pub fn faults(&self) -> u64
        ensures { result ≡ self.now.faults }
    {
        self.faults
    }
}

impl<W: Write> Sink for StdSink<W> {
    ghost use Rattle.std.specs.Prelude.{None};

    ghost held = { λ _. None };

    ghost faults = { λ s. s.faults };

    fn write(&mut self, piece: &[u8]) -> Result<usize, SinkFault>
        ensures count { IfOk result (λ n. n ≤ length piece.now) }
        ensures progress { IfOk result (λ n. 0 < length piece.now → 0 < n) }
        ensures writer { IfOk result (λ n. Appends self.old.known self.new.known (take n piece.now)) }
        ensures err { OnErr result (AppendsPrefix self.old.known self.new.known piece.now) }
        ensures failed { OnErr result (IsErrOf result SinkFault.Failed) }
        ensures fits { self.old.faults < 2 ^ 64 }
        ensures faults { self.new.faults ≡ (if is_ok result then self.old.faults else counted self.old.faults) }
    {
        match write_through(&mut self.writer, piece) {
            Ok(count) if count > 0 || piece.is_empty() => Ok(count),
            _ => {
                self.faults = self.faults.saturating_add(1);
                Err(SinkFault::Failed)
            }
        }
    }
}

/// Writes a prefix of the piece and flushes.
fn write_through<W: Write>(writer: &mut W, piece: &[u8]) -> io::Result<usize>
    ensures count { IfOk result (λ n. n ≤ length piece.now) }
    ensures ok { IfOk result (λ n. Appends (W.contents writer.old) (W.contents writer.new) (take n piece.now)) }
    ensures err { OnErr result (AppendsPrefix (W.contents writer.old) (W.contents writer.new) piece.now) }
{
    let count = write_some(writer, piece)?;
    writer.flush()?;
    Ok(count)
}

/// Writes once, and again where a signal came first.
fn write_some<W: Write>(writer: &mut W, piece: &[u8]) -> io::Result<usize>
    ensures count { IfOk result (λ n. n ≤ length piece.now) }
    ensures bytes { WriteAppends (W.contents writer.old) (W.contents writer.new) result piece.now }
{
    'tries: for _ in 0..u64::MAX {
        match writer.write(piece) {
            Err(error) if error.kind() == ErrorKind::Interrupted => {}
            result => return result,
        }
    }
    Err(ErrorKind::Interrupted.into())
}
