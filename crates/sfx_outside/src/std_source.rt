ghost use Rattle.std.specs.Prelude.{◌≡◌, ◌<◌, ◌≤◌, ◌^◌, IfOk, is_ok, length, drop, if◌then◌else◌};
ghost use Rattle.std.specs.Io.KnownBytes.{ReadConsumes};
ghost use Rattle.sfx_outside.specs.Fault.{counted};

use crate::{Failed, Source};
use std::io;
use std::io::{ErrorKind, Read};
use std::marker::Model;

/// How many bytes are read at once.
const PIECE: usize = 65536;

/// Standard input as a source, or another reader: `StdSource::new(rt.stdin())`. Each call is one read
/// of the reader, of at most 64 KiB, and one that a signal cuts short is made again. As a source it
/// tells nothing of the bytes that it has left; that they are its reader's is a clause of `read`.
#[derive(Drop)]
pub struct StdSource<R: Read> {
    reader: R,
    faults: u64,
}

impl<R: Read> Model for StdSource<R> {
    ghost use Rattle.std.specs.Prelude.{◌<◌, ◌^◌};
    ghost use Rattle.sfx_outside.specs.StdSource.{StdSourceData};

    ghost Value = { StdSourceData };

    ghost view = { λ s. record { known = R.remaining s.reader; faults = s.faults } };

    ghost invariant = { λ s. s.faults < 2 ^ 64 };
}

impl<R: Read> StdSource<R> {
    /// A source of what the reader gives; no read has failed yet. `main` makes one.
    pub fn new(reader: R) -> Self
        ensures { result ≡ record { known = R.remaining reader; faults = 0 } }
    {
        StdSource { reader, faults: 0 }
    }

    /// How many reads have failed, up to the greatest `u64`.
    pub fn faults(&self) -> u64
        ensures { result ≡ self.now.faults }
    {
        self.faults
    }
}

impl<R: Read> Source for StdSource<R> {
    ghost use Rattle.std.specs.Prelude.{None};

    ghost left = { λ _. None };

    ghost faults = { λ s. s.faults };

    fn read(&mut self, into: &mut [u8]) -> Result<usize, Failed>
        ensures count { IfOk result (λ n. n ≤ length into.old) }
        ensures reader { ReadConsumes self.old.known self.new.known result into.new }
        ensures rest { IfOk result (λ n. drop n into.new ≡ drop n into.old) }
        ensures fits { self.old.faults < 2 ^ 64 }
        ensures faults { self.new.faults ≡ (if is_ok result then self.old.faults else counted self.old.faults) }
    {
        let mut piece = [0; PIECE];
        match read_piece(&mut self.reader, &mut piece, into) {
            Ok(count) => Ok(count),
            Err(_) => {
                self.faults = self.faults.saturating_add(1);
                Err(Failed)
            }
        }
    }
}

/// Reads once into the prefix of `into`, by way of `piece`, and leaves the rest of it as it is.
fn read_piece<R: Read>(reader: &mut R, piece: &mut [u8], into: &mut [u8]) -> io::Result<usize>
    requires { 0 < length piece.old }
    ensures count { IfOk result (λ n. n ≤ length into.old) }
    ensures bytes { ReadConsumes (R.remaining reader.old) (R.remaining reader.new) result into.new }
    ensures rest { IfOk result (λ n. drop n into.new ≡ drop n into.old) }
{
    let room = into.len().min(piece.len());
    let count = read_some(reader, &mut piece[..room])?;
    into[..count].copy_from_slice(&piece[..count]);
    Ok(count)
}

/// Reads once, and again where a signal came first.
fn read_some<R: Read>(reader: &mut R, into: &mut [u8]) -> io::Result<usize>
    ensures count { IfOk result (λ n. n ≤ length into.old) }
    ensures bytes { ReadConsumes (R.remaining reader.old) (R.remaining reader.new) result into.new }
{
    'tries: for _ in 0..u64::MAX {
        match reader.read(into) {
            Err(error) if error.kind() == ErrorKind::Interrupted => {}
            result => return result,
        }
    }
    Err(ErrorKind::Interrupted.into())
}
