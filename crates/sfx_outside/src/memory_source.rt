ghost use Rattle.std.specs.Prelude.{◌≡◌, ◌≤◌, ◌++◌, ◌↔◌, length, take, drop, IsErr, IfOk, OnErr};

use crate::calls::Calls;
use crate::{Failed, Source};
use std::marker::Model;

/// A source of bytes in memory. It gives at most a piece at a time, and the calls in its list fail.
#[derive(Drop)]
pub struct MemorySource {
    bytes: Vec<u8>,
    at: usize,
    piece: usize,
    calls: Calls,
}

impl Model for MemorySource {
    ghost use Rattle.std.specs.Prelude.{◌≤◌, drop, vec_len};
    ghost use Rattle.sfx_outside.specs.MemorySource.{MemorySourceData};

    ghost Value = { MemorySourceData };

    ghost view = { λ s. record {
      left = drop s.at s.bytes.items;
      piece = s.piece;
      fails = s.calls.fails.items;
      calls = s.calls.made;
      faults = s.calls.faults;
    } };

    ghost invariant = { λ s. (s.at ≤ vec_len s.bytes) × (1 ≤ s.piece) };
}

impl MemorySource {
    /// A source of these bytes, which gives at most `piece` of them in a call. The calls whose
    /// numbers `fails` lists fail, counted from 1.
    pub fn new(bytes: Vec<u8>, piece: usize, fails: Vec<u64>) -> Self
        requires { 1 ≤ piece }
        ensures { result ≡ record { left = bytes.items; piece = piece; fails = fails.items; calls = 0; faults = 0 } }
    {
        MemorySource {
            bytes,
            at: 0,
            piece,
            calls: Calls::new(fails),
        }
    }
}

impl Source for MemorySource {
    ghost use Rattle.std.specs.Prelude.{Some};
    ghost use Rattle.sfx_outside.specs.MemorySource.{IsSource, SourceFailsNext, next_count, after_read, source_after_fault};

    ghost left = { λ s. Some s.left };

    ghost faults = { λ s. s.faults };

    fn read(&mut self, into: &mut [u8]) -> Result<usize, Failed>
        ensures valid { IsSource self.old }
        ensures fails { IsErr result ↔ SourceFailsNext self.old }
        ensures count { IfOk result (λ n. n ≡ next_count self.old (length into.old)) }
        ensures bytes { IfOk result (λ n. into.new ≡ take n self.old.left ++ drop n into.old) }
        ensures after { IfOk result (λ n. self.new ≡ after_read self.old n) }
        ensures fault { OnErr result (self.new ≡ source_after_fault self.old) }
        ensures untouched { OnErr result (into.new ≡ into.old) }
    {
        if self.calls.next_fails() {
            return Err(Failed);
        }
        let left = &self.bytes[self.at..];
        let count = left.len().min(self.piece).min(into.len());
        into[..count].copy_from_slice(&left[..count]);
        self.at += count;
        Ok(count)
    }
}
