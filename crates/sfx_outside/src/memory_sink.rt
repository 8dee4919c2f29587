ghost use Rattle.std.specs.Prelude.{◌≡◌, ◌↔◌, [], length, IfOk, OnOk, IsErrOf};

use crate::calls::Calls;
use crate::{Sink, SinkFault};
use std::alloc::Global;
use std::marker::Model;

/// A sink that keeps the bytes in memory. It takes each piece whole, and the calls in its list fail.
#[derive(Drop)]
pub struct MemorySink {
    bytes: Vec<u8>,
    calls: Calls,
}

impl Model for MemorySink {
    ghost use Rattle.sfx_outside.specs.MemorySink.{MemorySinkData};

    ghost Value = { MemorySinkData };

    ghost view = { λ s. record {
      held = s.bytes.items;
      fails = s.calls.fails.items;
      calls = s.calls.made;
      faults = s.calls.faults;
    } };
}

impl MemorySink {
    /// A sink that holds nothing yet. The calls whose numbers `fails` lists fail, counted from 1.
    pub fn new(alloc: Global, fails: Vec<u64>) -> Self
        ensures { result ≡ record { held = []; fails = fails.items; calls = 0; faults = 0 } }
    {
        MemorySink {
            bytes: Vec::new(alloc),
            calls: Calls::new(fails),
        }
    }

    /// The bytes that were taken so far.
    pub fn held(&self) -> &[u8]
        ensures { result.now ≡ self.now.held }
    {
        &self.bytes
    }
}

impl Sink for MemorySink {
    ghost use Rattle.std.specs.Prelude.{Some};
    ghost use Rattle.sfx_outside.specs.MemorySink.{IsSink, SinkFailsNext, after_write, sink_after_fault};

    ghost held = { λ s. Some s.held };

    ghost faults = { λ s. s.faults };

    fn write(&mut self, piece: &[u8]) -> Result<usize, SinkFault>
        ensures valid { IsSink self.old }
        ensures fails { IsErrOf result SinkFault.Failed ↔ SinkFailsNext self.old }
        ensures count { IfOk result (λ n. n ≡ length piece.now) }
        ensures after { OnOk result (self.new ≡ after_write self.old piece.now) }
        ensures fault { IsErrOf result SinkFault.Failed → self.new ≡ sink_after_fault self.old }
        ensures memory { IsErrOf result SinkFault.Memory → self.new ≡ after_write self.old [] }
    {
        if self.calls.next_fails() {
            return Err(SinkFault::Failed);
        }
        self.bytes.extend_from_slice(piece)?;
        Ok(piece.len())
    }
}
