// Bytes in memory that take every piece.
ghost use Rattle.std.specs.Prelude.{
  ◌≡◌,
  ◌<◌,
  ◌≤◌,
  ◌++◌,
  [],
  length,
  Some,
  IfOk,
  IfErr,
  OnOk,
  OnErr,
  IsErrOf,
  alloc_error,
};
ghost use Rattle.outside.specs.Count.{Rose, next_count};
ghost use Rattle.outside.specs.Sink.{taken};

use crate::{Sink, SinkFault};
use std::alloc::Global;
use std::marker::Model;

/// Bytes in memory. A write takes its piece whole, and is refused only where there is no memory for it.
#[derive(Drop)]
pub struct SteadySink {
    bytes: Vec<u8>,
    wants: u64,
}

impl Model for SteadySink {
    ghost use Rattle.outside.specs.SteadySink.{SteadySinkData};

    ghost Value = { SteadySinkData };

    ghost view = { λ sink. record { written = sink.bytes.items; wants = sink.wants } };
}

impl SteadySink {
    /// An empty sink. It takes no memory yet.
    pub fn new(alloc: Global) -> SteadySink
        ensures { result ≡ record { written = []; wants = 0 } }
    {
        SteadySink {
            bytes: Vec::new(alloc),
            wants: 0,
        }
    }

    /// The bytes that were written.
    pub fn written(&self) -> &[u8]
        ensures { result.now ≡ self.now.written }
    {
        self.bytes.as_slice()
    }
}

impl Sink for SteadySink {
    ghost written = { λ sink. Some sink.written };

    ghost faults = { λ _. 0 };

    ghost wants = { λ sink. sink.wants };

    fn write(&mut self, piece: &[u8]) -> Result<usize, SinkFault>
        ensures whole { IfOk result (λ n. n ≡ length piece.now) }
        ensures progress { IfOk result (λ n. 0 < length piece.now → 0 < n) }
        ensures bytes { self.new.written ≡ self.old.written ++ taken result piece.now }
        ensures refused { IfErr result (λ fault. fault ≡ SinkFault.Memory alloc_error) }
        ensures ok { OnOk result (self.new.wants ≡ self.old.wants) }
        ensures err { OnErr result (self.new.wants ≡ next_count self.old.wants) }
        ensures wants_later { self.old.wants ≤ self.new.wants }
        ensures memory { IsErrOf result (SinkFault.Memory alloc_error)
            → Rose self.old.wants self.new.wants }
    {
        match self.bytes.extend_from_slice(piece) {
            Ok(()) => Ok(piece.len()),
            Err(e) => {
                self.wants = self.wants.saturating_add(1);
                Err(SinkFault::Memory(e))
            }
        }
    }
}
