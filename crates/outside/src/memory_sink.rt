// Bytes in memory that take a piece by parts, and whose writes fail when told to.
ghost use Rattle.std.specs.Prelude.{◌≡◌, ◌↔◌, ◌<◌, ◌≤◌, [], length, min, Contains, Some, IfOk, IsErrOf, alloc_error};
ghost use Rattle.outside.specs.Count.{Rose};
ghost use Rattle.outside.specs.MemorySink.{after_write};

use crate::{Sink, SinkFault};
use std::alloc::Global;
use std::marker::Model;

/// Bytes in memory. A write takes a part of its piece, and fails where its number is among those that
/// were told to fail; the first write has number 0.
#[derive(Drop)]
pub struct MemorySink {
    bytes: Vec<u8>,
    most: usize,
    fails: Vec<u64>,
    writes: u64,
    faults: u64,
    wants: u64,
}

impl Model for MemorySink {
    ghost use Rattle.std.specs.Prelude.{◌≤◌};
    ghost use Rattle.outside.specs.MemorySink.{MemorySinkData};

    ghost Value = { MemorySinkData };

    ghost view = { λ sink. record {
      written = sink.bytes.items;
      most = sink.most;
      fails = sink.fails.items;
      writes = sink.writes;
      faults = sink.faults;
      wants = sink.wants;
    } };

    ghost invariant = { λ sink. 1 ≤ sink.most };
}

impl MemorySink {
    /// An empty sink whose writes take at most `take` bytes, and whose writes of the numbers in `fails`
    /// fail. It takes no memory yet.
    pub fn new(alloc: Global, take: usize, fails: Vec<u64>) -> MemorySink
        requires { 1 ≤ take }
        ensures { result ≡ record {
          written = [];
          most = take;
          fails = fails.items;
          writes = 0;
          faults = 0;
          wants = 0;
        } }
    {
        MemorySink {
            bytes: Vec::new(alloc),
            most: take,
            fails,
            writes: 0,
            faults: 0,
            wants: 0,
        }
    }

    /// The bytes that were written.
    pub fn written(&self) -> &[u8]
        ensures { result.now ≡ self.now.written }
    {
        self.bytes.as_slice()
    }
}

impl Sink for MemorySink {
    ghost written = { λ sink. Some sink.written };

    ghost faults = { λ sink. sink.faults };

    ghost wants = { λ sink. sink.wants };

    fn write(&mut self, piece: &[u8]) -> Result<usize, SinkFault>
        ensures failed { IsErrOf result SinkFault.Failed ↔ Contains self.old.fails self.old.writes }
        ensures part { IfOk result (λ n. n ≡ min self.old.most (length piece.now)) }
        ensures progress { IfOk result (λ n. 0 < length piece.now → 0 < n) }
        ensures counted { self.new ≡ after_write self.old piece.now result }
        ensures faults_later { self.old.faults ≤ self.new.faults }
        ensures wants_later { self.old.wants ≤ self.new.wants }
        ensures cause { IsErrOf result SinkFault.Failed → Rose self.old.faults self.new.faults }
        ensures memory { IsErrOf result (SinkFault.Memory alloc_error)
            → Rose self.old.wants self.new.wants }
    {
        let fails = self.fails.contains(&self.writes);
        self.writes = self.writes.saturating_add(1);
        if fails {
            self.faults = self.faults.saturating_add(1);
            return Err(SinkFault::Failed);
        }
        let count = self.most.min(piece.len());
        match self.bytes.extend_from_slice(&piece[..count]) {
            Ok(()) => Ok(count),
            Err(e) => {
                self.wants = self.wants.saturating_add(1);
                Err(SinkFault::Memory(e))
            }
        }
    }
}
