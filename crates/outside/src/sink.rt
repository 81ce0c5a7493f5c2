// A place that bytes are written to.
ghost use Rattle.std.specs.Prelude.{◌≡◌, ℕ, ◌<◌, ◌≤◌, List, take, length, Option, IfOk, IsErrOf, alloc_error};
ghost use Rattle.outside.specs.Count.{Rose};
ghost use Rattle.outside.specs.Sink.{appended, taken};

use std::alloc::AllocError;
use thiserror::Error;

/// Why a write took nothing.
#[derive(Debug, Drop, Error)]
pub enum SinkFault {
    /// The write failed. The sink's count of faults rose.
    #[error("a write failed")]
    Failed,
    /// The sink had no memory for the bytes. Its count of wants rose.
    #[error("out of memory")]
    Memory(AllocError),
}

/// How the writing of a whole text ended.
#[derive(Clone, Copy, Debug, PartialEq, Eq)]
pub enum WriteEnd {
    /// The text was written.
    Whole,
    /// A write failed, after a prefix of the text.
    Fault,
    /// A write found no memory, after a prefix of the text.
    Memory,
}

/// A place that bytes are written to.
pub trait Sink {
    /// The bytes that were written, where they are told.
    ghost written: { Self → Option (List ℕ) };

    /// How often a write has failed.
    ghost faults: { Self → ℕ };

    /// How often a write found no memory.
    ghost wants: { Self → ℕ };

    /// Appends the first bytes of the piece and answers how many: at least one, unless the piece is
    /// empty. A refusal appends nothing; `Failed` comes only where the count of faults rose, and
    /// `Memory` only where that of wants did.
    fn write(&mut self, piece: &[u8]) -> Result<usize, SinkFault>
        ensures within { IfOk result (λ n. n ≤ length piece.now) }
        ensures progress { IfOk result (λ n. 0 < length piece.now → 0 < n) }
        ensures bytes { written self.new ≡ appended (written self.old) (taken result piece.now) }
        ensures faults_later { faults self.old ≤ faults self.new }
        ensures wants_later { wants self.old ≤ wants self.new }
        ensures failed { IsErrOf result SinkFault.Failed → Rose (faults self.old) (faults self.new) }
        ensures memory { IsErrOf result (SinkFault.Memory alloc_error)
            → Rose (wants self.old) (wants self.new) };
}

/// Writes a whole text, by as many writes as it takes.
///
/// After `Fault` and `Memory` a prefix of the text was appended. `Fault` comes only where the sink's
/// count of faults rose in this call, and `Memory` only where its count of wants did.
pub fn write_all<K: Sink>(sink: &mut K, text: &[u8]) -> WriteEnd
    ensures whole { result ≡ WriteEnd.Whole → K.written sink.new ≡ appended (K.written sink.old) text.now }
    ensures prefix { (n : ℕ) × (n ≤ length text.now)
        × (K.written sink.new ≡ appended (K.written sink.old) (take n text.now)) }
    ensures faults_later { K.faults sink.old ≤ K.faults sink.new }
    ensures wants_later { K.wants sink.old ≤ K.wants sink.new }
    ensures fault { result ≡ WriteEnd.Fault → Rose (K.faults sink.old) (K.faults sink.new) }
    ensures memory { result ≡ WriteEnd.Memory → Rose (K.wants sink.old) (K.wants sink.new) }
{
    let mut at = 0;
    while at < text.len() {
        match sink.write(&text[at..]) {
            Ok(count) => at += count,
            Err(SinkFault::Failed) => return WriteEnd::Fault,
            Err(SinkFault::Memory(_)) => return WriteEnd::Memory,
        }
    }
    WriteEnd::Whole
}
