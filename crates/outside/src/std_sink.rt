// Standard output, and other writers of std.
ghost use Rattle.std.specs.Prelude.{◌≡◌, ◌<◌, ◌≤◌, length, None, IfOk, IfErr};
ghost use Rattle.std.specs.Io.KnownBytes.{WriteAppends};

use crate::{Sink, SinkFault};
use std::io::{ErrorKind, Write};
use std::marker::Model;

/// A writer of std, such as standard output, as a sink. It tells no bytes and never wants memory; in
/// contracts it is its count of faults.
#[derive(Drop)]
pub struct StdSink<W: Write> {
    out: W,
    faults: u64,
}

impl<W: Write> Model for StdSink<W> {
    ghost use Rattle.std.specs.Prelude.{ℕ};

    ghost Value = { ℕ };

    ghost view = { λ sink. sink.faults };
}

impl<W: Write> StdSink<W> {
    /// A sink that writes to this writer. No write has failed yet.
    pub fn new(out: W) -> StdSink<W>
        ensures { result ≡ 0 }
    {
        StdSink { out, faults: 0 }
    }
}

// Hands the piece to the writer until it takes some of it. A write that was interrupted is tried again;
// one that takes nothing of a piece that isn't empty has failed.
fn hand_on<W: Write>(out: &mut W, piece: &[u8]) -> Result<usize, SinkFault>
    ensures within { IfOk result (λ n. n ≤ length piece.now) }
    ensures progress { IfOk result (λ n. 0 < length piece.now → 0 < n) }
    ensures bytes { WriteAppends (W.contents out.old) (W.contents out.new) result piece.now }
    ensures no_memory { IfErr result (λ fault. fault ≡ SinkFault.Failed) }
{
    for _ in 0..u64::MAX {
        match out.write(piece) {
            Ok(0) if !piece.is_empty() => break,
            Ok(count) => return Ok(count),
            Err(e) => {
                if e.kind() != ErrorKind::Interrupted {
                    break;
                }
            }
        }
    }
    Err(SinkFault::Failed)
}

impl<W: Write> Sink for StdSink<W> {
    ghost written = { λ _. None };

    ghost faults = { λ sink. sink };

    ghost wants = { λ _. 0 };

    fn write(&mut self, piece: &[u8]) -> Result<usize, SinkFault> {
        let result = hand_on(&mut self.out, piece);
        if result.is_err() {
            self.faults = self.faults.saturating_add(1);
        }
        result
    }
}

#[cfg(test)]
mod tests {
    use super::*;
    use crate::{WriteEnd, write_all};
    use std::fs::OpenOptions;
    use std::io;
    use std::test::Fail;

    // A writer that is interrupted before each write, takes two bytes at a time, and none at its end.
    #[derive(Drop)]
    struct Narrow {
        room: usize,
        interrupted: bool,
    }

    impl Write for Narrow {
        fn write(&mut self, piece: &[u8]) -> io::Result<usize> {
            self.interrupted = !self.interrupted;
            if self.interrupted {
                return Err(io::Error::from(ErrorKind::Interrupted));
            }
            let count = piece.len().min(2).min(self.room);
            self.room -= count;
            Ok(count)
        }

        fn flush(&mut self) -> io::Result<()> {
            Ok(())
        }
    }

    #[test]
    fn a_writer_that_takes_nothing_is_a_fault(rt: HostRuntime) {
        for (room, end) in [
            (7, WriteEnd::Whole),
            (6, WriteEnd::Fault),
            (0, WriteEnd::Fault),
        ] {
            let mut out = Narrow {
                room,
                interrupted: false,
            };
            assert_eq!(rt;
                write_all(&mut StdSink::new(&mut out), b"tick 0\n"),
                end,
                "{room} bytes"
            );
        }
    }

    #[test]
    fn standard_output_and_a_full_disk(rt: HostRuntime) -> Result<(), Fail> {
        let mut sink = StdSink::new(io::writer(&rt));
        assert_eq!(rt; write_all(&mut sink, b"tick 0\n"), WriteEnd::Whole);
        let full = OpenOptions::new().write(true).open(&rt, "/dev/full")?;
        assert_eq!(rt;
            write_all(&mut StdSink::new(full), b"tick 0\n"),
            WriteEnd::Fault
        );
        Ok(())
    }
}
