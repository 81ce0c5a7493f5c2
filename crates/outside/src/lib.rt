//! The outside world as the rest of the program sees it: named files to read ([`Shelf`]), a place
//! to write bytes to ([`Sink`]), and a gate that each job passes ([`Gate`]).
//!
//! A shelf and a sink tell by counters whether they have failed, so that a caller's answer "the read
//! failed" or "the write failed" can be traced to the object that it was given. There are three pairs
//! of them: one in memory that never fails, one in memory that fails when told to, and one over the
//! files of the system and a writer of std, which tells no content.
#![tactic(auto)]

mod file_shelf;
mod gate;
mod memory_shelf;
mod memory_sink;
mod shelf;
mod sink;
mod std_sink;
mod steady_shelf;
mod steady_sink;

pub use file_shelf::FileShelf;
pub use gate::{Gate, OpenGate};
pub use memory_shelf::MemoryShelf;
pub use memory_sink::MemorySink;
pub use shelf::{Shelf, ShelfFault};
pub use sink::{Sink, SinkFault, WriteEnd, write_all};
pub use std_sink::StdSink;
pub use steady_shelf::SteadyShelf;
pub use steady_sink::SteadySink;

#[cfg(test)]
mod tests {
    use super::*;
    use std::alloc::Global;
    use std::process::Abort;
    use std::test::Fail;

    const TEXT: &str = "hoist answer 1\nverdict optimal\n";

    #[test]
    fn a_failed_write_leaves_a_prefix(rt: HostRuntime) -> Result<(), Fail> {
        // the most that a write takes, the write that fails, how the writing ends and after how many bytes
        let rows = [
            (16, Some(1), WriteEnd::Fault, 16),
            (1, Some(0), WriteEnd::Fault, 0),
            (1, Some(7), WriteEnd::Fault, 7),
            (31, Some(1), WriteEnd::Whole, 31),
            (5, None, WriteEnd::Whole, 31),
            (usize::MAX, None, WriteEnd::Whole, 31),
        ];
        for (take, fails, end, length) in rows {
            let mut numbers = Vec::new(rt.alloc());
            if let Some(number) = fails {
                numbers.push(number)?;
            }
            assert!(rt; 1 <= take && length <= TEXT.len());
            let mut sink = MemorySink::new(rt.alloc(), take, numbers);
            assert_eq!(rt;
                write_all(&mut sink, TEXT.as_bytes()),
                end,
                "write {fails:?}"
            );
            assert_eq!(rt;
                sink.written(),
                &TEXT.as_bytes()[..length],
                "write {fails:?}"
            );
        }
        let mut sink = SteadySink::new(rt.alloc());
        assert_eq!(rt; write_all(&mut sink, TEXT.as_bytes()), WriteEnd::Whole);
        assert_eq!(rt; write_all(&mut sink, b"tree 1\n"), WriteEnd::Whole);
        assert_eq!(rt;
            sink.written(),
            b"hoist answer 1\nverdict optimal\ntree 1\n".as_slice()
        );
        Ok(())
    }

    fn files(alloc: Global) -> Result<Vec<(String, Vec<u8>)>, Fail> {
        let mut files = Vec::new(alloc);
        for (name, text) in [("a", "first"), ("b", ""), ("a", "second")] {
            let name = String::from_str(alloc, name)?;
            let bytes = text.as_bytes().to_vec(alloc)?;
            files.push((name, bytes))?;
        }
        Ok(files)
    }

    // Each row: a name, a limit, and what the read comes to.
    fn try_reads<R: Abort + AllocGlobal, S: Shelf>(
        rt: &R,
        shelf: &mut S,
        rows: &[(&str, u64, &str)],
    ) {
        for (name, limit, want) in rows {
            let result = shelf.read(rt.alloc(), name, *limit);
            let seen = match &result {
                Ok(bytes) => bytes.as_slice(),
                Err(ShelfFault::Failed) => b"failed",
                Err(ShelfFault::TooLong) => b"too long",
                Err(ShelfFault::Memory(_)) => b"no memory",
            };
            assert_eq!(rt; seen, want.as_bytes(), "{name} up to {limit}");
        }
    }

    #[test]
    fn a_read_fails_at_its_number_alone(rt: HostRuntime) -> Result<(), Fail> {
        let mut fails = Vec::new(rt.alloc());
        fails.push(0)?;
        fails.push(5)?;
        let mut shelf = MemoryShelf::new(files(rt.alloc())?, fails);
        let rows = [
            ("a", 5, "failed"),
            ("a", 5, "first"),
            ("a", 4, "too long"),
            ("b", 0, ""),
            ("c", 9, "failed"),
            ("b", 0, "failed"),
            ("a", u64::MAX, "first"),
        ];
        try_reads(&rt, &mut shelf, &rows);
        let mut steady = SteadyShelf::new(files(rt.alloc())?);
        let rows = [
            ("a", 5, "first"),
            ("a", 4, "too long"),
            ("b", 0, ""),
            ("c", 0, ""),
        ];
        try_reads(&rt, &mut steady, &rows);
        Ok(())
    }

    fn pass_all<G: Gate>(gate: &G, jobs: u64) {
        for job in 0..jobs {
            gate.pass(job);
        }
    }

    #[test]
    fn an_open_gate_lets_all_pass() {
        pass_all(&OpenGate, 3);
    }
}
