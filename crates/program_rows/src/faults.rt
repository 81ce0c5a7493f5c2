// Reads and writes that fail.
use crate::answers::TWO_STATIONS_ANSWER;
use crate::runs::{Files, run_with_read_fault, run_with_write_fault, stations_file};
use hoist_cli::Status;
use std::alloc::Global;
use std::test::Fail;
use std::thread::Threads;

/// Whether a fault of write number n leaves what the writes before it took of the answer of two stations, where each
/// takes at most `take` bytes.
fn leaves_a_prefix<R: Threads + Sync>(
    rt: &R,
    alloc: Global,
    line: &[u8],
    take: usize,
    n: usize,
) -> Result<bool, Fail> {
    let files = Files::of_line(line);
    let seen = run_with_write_fault(rt, alloc, "hoist solve line", files, take, n as u64)?;
    let length = n.saturating_mul(take).min(TWO_STATIONS_ANSWER.len());
    let (written, _) = TWO_STATIONS_ANSWER
        .as_bytes()
        .split_at_checked(length)
        .ok_or("no prefix")?;
    Ok(seen.status == Status::Write && seen.text.as_slice() == written)
}

#[test]
fn each_write_that_fails_leaves_a_prefix(rt: HostRuntime) -> Result<(), Fail> {
    let alloc = rt.alloc();
    let line = stations_file(alloc)?;
    assert!(rt; leaves_a_prefix(&rt, alloc, line.as_slice(), 16, 1)?);
    for n in 0..TWO_STATIONS_ANSWER.len() {
        assert!(rt;
            leaves_a_prefix(&rt, alloc, line.as_slice(), 1, n)?,
            "write {n}"
        );
    }
    Ok(())
}

#[test]
fn each_read_that_fails_is_named(rt: HostRuntime) -> Result<(), Fail> {
    let alloc = rt.alloc();
    let line = stations_file(alloc)?;
    let rows = [
        ("hoist check line answer", 0, "read fault: line\n"),
        ("hoist check line answer", 1, "read fault: answer\n"),
        ("hoist_prove line", 0, "read fault: line\n"),
    ];
    for i in 0..rows.len() {
        let (command, fails, text) = rows[i];
        let files = Files {
            line: line.as_slice(),
            answer: TWO_STATIONS_ANSWER.as_bytes(),
        };
        let seen = run_with_read_fault(&rt, alloc, command, files, fails)?;
        assert_eq!(rt; seen.text.as_slice(), text.as_bytes(), "{command} {fails}");
        assert_eq!(rt; seen.status, Status::Read, "{command} {fails}");
    }
    Ok(())
}

#[test]
fn a_write_of_a_proof_fails(rt: HostRuntime) -> Result<(), Fail> {
    let alloc = rt.alloc();
    let line = stations_file(alloc)?;
    let files = Files::of_line(line.as_slice());
    let seen = run_with_write_fault(&rt, alloc, "hoist_prove line", files, 6, 1)?;
    assert_eq!(rt; seen.text.as_slice(), b"hoist ".as_slice());
    assert_eq!(rt; seen.status, Status::Write);
    Ok(())
}
