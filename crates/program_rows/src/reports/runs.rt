// Runs of the top call over files in memory.
use hoist_cli::Status;
use line_text::write_line;
use outside::{MemoryShelf, MemorySink, SteadySink};
use report_cli::report;
use std::alloc::{AllocError, Global};
use std::test::Fail;
use std::thread::Threads;
use worked_lines::two_hoists;

/// The words of a command as they stand between its blanks.
fn words_of(alloc: Global, command: &str) -> Result<Vec<String>, AllocError> {
    let mut words = Vec::new(alloc);
    for word in command.split(" ") {
        words.push(String::from_str(alloc, word)?)?;
    }
    Ok(words)
}

/// A shelf with the line of two hoists as `line` and these bytes as `answer`; these reads fail.
fn shelf_of(alloc: Global, answer: &str, fails: &[u64]) -> Result<MemoryShelf, Fail> {
    let line = two_hoists(alloc).ok_or("no line")?;
    let mut files = Vec::new(alloc);
    let text = write_line(alloc, &line)?;
    files.push((String::from_str(alloc, "line")?, text))?;
    let text = Vec::from_slice(alloc, answer.as_bytes())?;
    files.push((String::from_str(alloc, "answer")?, text))?;
    Ok(MemoryShelf::new(files, Vec::from_slice(alloc, fails)?))
}

/// What a run of the program wrote, and how it ended.
#[derive(Debug, Drop)]
pub(crate) struct Printed {
    pub(crate) status: Status,
    pub(crate) text: Vec<u8>,
}

/// Runs a command over an answer to the line of two hoists; these reads fail.
pub(crate) fn run<R: Threads + Sync>(
    rt: &R,
    alloc: Global,
    command: &str,
    answer: &str,
    fails: &[u64],
) -> Result<Printed, Fail> {
    let words = words_of(alloc, command)?;
    let mut shelf = shelf_of(alloc, answer, fails)?;
    let mut sink = SteadySink::new(alloc);
    let status = report(rt, alloc, words.as_slice(), &mut shelf, &mut sink);
    let text = Vec::from_slice(alloc, sink.written())?;
    Ok(Printed { status, text })
}

/// Runs a command over the same, where a write takes 15 bytes, and the second one fails.
pub(crate) fn run_with_write_fault<R: Threads + Sync>(
    rt: &R,
    alloc: Global,
    command: &str,
    answer: &str,
) -> Result<Printed, Fail> {
    let words = words_of(alloc, command)?;
    let mut shelf = shelf_of(alloc, answer, &[])?;
    let mut sink = MemorySink::new(alloc, 15, Vec::from_slice(alloc, &[1])?);
    let status = report(rt, alloc, words.as_slice(), &mut shelf, &mut sink);
    let text = Vec::from_slice(alloc, sink.written())?;
    Ok(Printed { status, text })
}
