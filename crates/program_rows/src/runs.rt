// Runs of the top calls over files in memory.
use hoist_cli::{Status, hoist};
use line_text::write_line;
use outside::{MemoryShelf, MemorySink, OpenGate, Shelf, Sink, SteadyShelf, SteadySink};
use prove_cli::hoist_prove;
use std::alloc::{AllocError, Global};
use std::test::Fail;
use std::thread::Threads;
use worked_lines::two_stations;

/// The file of the line of two stations.
pub(crate) fn stations_file(alloc: Global) -> Result<Vec<u8>, Fail> {
    let line = two_stations(alloc).ok_or("no line")?;
    Ok(write_line(alloc, &line)?)
}

/// The words of a command as they stand between its blanks.
fn words_of(alloc: Global, command: &str) -> Result<Vec<String>, AllocError> {
    let mut words = Vec::new(alloc);
    for word in command.split(" ") {
        words.push(String::from_str(alloc, word)?)?;
    }
    Ok(words)
}

/// The file named `line` and the file named `answer`.
#[derive(Clone, Copy)]
pub(crate) struct Files<'a> {
    pub(crate) line: &'a [u8],
    pub(crate) answer: &'a [u8],
}

impl<'a> Files<'a> {
    /// A file of a line alone; that of the answer is empty.
    pub(crate) fn of_line(line: &'a [u8]) -> Files<'a> {
        Files { line, answer: b"" }
    }

    /// Both files, each with its name.
    fn named(self, alloc: Global) -> Result<Vec<(String, Vec<u8>)>, AllocError> {
        let mut files = Vec::new(alloc);
        let line = Vec::from_slice(alloc, self.line)?;
        files.push((String::from_str(alloc, "line")?, line))?;
        let answer = Vec::from_slice(alloc, self.answer)?;
        files.push((String::from_str(alloc, "answer")?, answer))?;
        Ok(files)
    }
}

/// What a run of the program wrote, and how it ended.
#[derive(Debug, Drop)]
pub(crate) struct Printed {
    pub(crate) status: Status,
    pub(crate) text: Vec<u8>,
}

/// How the command, of the program that its first word names, ends over this shelf and this sink.
fn end_of<R: Threads + Sync, F: Shelf, K: Sink>(
    rt: &R,
    alloc: Global,
    command: &str,
    shelf: &mut F,
    sink: &mut K,
) -> Result<Status, AllocError> {
    let words = words_of(alloc, command)?;
    if command.starts_with("hoist_prove") {
        return Ok(hoist_prove(rt, alloc, words.as_slice(), shelf, sink));
    }
    Ok(hoist(rt, alloc, words.as_slice(), shelf, sink, &OpenGate))
}

/// Runs a command over these files.
pub(crate) fn run<R: Threads + Sync>(
    rt: &R,
    alloc: Global,
    command: &str,
    files: Files,
) -> Result<Printed, Fail> {
    let mut shelf = SteadyShelf::new(files.named(alloc)?);
    let mut sink = SteadySink::new(alloc);
    let status = end_of(rt, alloc, command, &mut shelf, &mut sink)?;
    let text = Vec::from_slice(alloc, sink.written())?;
    Ok(Printed { status, text })
}

/// A list of one number.
fn only(alloc: Global, number: u64) -> Result<Vec<u64>, AllocError> {
    let mut numbers = Vec::new(alloc);
    numbers.push(number)?;
    Ok(numbers)
}

/// Runs a command where read number `fails` fails.
pub(crate) fn run_with_read_fault<R: Threads + Sync>(
    rt: &R,
    alloc: Global,
    command: &str,
    files: Files,
    fails: u64,
) -> Result<Printed, Fail> {
    let mut shelf = MemoryShelf::new(files.named(alloc)?, only(alloc, fails)?);
    let mut sink = SteadySink::new(alloc);
    let status = end_of(rt, alloc, command, &mut shelf, &mut sink)?;
    let text = Vec::from_slice(alloc, sink.written())?;
    Ok(Printed { status, text })
}

/// Runs a command where a write takes at most `take` bytes, at least one, and write number `fails` fails.
pub(crate) fn run_with_write_fault<R: Threads + Sync>(
    rt: &R,
    alloc: Global,
    command: &str,
    files: Files,
    take: usize,
    fails: u64,
) -> Result<Printed, Fail> {
    let mut shelf = SteadyShelf::new(files.named(alloc)?);
    let mut sink = MemorySink::new(alloc, take.max(1), only(alloc, fails)?);
    let status = end_of(rt, alloc, command, &mut shelf, &mut sink)?;
    let text = Vec::from_slice(alloc, sink.written())?;
    Ok(Printed { status, text })
}
