//! The program: it makes the shelf of real files and standard output, and runs the top call over its words.
#![tactic(auto)]

use hoist_cli::Status;
use outside::{FileShelf, StdSink};
use report_cli::report;
use std::alloc::AllocError;
use std::io::ErrorKind;
use std::process::ExitCode;
use std::{env, io};

fn main(rt: HostRuntime) -> ExitCode {
    let alloc = rt.alloc();
    let words = match env::args(&rt) {
        Ok(args) => args.collect::<Vec<String>>(alloc),
        Err(e) if e.kind() == ErrorKind::OutOfMemory => Err(AllocError),
        // Words that can't be had, such as one that isn't UTF-8, ask nothing.
        Err(_) => Ok(Vec::new(alloc)),
    };
    let Ok(words) = words else {
        return Status::Memory.exit_code();
    };
    let mut shelf = FileShelf::new(&rt);
    let mut sink = StdSink::new(io::writer(&rt));
    report(&rt, alloc, words.as_slice(), &mut shelf, &mut sink).exit_code()
}
