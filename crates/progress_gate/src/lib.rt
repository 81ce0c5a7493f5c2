//! A gate that shows on standard error how many jobs of a long run have begun.
//!
//! It learns of a job that it begins, and its number, and nothing else. What it writes goes to standard error alone,
//! so no byte of an answer depends on it.
#![tactic(auto)]

use outside::Gate;
use std::fmt::{Display, Formatter};
use std::rt::{Clock, Env};
use std::sync::atomic::{AtomicU64, Ordering};
use std::time::Instant;
use std::{env, fmt};

/// The variable of the environment that turns progress off, and its value for that.
const VARIABLE: &str = "HOIST_PROGRESS";

const OFF: &str = "0";

/// Takes the cursor of a terminal to the line above, and clears that line.
const LINE_ABOVE: &str = "\x1b[A\x1b[2K";

/// A gate that counts the jobs which pass it. From the first second of a run on it writes at most one line a second
/// to standard error, in the place of the line before.
#[derive(Drop)]
pub struct ProgressGate<'a, R: Clock + Eprint> {
    rt: &'a R,
    // When the run began; None where nothing is shown.
    begun: Option<Instant>,
    passed: AtomicU64,
    // The second in which a line was written last; 0 where there is none yet.
    written: AtomicU64,
}

// What a line says.
#[derive(Drop)]
struct Progress {
    jobs: u64,
    seconds: u64,
    is_first: bool,
}

impl Display for Progress {
    fn fmt<W: fmt::Write>(&self, f: &mut Formatter<W>) -> fmt::Result {
        if !self.is_first {
            f.write_str(LINE_ABOVE)?;
        }
        write!(f, "hoist: {} jobs begun, {} s", self.jobs, self.seconds)
    }
}

/// Whether the environment lets progress be shown: `HOIST_PROGRESS` isn't `0`.
pub fn is_wanted<R: Env + AllocGlobal>(rt: &R) -> bool {
    match env::var(rt, VARIABLE) {
        Ok(value) => value.as_str() != OFF,
        Err(_) => true,
    }
}

impl<'a, R: Clock + Eprint> ProgressGate<'a, R> {
    /// A gate of a run that begins now. Where `shows` is false, or the clock can't be read, it writes nothing.
    pub fn new(rt: &'a R, shows: bool) -> ProgressGate<'a, R> {
        let begun = if shows { Instant::now(rt).ok() } else { None };
        ProgressGate {
            rt,
            begun,
            passed: AtomicU64::new(0),
            written: AtomicU64::new(0),
        }
    }

    // Writes a line, where none was written in this second.
    fn show(&self, jobs: u64, seconds: u64) {
        let last = self.written.load(Ordering::SeqCst);
        if seconds <= last {
            return;
        }
        // Of several workers one writes.
        let turn = self
            .written
            .compare_exchange(last, seconds, Ordering::SeqCst, Ordering::SeqCst);
        if turn.is_ok() {
            let is_first = last == 0;
            // A line that can't be written is no fault of the run.
            let _ = self.rt.eprintln(Progress {
                jobs,
                seconds,
                is_first,
            });
        }
    }
}

impl<R: Clock + Eprint + Sync> Gate for ProgressGate<'_, R> {
    fn pass(&self, _job: u64) {
        if let Some(begun) = self.begun {
            let before = self.passed.fetch_add(1, Ordering::SeqCst);
            if let Ok(time) = begun.elapsed(self.rt) {
                self.show(before.saturating_add(1), time.as_secs());
            }
        }
    }
}

#[cfg(test)]
mod tests;
