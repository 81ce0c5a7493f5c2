// Which passes write a line, and what it says.
use super::*;
use std::io;
use std::test::Fail;
use std::time::Duration;

// A clock that goes on by some milliseconds at each reading, and a standard error that counts its lines.
#[derive(Drop)]
struct Outside {
    step: u64,
    readings: AtomicU64,
    lines: AtomicU64,
}

impl Clock for Outside {
    fn monotonic(&self) -> io::Result<Duration> {
        let readings = self.readings.fetch_add(1, Ordering::SeqCst);
        Ok(Duration::from_millis(readings.saturating_mul(self.step)))
    }

    fn since_1970(&self) -> io::Result<Duration> {
        self.monotonic()
    }
}

impl Eprint for Outside {
    fn eprint<D: Display + Drop>(&self, _value: D) -> io::Result<()> {
        Ok(())
    }

    fn eprintln<D: Display + Drop>(&self, _value: D) -> io::Result<()> {
        self.lines.fetch_add(1, Ordering::SeqCst);
        Ok(())
    }
}

fn pass_all<G: Gate>(gate: &G, jobs: u64) {
    for job in 0..jobs {
        gate.pass(job);
    }
}

#[test]
fn a_line_is_written_once_a_second(rt: HostRuntime) -> Result<(), Fail> {
    // whether lines are shown, the milliseconds between jobs, the jobs, and the lines
    let rows = [
        (true, 100, 9, 0),
        (true, 100, 10, 1),
        (true, 400, 10, 4),
        (true, 2500, 3, 3),
        (false, 2500, 3, 0),
    ];
    for (shows, step, jobs, lines) in rows {
        let outside = Outside {
            step,
            readings: AtomicU64::new(0),
            lines: AtomicU64::new(0),
        };
        let gate = ProgressGate::new(&outside, shows);
        pass_all(&gate, jobs);
        let seen = outside.lines.load(Ordering::SeqCst);
        assert_eq!(rt; seen, lines, "{jobs} jobs of {step} ms");
    }
    Ok(())
}

#[test]
fn a_later_line_stands_in_the_place_of_the_one_before(rt: HostRuntime) -> Result<(), Fail> {
    let rows = [
        (true, "hoist: 7 jobs begun, 3 s"),
        (false, "\x1b[A\x1b[2Khoist: 7 jobs begun, 3 s"),
    ];
    for (is_first, want) in rows {
        let progress = Progress {
            jobs: 7,
            seconds: 3,
            is_first,
        };
        let text = format!(in rt.alloc(); "{progress}")?;
        assert_eq!(rt; text.as_str(), want);
    }
    Ok(())
}
