// Searches of the worked lines through gates; what they come to is tried on the linked program.
use branch_rounds::{Outcome, search};
use outside::Gate;
use std::hint::spin_loop;
use std::sync::atomic::{AtomicBool, AtomicU64, Ordering};
use std::test::Fail;
use worked_lines::one_bath;

// The best's period, the splits, the paths left and the bound.
type Counts = (Option<u32>, u32, u32, u32);

fn counts(outcome: &Outcome) -> Counts {
    let period = outcome.best.as_ref().map(|best| best.period);
    (period, outcome.splits, outcome.left, outcome.bound)
}

/// It counts the jobs that pass.
#[derive(Drop)]
struct Counting {
    passed: AtomicU64,
}

impl Gate for Counting {
    fn pass(&self, _job: u64) {
        self.passed.fetch_add(1, Ordering::SeqCst);
    }
}

// Two splits make a tree of five nodes, each of which is expanded once, whatever the number of workers.
#[test]
fn each_path_passes_the_gate(rt: HostRuntime) -> Result<(), Fail> {
    let alloc = rt.alloc();
    let line = one_bath(alloc).ok_or("no line")?;
    for workers in [1, 64] {
        let gate = Counting {
            passed: AtomicU64::new(0),
        };
        let outcome = search(&rt, alloc, &line, 400, workers, &gate)?;
        assert_eq!(rt; counts(&outcome), (Some(21), 2, 0, 21), "{workers} workers");
        assert_eq!(rt; gate.passed.load(Ordering::SeqCst), 5, "{workers} workers");
    }
    Ok(())
}

// How often a held job looks whether the other came.
const TURNS: u32 = 1 << 26;

// The tries in which two jobs have to meet once.
const TRIES: u32 = 8;

/// It holds job 0 of the second round until job 1 has gone through, for so many turns at most.
#[derive(Drop)]
struct Meeting {
    begun: AtomicBool,
    held: AtomicBool,
    gone: AtomicBool,
    seen: AtomicBool,
}

impl Gate for Meeting {
    fn pass(&self, job: u64) {
        if !self.begun.swap(true, Ordering::SeqCst) {
            return;
        }
        if job == 1 {
            self.gone.store(true, Ordering::SeqCst);
            return;
        }
        if self.held.swap(true, Ordering::SeqCst) {
            return;
        }
        for _turn in 0..TURNS {
            if self.gone.load(Ordering::SeqCst) {
                break;
            }
            spin_loop();
        }
        self.seen
            .store(self.gone.load(Ordering::SeqCst), Ordering::SeqCst);
    }
}

// The first round has one path, and the second two.
#[test]
fn search_at_once(rt: HostRuntime) -> Result<(), Fail> {
    let alloc = rt.alloc();
    let line = one_bath(alloc).ok_or("no line")?;
    let mut met = false;
    for _try in 0..TRIES {
        let gate = Meeting {
            begun: AtomicBool::new(false),
            held: AtomicBool::new(false),
            gone: AtomicBool::new(false),
            seen: AtomicBool::new(false),
        };
        let outcome = search(&rt, alloc, &line, 400, 2, &gate)?;
        assert_eq!(rt; counts(&outcome), (Some(21), 2, 0, 21));
        met = gate.seen.load(Ordering::SeqCst);
        if met {
            break;
        }
    }
    assert!(rt; met, "job 1 goes through the gate while job 0 is held");
    Ok(())
}
