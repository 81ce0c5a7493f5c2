// A gate at which two jobs have to meet.
use outside::Gate;
use std::hint::spin_loop;
use std::sync::atomic::{AtomicBool, Ordering};

/// How often a held job looks whether the other came.
const TURNS: u32 = 1 << 26;

/// The tries in which two jobs have to meet once.
pub(crate) const TRIES: u32 = 8;

/// It holds job 0 until job 1 has gone through, for so many turns at most.
#[derive(Drop)]
pub(crate) struct Meeting {
    gone: AtomicBool,
    seen: AtomicBool,
}

impl Meeting {
    /// A gate that no job has passed.
    pub(crate) fn new() -> Meeting {
        Meeting {
            gone: AtomicBool::new(false),
            seen: AtomicBool::new(false),
        }
    }

    /// Whether job 1 went through while job 0 was held.
    pub(crate) fn saw_both(&self) -> bool {
        self.seen.load(Ordering::SeqCst)
    }
}

impl Gate for Meeting {
    fn pass(&self, job: u64) {
        if job == 1 {
            self.gone.store(true, Ordering::SeqCst);
            return;
        }
        for _turn in 0..TURNS {
            if self.gone.load(Ordering::SeqCst) {
                break;
            }
            spin_loop();
        }
        self.seen
            .store(self.gone.load(Ordering::SeqCst), Ordering::SeqCst);
    }
}
