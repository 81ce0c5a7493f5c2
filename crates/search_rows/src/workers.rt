//! Rounds by several numbers of workers: the order of the answers, two jobs at once, want of
//! memory.

ghost use Rattle.std.specs.Prelude.{◌≡◌, ◌^◌, ◌<◌, ◌≤◌, ◌+◌, ◌*◌, length};

use crate::meeting::{Meeting, TRIES};
use claim_board::Board;
use outside::{Gate, OpenGate};
use std::alloc::{AllocError, Global};
use std::test::Fail;
use std::thread::Threads;
use worker_pool::{Work, laws, run};

/// Three times a job and one more; at one job there is never memory.
#[derive(Drop)]
struct Tripled {
    starved_at: u32,
}

const NEVER_STARVED: Tripled = Tripled {
    starved_at: u32::MAX,
};

impl Work for Tripled {
    type Job = u32;

    type Out = u64;

    // How many jobs were answered in it.
    type Room = u64;

    ghost takes = { λ _ _. Unit {0} };

    ghost answers = { λ _ job answer. answer ≡ 3 * job + 1 };

    ghost serves = { λ _ _. Unit {0} };

    fn room(&self, _alloc: Global) -> Result<u64, AllocError> {
        Ok(0)
    }

    fn answer(&self, _alloc: Global, room: &mut u64, job: &u32) -> Result<u64, AllocError> {
        if *job == self.starved_at {
            return Err(AllocError);
        }
        *room = room.wrapping_add(1);
        Ok(3 * u64::from(*job) + 1)
    }

    ghost use Rattle.std.proofs.Common.{sym, ◌∙◌};

    ghost one = { λ _ _ _ _ _ first second. first ∙ sym second };
}

// The answers of a round over a board of its own, and how many claims it used.
fn answered<G: Gate, R: Threads + Sync>(
    rt: &R,
    alloc: Global,
    work: &Tripled,
    jobs: &[u32],
    workers: u32,
    gate: &G,
) -> Result<(Vec<u64>, u64), AllocError>
    requires workers { (1 ≤ workers) × (workers ≤ 64) }
    requires jobs { length jobs.now < 2 ^ 32 }
{
    let (board, mut seat) = Board::new(alloc, jobs.len() as u32, workers)?;
    let outs = run(rt, alloc, &board, &mut seat, work, jobs, workers, gate);
    let used = board.close(seat);
    Ok((outs?, used))
}

#[test]
fn answers_stand_in_order(rt: HostRuntime) -> Result<(), Fail> {
    laws::any_order::<u64>();
    let alloc = rt.alloc();
    for workers in [1, 2, 7] {
        let jobs = [4, 0, 9];
        let (outs, used) = answered(&rt, alloc, &NEVER_STARVED, &jobs, workers, &OpenGate)?;
        assert_eq!(rt;
            outs.as_slice(),
            [13, 1, 28].as_slice(),
            "{workers} workers"
        );
        assert!(rt; used > 3, "{workers} workers");
    }
    let (outs, _) = answered(&rt, alloc, &NEVER_STARVED, &[5], 64, &OpenGate)?;
    assert_eq!(rt; outs.as_slice(), [16].as_slice());
    let mut jobs = [0u32; 64];
    for i in 0..64u32 {
        jobs[i as usize] = 1000 * (i % 2) + i;
    }
    for workers in [1, 64] {
        let (outs, _) = answered(&rt, alloc, &NEVER_STARVED, &jobs, workers, &OpenGate)?;
        assert_eq!(rt; outs.len(), 64);
        for (out, job) in outs.as_slice().iter().zip(jobs.iter()) {
            assert_eq!(rt; *out, 3 * u64::from(*job) + 1, "{workers} workers");
        }
    }
    Ok(())
}

#[test]
fn two_at_once(rt: HostRuntime) -> Result<(), Fail> {
    let mut met = false;
    for _try in 0..TRIES {
        let gate = Meeting::new();
        let (outs, _) = answered(&rt, rt.alloc(), &NEVER_STARVED, &[4, 0], 2, &gate)?;
        assert_eq!(rt; outs.as_slice(), [13, 1].as_slice());
        met = gate.saw_both();
        if met {
            break;
        }
    }
    assert!(rt; met, "job 1 goes through the gate while job 0 is held");
    Ok(())
}

#[test]
fn starved_work(rt: HostRuntime) -> Result<(), Fail> {
    let starved = Tripled { starved_at: 1 };
    for workers in [1, 2] {
        let outs = answered(&rt, rt.alloc(), &starved, &[0, 1, 2], workers, &OpenGate);
        assert!(rt; outs.is_err(), "{workers} workers");
    }
    Ok(())
}
