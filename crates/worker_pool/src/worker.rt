//! One worker at the board.

ghost use Rattle.std.specs.Prelude.{◌≡◌, ℕ, ◌+◌, ◌^◌, ◌<◌, List, [], ◌∷◌, ◌++◌, length, All, IfOk, OnOk};
ghost use Rattle.claim_board.specs.Seats.{fresh_seat};
ghost use Rattle.worker_pool.specs.Pool.{Keeps, Done, Serve};

use crate::work::Work;
use claim_board::{Board, Claim, Seat};
use outside::Gate;
use std::alloc::{AllocError, Global};

/// What a worker kept: the number of each job that it claimed, with its answer.
type Kept<T> = Result<Vec<(u32, T)>, AllocError>;

/// What a part of the workers kept, and their rooms.
pub type Part<T, R> = Result<(Vec<(u32, T)>, Vec<R>), AllocError>;

/// The part of one worker, who works in the only room.
pub fn work_in<W: Work, G: Gate>(
    alloc: Global,
    board: &Board,
    seat: &mut Seat,
    work: &W,
    jobs: &[W::Job],
    mut rooms: Vec<W::Room>,
    gate: &G,
) -> Part<W::Out, W::Room>
    requires one { length rooms.items ≡ 1 }
    requires takes { All (λ job. W.takes work.now job) jobs.now }
    requires few { length jobs.now < 2 ^ 32 }
    requires board { board.now.n ≡ length jobs.now }
    requires seat { seat.old ≡ fresh_seat board.now (length jobs.now + 1) }
    requires rooms { All (λ room. W.serves work.now room) rooms.items }
    ensures same { seat.new.board ≡ board.now }
    ensures counts { seat.new.left + seat.new.used ≡ length jobs.now + 1 }
    ensures done { IfOk result (λ part. Done (W.answers work.now) jobs.now seat.new part.0.items) }
    ensures rooms { IfOk result (λ part. Serve (W.serves work.now) 1 part.1.items) }
{
    let kept = work_alone(alloc, board, seat, work, jobs, gate, &mut rooms[0])?;
    Ok((kept, rooms))
}

/// Claims and answers jobs until none is left, in the room that it is lent, by a new seat with one claim more than
/// there are jobs. It passes the gate with each job's number. On want of memory after a claim it stops the board; where
/// the board was stopped its answer is want of memory too. On `Ok` the room serves again.
fn work_alone<W: Work, G: Gate>(
    alloc: Global,
    board: &Board,
    seat: &mut Seat,
    work: &W,
    jobs: &[W::Job],
    gate: &G,
    room: &mut W::Room,
) -> Kept<W::Out>
    requires takes { All (λ job. W.takes work.now job) jobs.now }
    requires few { length jobs.now < 2 ^ 32 }
    requires board { board.now.n ≡ length jobs.now }
    requires seat { seat.old ≡ fresh_seat board.now (length jobs.now + 1) }
    requires room { W.serves work.now room.old }
    ensures same { seat.new.board ≡ board.now }
    ensures counts { seat.new.left + seat.new.used ≡ length jobs.now + 1 }
    ensures done { IfOk result (λ kept. Done (W.answers work.now) jobs.now seat.new kept.items) }
    ensures room { OnOk result (W.serves work.now room.new) }
{
    let mut kept = Vec::new(alloc);
    loop {
        let number = match board.claim(seat) {
            Claim::Index(number) => number,
            Claim::Exhausted { seen: _ } => return Ok(kept),
            Claim::Stopped => return Err(AllocError),
        };
        gate.pass(u64::from(number));
        let Ok(()) = keep_answer(alloc, work, room, jobs, number, &mut kept) else {
            board.stop(seat);
            return Err(AllocError);
        };
    }
}

// Answers the job of a number, and keeps both.
fn keep_answer<W: Work>(
    alloc: Global,
    work: &W,
    room: &mut W::Room,
    jobs: &[W::Job],
    number: u32,
    kept: &mut Vec<(u32, W::Out)>,
) -> Result<(), AllocError>
    requires takes { All (λ job. W.takes work.now job) jobs.now }
    requires number { number < length jobs.now }
    requires room { W.serves work.now room.old }
    ensures keeps { OnOk result ((list : List ℕ) → Keeps (W.answers work.now) jobs.now list kept.old.items
        → Keeps (W.answers work.now) jobs.now (list ++ number ∷ []) kept.new.items) }
    ensures room { OnOk result (W.serves work.now room.new) }
{
    let answer = work.answer(alloc, room, &jobs[number as usize])?;
    kept.push((number, answer))?;
    Ok(())
}
