//! A round: several workers on one list of jobs.

ghost use Rattle.std.specs.Prelude.{◌≡◌, ℕ, ◌+◌, ◌-◌, ◌*◌, ◌^◌, ◌<◌, ◌≤◌, true, length, All, IfOk, OnOk, OnErr};
ghost use Rattle.std.specs.Thread.{IsSync};
ghost use Rattle.claim_board.specs.Tidy.{EachOnceBelow};
ghost use Rattle.claim_board.specs.Seats.{HasAll, fresh_seat};
ghost use Rattle.worker_pool.specs.Pool.{Done, Serve, AreAnswers};

use crate::order::{answers, both, places};
use crate::work::Work;
use crate::worker::{Part, work_in};
use claim_board::{Board, Seat};
use outside::Gate;
use std::alloc::{AllocError, Global};
use std::thread::{Threads, join};

/// The answers of the jobs, in the order of the jobs, by 1 to 64 workers, each in a new room. The board numbers the
/// jobs for these workers, and the seat has all its claims and has used none. On `Ok` the seat drew each job's number
/// exactly once. Whatever the answer, it has all claims again, left or used. With one worker no thread is started.
pub fn run<W: Work, G: Gate, R: Threads + Sync>(
    rt: &R,
    alloc: Global,
    board: &Board,
    seat: &mut Seat,
    work: &W,
    jobs: &[W::Job],
    workers: u32,
    gate: &G,
) -> Result<Vec<W::Out>, AllocError>
    requires workers { (1 ≤ workers) × (workers ≤ 64) }
    requires few { length jobs.now < 2 ^ 32 }
    requires takes { All (λ job. W.takes work.now job) jobs.now }
    requires board { (board.now.n ≡ length jobs.now) × (board.now.workers ≡ workers) }
    requires seat { (seat.old.board ≡ board.now) × (seat.old.used ≡ 0)
        × (seat.old.left ≡ workers * (length jobs.now + 1)) }
    ensures answers { IfOk result (λ outs. AreAnswers (W.answers work.now) jobs.now outs.items) }
    ensures each { OnOk result (EachOnceBelow (length jobs.now) seat.new.list) }
    ensures ended { OnOk result (seat.new.read_end ≡ true) }
    ensures same { seat.new.board ≡ board.now }
    ensures all { HasAll seat.new }
{
    let mut rooms = Vec::new(alloc);
    run_in(
        rt, alloc, board, seat, work, jobs, workers, &mut rooms, gate,
    )
}

/// `run` in rooms that are kept: each worker has one of them, and those that are lacking are made first. Whatever the
/// answer, all rooms that are left serve again; after want of memory some may be gone.
pub fn run_in<W: Work, G: Gate, R: Threads + Sync>(
    rt: &R,
    alloc: Global,
    board: &Board,
    seat: &mut Seat,
    work: &W,
    jobs: &[W::Job],
    workers: u32,
    rooms: &mut Vec<W::Room>,
    gate: &G,
) -> Result<Vec<W::Out>, AllocError>
    requires workers { (1 ≤ workers) × (workers ≤ 64) }
    requires few { length jobs.now < 2 ^ 32 }
    requires takes { All (λ job. W.takes work.now job) jobs.now }
    requires board { (board.now.n ≡ length jobs.now) × (board.now.workers ≡ workers) }
    requires seat { (seat.old.board ≡ board.now) × (seat.old.used ≡ 0)
        × (seat.old.left ≡ workers * (length jobs.now + 1)) }
    requires rooms { All (λ room. W.serves work.now room) rooms.old.items }
    ensures answers { IfOk result (λ outs. AreAnswers (W.answers work.now) jobs.now outs.items) }
    ensures each { OnOk result (EachOnceBelow (length jobs.now) seat.new.list) }
    ensures ended { OnOk result (seat.new.read_end ≡ true) }
    ensures same { seat.new.board ≡ board.now }
    ensures all { HasAll seat.new }
    ensures rooms { All (λ room. W.serves work.now room) rooms.new.items }
{
    let taken = take_rooms(alloc, work, rooms, workers as usize)?;
    let claims = u64::from(workers) * (jobs.len() as u64 + 1);
    let whole = board.split(alloc, seat, claims)?;
    let (whole, part) = share_out(rt, alloc, board, whole, work, jobs, taken, gate);
    board.join(seat, whole);
    let (kept, mut taken) = part?;
    rooms.append(&mut taken)?;
    let places = places(alloc, kept, jobs.len())?;
    let outs = answers(alloc, places)?;
    Ok(outs)
}

// Takes out so many rooms, after it made those that are lacking.
fn take_rooms<W: Work>(
    alloc: Global,
    work: &W,
    rooms: &mut Vec<W::Room>,
    count: usize,
) -> Result<Vec<W::Room>, AllocError>
    requires { All (λ room. W.serves work.now room) rooms.old.items }
    ensures taken { IfOk result (λ taken. Serve (W.serves work.now) count taken.items) }
    ensures rest { All (λ room. W.serves work.now room) rooms.new.items }
{
    for _room in rooms.len()..count {
        let room = work.room(alloc)?;
        rooms.push(room)?;
    }
    rooms.split_off(rooms.len() - count)
}

// Gives each worker a seat with one claim more than there are jobs, and a room. The workers are halved until one is
// left, so that the threads stand in a tree.
fn share_out<W: Work, G: Gate, R: Threads + Sync>(
    rt: &R,
    alloc: Global,
    board: &Board,
    mut seat: Seat,
    work: &W,
    jobs: &[W::Job],
    mut rooms: Vec<W::Room>,
    gate: &G,
) -> (Seat, Part<W::Out, W::Room>)
    requires workers { (1 ≤ length rooms.items) × (length rooms.items ≤ 64) }
    requires few { length jobs.now < 2 ^ 32 }
    requires takes { All (λ job. W.takes work.now job) jobs.now }
    requires board { board.now.n ≡ length jobs.now }
    requires seat { seat ≡ fresh_seat board.now (length rooms.items * (length jobs.now + 1)) }
    requires rooms { All (λ room. W.serves work.now room) rooms.items }
    ensures same { result.0.board ≡ board.now }
    ensures counts { result.0.left + result.0.used ≡ length rooms.items * (length jobs.now + 1) }
    ensures done { IfOk result.1 (λ part.
        Done (W.answers work.now) jobs.now result.0 part.0.items) }
    ensures rooms { IfOk result.1 (λ part. Serve (W.serves work.now) (length rooms.items) part.1.items) }
{
    let workers = rooms.len() as u32;
    if workers == 1 {
        let part = work_in(alloc, board, &mut seat, work, jobs, rooms, gate);
        return (seat, part);
    }
    let half = workers / 2;
    let rest = workers - half;
    let Ok(others) = rooms.split_off(rest as usize) else {
        return (seat, Err(AllocError));
    };
    let Ok(other) = cut_off(alloc, board, &mut seat, jobs.len(), rest, half) else {
        return (seat, Err(AllocError));
    };
    let (mine, theirs) = join(
        rt,
        move || -> (Seat, Part<W::Out, W::Room>)
            requires { IsSync R.row × (1 ≤ length rooms.items) × (length rooms.items ≤ 64) × (length jobs.now < 2 ^ 32)
                × All (λ job. W.takes work.now job) jobs.now × (board.now.n ≡ length jobs.now)
                × (seat ≡ fresh_seat board.now (length rooms.items * (length jobs.now + 1)))
                × All (λ room. W.serves work.now room) rooms.items }
            ensures { (result.0.board ≡ board.entry.now)
                × (result.0.left + result.0.used ≡ length rooms.items * (length jobs.entry.now + 1))
                × IfOk result.1 (λ part.
                Done (W.answers work.entry.now) jobs.entry.now result.0 part.0.items)
                × IfOk result.1 (λ part. Serve (W.serves work.entry.now) (length rooms.items) part.1.items) }
        { share_out(rt, alloc, board, seat, work, jobs, rooms, gate) },
        move || -> (Seat, Part<W::Out, W::Room>)
            requires { IsSync R.row × (1 ≤ length others.items) × (length others.items ≤ 64)
                × (length jobs.now < 2 ^ 32)
                × All (λ job. W.takes work.now job) jobs.now × (board.now.n ≡ length jobs.now)
                × (other ≡ fresh_seat board.now (length others.items * (length jobs.now + 1)))
                × All (λ room. W.serves work.now room) others.items }
            ensures { (result.0.board ≡ board.entry.now)
                × (result.0.left + result.0.used ≡ length others.items * (length jobs.entry.now + 1))
                × IfOk result.1 (λ part.
                Done (W.answers work.entry.now) jobs.entry.now result.0 part.0.items)
                × IfOk result.1 (λ part. Serve (W.serves work.entry.now) (length others.items) part.1.items) }
        { share_out(rt, alloc, board, other, work, jobs, others, gate) },
    );
    joined(board, work, jobs, mine, theirs)
}

// Cuts the claims of `half` workers off a new seat that has those of `rest` workers too.
fn cut_off(
    alloc: Global,
    board: &Board,
    seat: &mut Seat,
    jobs: usize,
    rest: u32,
    half: u32,
) -> Result<Seat, AllocError>
    requires workers { rest + half ≤ 64 }
    requires jobs { jobs < 2 ^ 32 }
    requires seat { seat.old ≡ fresh_seat board.now ((rest + half) * (jobs + 1)) }
    ensures given { IfOk result (λ other. other ≡ fresh_seat board.now (half * (jobs + 1))) }
    ensures kept { OnOk result (seat.new ≡ fresh_seat board.now (rest * (jobs + 1))) }
    ensures err { OnErr result (seat.new ≡ seat.old) }
{
    let share = u64::from(half) * (jobs as u64 + 1);
    board.split(alloc, seat, share)
}

// Joins the seats of two parts of the workers, what these kept, and their rooms.
fn joined<W: Work>(
    board: &Board,
    work: &W,
    jobs: &[W::Job],
    mine: (Seat, Part<W::Out, W::Room>),
    theirs: (Seat, Part<W::Out, W::Room>),
) -> (Seat, Part<W::Out, W::Room>)
    requires of_board { (mine.0.board ≡ board.now) × (theirs.0.board ≡ board.now) }
    ensures same { result.0.board ≡ board.now }
    ensures counts { result.0.left + result.0.used
        ≡ (mine.0.left + mine.0.used) + (theirs.0.left + theirs.0.used) }
    ensures done { IfOk mine.1 (λ part. Done (W.answers work.now) jobs.now mine.0 part.0.items)
        → IfOk theirs.1 (λ part. Done (W.answers work.now) jobs.now theirs.0 part.0.items)
        → IfOk result.1 (λ part. Done (W.answers work.now) jobs.now result.0 part.0.items) }
    ensures rooms { (m n : ℕ) → IfOk mine.1 (λ part. Serve (W.serves work.now) m part.1.items)
        → IfOk theirs.1 (λ part. Serve (W.serves work.now) n part.1.items)
        → IfOk result.1 (λ part. Serve (W.serves work.now) (m + n) part.1.items) }
{
    let (mut seat, part) = mine;
    let (other, more) = theirs;
    board.join(&mut seat, other);
    (seat, both(part, more))
}
