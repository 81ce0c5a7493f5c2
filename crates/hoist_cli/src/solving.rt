// The command `solve`.
ghost use Rattle.std.specs.Prelude.{◌≡◌, ◌≤◌, IfOk};
ghost use Rattle.hoist_cli.specs.Reading.{reading};
ghost use Rattle.hoist_cli.specs.Solved.{IsSolved, SolveReply, status_of};
ghost use Rattle.hoist_cli.specs.Stops.{Gives};

use crate::files::line_in;
use crate::replies::{Reply, Stop};
use crate::status::Status;
use answer_text::{Verdict, write_answer};
use hoist_base::Line;
use outside::{Gate, Shelf};
use solve_line::solve;
use std::alloc::{AllocError, Global};
use std::thread::Threads;

/// The status of an answer's verdict.
pub fn status_on(verdict: Verdict) -> Status
    ensures { result ≡ status_of verdict }
{
    match verdict {
        Verdict::Optimal => Status::Done,
        Verdict::Nothing => Status::Negative,
        Verdict::Unfinished => Status::Unfinished,
    }
}

/// The reply to a valid line.
fn solved<R: Threads + Sync, G: Gate>(
    rt: &R,
    alloc: Global,
    line: &Line,
    budget: u32,
    workers: u32,
    gate: &G,
) -> Result<Reply, AllocError>
    requires budget { budget ≤ 20000 }
    requires workers { (1 ≤ workers) × (workers ≤ 64) }
    ensures { IfOk result (λ reply. IsSolved budget line.now reply.status reply.text.items) }
{
    let answer = solve(rt, alloc, line, budget, workers, gate)?;
    let text = write_answer(alloc, line, &answer)?;
    Ok(Reply {
        status: status_on(answer.verdict),
        text,
    })
}

/// The reply to a request to solve the line of a file.
pub(crate) fn solve_file<R: Threads + Sync, F: Shelf, G: Gate>(
    rt: &R,
    alloc: Global,
    file: &str,
    budget: u32,
    workers: u32,
    shelf: &mut F,
    gate: &G,
) -> Result<Reply, Stop>
    requires budget { budget ≤ 20000 }
    requires workers { (1 ≤ workers) × (workers ≤ 64) }
    ensures { Gives (SolveReply (reading (F.files shelf.old) (F.faults shelf.old)
        (F.faults shelf.new)) file.now budget) result }
{
    let line = line_in(alloc, file, shelf)?;
    let reply = solved(rt, alloc, &line, budget, workers, gate)?;
    Ok(reply)
}
