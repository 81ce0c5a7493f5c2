// Several lines, solved by several workers.
ghost use Rattle.std.specs.Prelude.{◌≡◌, ◌≤◌, length, IfOk};
ghost use Rattle.batch_lines.specs.Batch.{AreSingles};
ghost use Rattle.batch_lines.specs.Parts.{IsBatchText};

use crate::parts::push_parts;
use crate::reads::sorted_out;
use crate::single::Singles;
use crate::solving::Solving;
use claim_board::Board;
use hoist_base::Line;
use line_text::LineRead;
use outside::Gate;
use std::alloc::{AllocError, Global};
use std::thread::Threads;
use text_writing::push_word_number;
use worker_pool::run;

/// What is printed of each of at most 64 lines, in the order of the lines, each under a budget of at most 500 splits.
/// The lines are jobs of 1 to 64 workers, which have no part in what is printed, and pass the gate by their number.
/// There are no more workers than lines.
///
/// # Errors
///
/// Only for want of memory.
pub fn batch<R: Threads + Sync, G: Gate>(
    rt: &R,
    alloc: Global,
    lines: &[Line],
    budget: u32,
    workers: u32,
    gate: &G,
) -> Result<Singles, AllocError>
    requires few { length lines.now ≤ 64 }
    requires budget { budget ≤ 500 }
    requires workers { (1 ≤ workers) × (workers ≤ 64) }
    ensures { IfOk result (λ singles. AreSingles lines.now budget singles) }
{
    let workers = workers.min(lines.len().max(1) as u32);
    let (board, mut seat) = Board::new(alloc, lines.len() as u32, workers)?;
    let work = Solving { budget };
    let singles = run(rt, alloc, &board, &mut seat, &work, lines, workers, gate);
    board.close(seat);
    Ok(Singles::from_vec(singles?))
}

/// The text of a batch, by what was read of each of its at most 64 files: a part for each file, which is what is
/// printed of its line, or why it is no line; and last how many files there are.
///
/// # Errors
///
/// Only for want of memory.
pub fn batch_text<R: Threads + Sync, G: Gate>(
    rt: &R,
    alloc: Global,
    reads: Vec<LineRead>,
    budget: u32,
    workers: u32,
    gate: &G,
) -> Result<Vec<u8>, AllocError>
    requires few { length reads.items ≤ 64 }
    requires budget { budget ≤ 500 }
    requires workers { (1 ≤ workers) × (workers ≤ 64) }
    ensures { IfOk result (λ text. IsBatchText budget reads.items text.items) }
{
    let (lines, whys) = sorted_out(alloc, reads)?;
    let singles = batch(rt, alloc, lines.as_slice(), budget, workers, gate)?;
    let files = whys.as_slice();
    let mut text = Vec::new(alloc);
    push_parts(&mut text, alloc, files, singles.as_slice())?;
    push_word_number(&mut text, b"done ", files.len() as u64)?;
    text.push(b'\n')?;
    Ok(text)
}
