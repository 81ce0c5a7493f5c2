// The sweep over the degrees of a line.
ghost use Rattle.std.specs.Prelude.{◌≡◌, ◌≤◌, ◌+◌, length, IfOk};
ghost use Rattle.hoist_base.specs.Limits.{max_degree};
ghost use Rattle.degree_sweep.specs.Sweep.{period_of, IsSwept};
ghost use Rattle.degree_sweep.specs.Claims.{AreBounds, IsLeastSwept};
ghost use Rattle.degree_sweep.specs.Shown.{IsShown, AreShown};

use crate::best::best_of;
use crate::rows::{DegreeRow, Rows};
use crate::swept::Swept;
use branch_rounds::search;
use hoist_base::Line;
use node_expand::Solved;
use outside::Gate;
use solve_line::verdict_on;
use std::alloc::{AllocError, Global};
use std::thread::Threads;

/// The period of the best, where there is one.
fn period_on(best: &Option<Solved>) -> Option<u32>
    ensures { result ≡ period_of best.now }
{
    match best {
        Some(solved) => Some(solved.period),
        None => None,
    }
}

/// The row of a degree.
fn row_of<R: Threads + Sync, G: Gate>(
    rt: &R,
    alloc: Global,
    line: &Line,
    degree: u32,
    budget: u32,
    workers: u32,
    gate: &G,
) -> Result<DegreeRow, AllocError>
    requires degree { (1 ≤ degree) × (degree ≤ max_degree) }
    requires budget { budget ≤ 20000 }
    requires workers { (1 ≤ workers) × (workers ≤ 64) }
    ensures { IfOk result (λ row. IsShown line.now budget degree row) }
{
    let line = line.of_degree(alloc, degree)?;
    let outcome = search(rt, alloc, &line, budget, workers, gate)?;
    Ok(DegreeRow {
        degree,
        verdict: verdict_on(&outcome),
        bound: outcome.bound,
        splits: outcome.splits,
        period: period_on(&outcome.best),
    })
}

/// The rows of the degrees from 1 to `upto`.
fn rows_up_to<R: Threads + Sync, G: Gate>(
    rt: &R,
    alloc: Global,
    line: &Line,
    upto: u32,
    budget: u32,
    workers: u32,
    gate: &G,
) -> Result<Vec<DegreeRow>, AllocError>
    requires upto { upto ≤ max_degree }
    requires budget { budget ≤ 20000 }
    requires workers { (1 ≤ workers) × (workers ≤ 64) }
    ensures count { IfOk result (λ rows. length rows.items ≡ upto) }
    ensures rows { IfOk result (λ rows. AreShown line.now budget rows.items) }
{
    let mut rows = Vec::with_capacity(alloc, upto as usize)?;
    for below in 0..upto {
        let row = row_of(rt, alloc, line, below + 1, budget, workers, gate)?;
        rows.push(row)?;
    }
    Ok(rows)
}

/// Searches the line with each degree from 1 to `upto`, 1 to 4, each under the budget of splits, and names the degree
/// at which the period for each carrier is least. The number of workers, 1 to 64, and the gate have no part in it.
///
/// No legal timetable of a degree has a period below the bound of its row. Where no row is open, none of these degrees
/// has a legal timetable, of a period that the line allows, with less period for each carrier than the best.
///
/// # Errors
///
/// Only for want of memory.
pub fn sweep<R: Threads + Sync, G: Gate>(
    rt: &R,
    alloc: Global,
    line: &Line,
    upto: u32,
    budget: u32,
    workers: u32,
    gate: &G,
) -> Result<Swept, AllocError>
    requires upto { (1 ≤ upto) × (upto ≤ max_degree) }
    requires budget { budget ≤ 20000 }
    requires workers { (1 ≤ workers) × (workers ≤ 64) }
    ensures swept { IfOk result (λ swept. IsSwept line.now upto budget swept) }
    ensures bounds { IfOk result (λ swept. AreBounds line.now swept.rows) }
    ensures least { IfOk result (λ swept. IsLeastSwept line.now upto swept) }
{
    let rows = rows_up_to(rt, alloc, line, upto, budget, workers, gate)?;
    let best = best_of(rows.as_slice());
    Ok(Swept {
        rows: Rows::from_vec(rows),
        best,
    })
}
