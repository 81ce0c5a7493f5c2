//! The greatest margin that the constraints leave.

ghost use Rattle.std.specs.Prelude.{◌≡◌, ℕ, ◌+◌, ◌≤◌, ◌<◌, Some, IfOk, pos, unsigned_abs, get_or};
ghost use Rattle.hoist_base.specs.LineData.{move_count};
ghost use Rattle.longest_path.specs.System.{IsReached, IsLeastSolution, Refutes};
ghost use Rattle.cycle_walk.specs.Closed.{IsFeasible, closed_walk_of, IsClosedWalk};
ghost use Rattle.window_margin.specs.Systems.{AreMarginArcs};
ghost use Rattle.window_margin.specs.Limits.{AreBounded, IsGreatest, IsLimit};
ghost use Rattle.window_margin.specs.Arcs as listed;

use crate::systems::{margin_system, turned_system};
use cycle_walk::{Climbed, Walk, climb, closed_walk};
use hoist_base::Line;
use longest_path::{Arc, LeastTicks, System, least};
use std::alloc::{AllocError, Global};

/// The greatest margin, the least ticks at it, and the canonical closed walk at 1 more.
#[derive(Drop)]
pub(crate) struct Limit {
    pub(crate) ticks: u32,
    pub(crate) starts: Vec<i64>,
    pub(crate) walk: Walk,
}

// The greatest margin that the constraints leave: the least number of ticks that is taken from the period, found by a
// climb.
fn greatest(alloc: Global, line: &Line, period: u32, arcs: &[Arc]) -> Result<u32, AllocError>
    requires arcs { AreMarginArcs line.now arcs.now }
    requires period { period ≤ 20000 }
    requires bounded { AreBounded line.now period arcs.now }
    ensures { IfOk result (λ ticks. IsGreatest line.now period arcs.now ticks) }
{
    let turned = turned_system(alloc, line, period, arcs)?;
    let climbed = climb(alloc, &turned, period + 1)?;
    match climbed {
        Climbed::Floor {
            period: taken,
            low: _low,
        } => Ok(period - taken),
        Climbed::Shut {
            low: _low,
            high: _high,
        } => unreachable!(),
    }
}

// The least ticks at a margin that the constraints leave, given as the number behind it.
fn starts_at(alloc: Global, s: &System, behind: u32) -> Result<Vec<i64>, AllocError>
    requires behind { (1 ≤ behind) × (behind ≤ 20001) }
    requires feasible { IsFeasible s.now behind }
    requires reached { (i : ℕ) → i < s.now.nodes → IsReached s.now i }
    ensures { IfOk result (λ starts. IsLeastSolution s.now behind starts.items) }
{
    let answer = least(alloc, s, behind)?;
    match answer {
        LeastTicks::Feasible(starts) => Ok(starts),
        LeastTicks::Positive => unreachable!(),
    }
}

// The canonical closed walk at a margin that they don't leave.
fn walk_at(alloc: Global, s: &System, behind: u32) -> Result<Walk, AllocError>
    requires behind { (1 ≤ behind) × (behind ≤ 20001) }
    requires shut { IsFeasible s.now behind → ⊥ }
    ensures walk { IfOk result (λ walk. closed_walk_of s.now behind ≡ Some walk) }
    ensures closed { IfOk result (λ walk. IsClosedWalk s.now walk) }
    ensures refutes { IfOk result (λ walk. Refutes walk.w walk.q behind) }
{
    let found = closed_walk(alloc, s, behind)?;
    match found {
        Some(walk) => Ok(walk),
        None => unreachable!(),
    }
}

/// The greatest margin that the constraints leave, with the least ticks at it and the canonical closed walk at 1 more.
pub(crate) fn limit_of(
    alloc: Global,
    line: &Line,
    period: u32,
    arcs: &[Arc],
) -> Result<Limit, AllocError>
    requires arcs { AreMarginArcs line.now arcs.now }
    requires period { period ≤ 20000 }
    requires bounded { AreBounded line.now period arcs.now }
    requires reached { (i : ℕ) → i < move_count line.now → IsReached (listed.margin_system line.now arcs.now) i }
    ensures { IfOk result (λ limit. IsLimit line.now period arcs.now limit) }
{
    let ticks = greatest(alloc, line, period, arcs)?;
    let system = margin_system(alloc, line, arcs)?;
    let starts = starts_at(alloc, &system, ticks + 1)?;
    let walk = walk_at(alloc, &system, ticks + 2)?;
    Ok(Limit {
        ticks,
        starts,
        walk,
    })
}
