//! Walks by the moves that their constraints join.

ghost use Rattle.std.specs.Prelude.{◌≡◌, ℕ, ◌<◌, ◌≤ℤ◌, pos, length, get_or, IfOk};
ghost use Rattle.hoist_base.specs.LineData.{move_count};
ghost use Rattle.window_margin.specs.Systems.{AreMarginArcs};
ghost use Rattle.window_margin.specs.Found.{named_arc, named_walk};

use crate::reads::{MarginArc, MarginWalk};
use hoist_base::Line;
use longest_path::Arc;
use std::alloc::{AllocError, Global};

// A constraint by the moves that it joins.
fn named(line: &Line, a: Arc) -> MarginArc
    requires from { a.from < move_count line.now }
    requires to { a.to < move_count line.now }
    requires q { (pos 0 ≤ℤ a.q) × (a.q ≤ℤ pos 1) }
    ensures { result ≡ named_arc line.now a }
{
    MarginArc {
        from: line.move_at(a.from),
        to: line.move_at(a.to),
        w: a.w,
        g: a.q as u32,
    }
}

/// The walk of the constraints with these numbers.
pub(crate) fn walk_of(
    alloc: Global,
    line: &Line,
    arcs: &[Arc],
    walk: &[u32],
) -> Result<MarginWalk, AllocError>
    requires arcs { AreMarginArcs line.now arcs.now }
    requires walk { (i : ℕ) → i < length walk.now → get_or walk.now i 0 < length arcs.now }
    ensures { IfOk result (λ named. named ≡ named_walk line.now arcs.now walk.now) }
{
    let mut list = Vec::with_capacity(alloc, walk.len())?;
    for i in 0..walk.len() {
        list.push(named(line, arcs[walk[i] as usize]))?;
    }
    Ok(MarginWalk::from_vec(list))
}
