//! What the ticks of all siblings with a margin meet, in its order.

ghost use Rattle.std.specs.Prelude.{◌≡◌, ℕ, ◌≤◌, ◌<◌, pos, length, nat_lt, if◌then◌else◌, unsigned_abs, IfOk};
ghost use Rattle.line_model.specs.Legal.{IsLegal};
ghost use Rattle.longest_path.specs.Bounds.{IsWithinCap};
ghost use Rattle.timetable.specs.TimetableData.{timetable_of, FitsLine};
ghost use Rattle.window_margin.specs.Chosen.{IsChosen};
ghost use Rattle.window_margin.specs.Systems.{AreSmall, AreShared};
ghost use Rattle.window_margin.specs.Arcs as listed;

use crate::order_arcs::{push_move_rows, push_visit_rows};
use choice_tree::Decision;
use hoist_base::Line;
use longest_path::Arc;
use path_constraints::system_of;
use std::alloc::{AllocError, Global};
use timetable::Timetable;

// How often the margin stands in a constraint: once in those of the dwells, which come first.
fn share_at(k: usize, dwells: usize) -> i64
    ensures value { result ≡ (if nat_lt k dwells then pos 1 else pos 0) }
{
    if k < dwells { 1 } else { 0 }
}

// A constraint at a period, with its share of the margin.
fn at_period(a: Arc, period: u32, share: i64) -> Arc
    requires w { unsigned_abs a.w ≤ 10000000 }
    requires q { unsigned_abs a.q ≤ 1000000000 }
    requires period { IsWithinCap period }
    ensures { result ≡ listed.at_period period share a }
{
    Arc {
        from: a.from,
        to: a.to,
        w: a.weight(period),
        q: share,
    }
}

// The constraints at a period, with their shares of the margin.
fn shared(alloc: Global, arcs: &[Arc], dwells: usize, period: u32) -> Result<Vec<Arc>, AllocError>
    requires small { AreSmall arcs.now }
    requires period { IsWithinCap period }
    ensures { IfOk result (λ shared. AreShared dwells period arcs.now shared.items) }
{
    let mut shared = Vec::with_capacity(alloc, arcs.len())?;
    for k in 0..arcs.len() {
        shared.push(at_period(arcs[k], period, share_at(k, dwells)))?;
    }
    Ok(shared)
}

// The constraints that stand on every path.
fn undecided_arcs(
    alloc: Global,
    line: &Line,
    t: &Timetable,
    path: &[Decision],
) -> Result<Vec<Arc>, AllocError>
    requires fits { FitsLine line.now t.now }
    requires chosen { IsChosen line.now (timetable_of t.now) path.now }
    requires short { length path.now ≤ 252 }
    ensures { IfOk result (λ arcs. arcs.items ≡ listed.undecided_arcs line.now path.now (timetable_of t.now).period) }
{
    let system = system_of(alloc, line, path)?;
    let arcs = system.arcs();
    // All but those of the entries, of the visits and of the repeats are of dwells.
    let others = line.degree() * (2 * line.inner() + 3);
    let listed = shared(alloc, arcs, arcs.len() - others as usize, t.period())?;
    Ok(listed)
}

/// What the ticks of all siblings with a margin meet, in its order.
pub(crate) fn margin_arcs(
    alloc: Global,
    line: &Line,
    t: &Timetable,
    path: &[Decision],
) -> Result<Vec<Arc>, AllocError>
    requires fits { FitsLine line.now t.now }
    requires legal { IsLegal line.now (timetable_of t.now) }
    requires chosen { IsChosen line.now (timetable_of t.now) path.now }
    requires short { length path.now ≤ 252 }
    ensures { IfOk result (λ arcs. arcs.items ≡ listed.margin_arcs line.now (timetable_of t.now) path.now) }
{
    let mut arcs = undecided_arcs(alloc, line, t, path)?;
    push_visit_rows(&mut arcs, line, t)?;
    push_move_rows(&mut arcs, line, t)?;
    Ok(arcs)
}
