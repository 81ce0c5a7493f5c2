//! The margin of a timetable's windows.

ghost use Rattle.std.specs.Prelude.{◌≡◌, ◌≤◌, ◌↔◌, length, IfOk};
ghost use Rattle.hoist_base.specs.LineData.{last_step};
ghost use Rattle.hoist_base.specs.Valid.{IsLine};
ghost use Rattle.line_model.specs.Legal.{IsLegal};
ghost use Rattle.timetable.specs.TimetableData.{timetable_of, FitsLine};
ghost use Rattle.window_margin.specs.Found.{IsMarginRead};

use crate::chosen::chosen_path;
use crate::limits::limit_of;
use crate::margin_arcs::margin_arcs;
use crate::reads::MarginRead;
use crate::walks::walk_of;
use hoist_base::{Line, Route};
use node_expand::{Hoists, Solved, Ticks};
use planning::plan;
use std::alloc::{AllocError, Global};
use timetable::Timetable;

// The tanks of all visits.
fn route_of(alloc: Global, t: &Timetable) -> Result<Route, AllocError>
    ensures { IfOk result (λ route. route ≡ t.now.tank) }
{
    let numbers = Vec::from_slice(alloc, t.route().as_slice())?;
    Ok(Route::from_vec(numbers))
}

// The hoists of all moves.
fn hoists_of(alloc: Global, line: &Line, t: &Timetable) -> Result<Hoists, AllocError>
    requires fits { FitsLine line.now t.now }
    ensures { IfOk result (λ hoists. hoists ≡ t.now.hoist) }
{
    let count = line.move_count();
    let mut numbers = Vec::with_capacity(alloc, count as usize)?;
    for number in 0..count {
        numbers.push(t.hoist(line.move_at(number)))?;
    }
    Ok(Hoists::from_vec(numbers))
}

// The margin, where the line has inner stages.
fn found(alloc: Global, line: &Line, t: &Timetable) -> Result<MarginRead, AllocError>
    requires fits { FitsLine line.now t.now }
    requires legal { IsLegal line.now (timetable_of t.now) }
    requires some { 3 ≤ length line.now.stages }
    requires valid { IsLine line.now }
    ensures { IfOk result (λ read. IsMarginRead line.now (timetable_of t.now) read) }
{
    let period = t.period();
    let path = chosen_path(alloc, line, t)?;
    let arcs = margin_arcs(alloc, line, t, path.as_slice())?;
    let limit = limit_of(alloc, line, period, arcs.as_slice())?;
    let walk = walk_of(alloc, line, arcs.as_slice(), limit.walk.arcs())?;
    let hoists = hoists_of(alloc, line, t)?;
    let tanks = route_of(alloc, t)?;
    let ticks = limit.ticks;
    let solved = Solved {
        period,
        ticks: Ticks::from_vec(limit.starts),
        hoists,
        tanks,
    };
    // The plan of these starts is the sibling that has the margin.
    let _sibling = plan(alloc, line, &solved)?;
    Ok(MarginRead::Found {
        ticks,
        starts: solved.ticks,
        walk,
    })
}

/// The margin of a legal timetable whose lists fit the line: the greatest number of ticks by which all windows of its
/// inner stages could be narrowed, at its period and with its hoists, its tanks and its orders.
///
/// The order of two visits of one tank, or of two moves that could collide, says from how many periods on the second
/// comes after the first. `NoWindow` exactly where the line has no inner stage. It takes memory for the constraints,
/// two for each such pair, and for the rounds of one `climb`, one `least` and one `closed_walk` over them.
pub fn margin(alloc: Global, line: &Line, t: &Timetable) -> Result<MarginRead, AllocError>
    requires fits { FitsLine line.now t.now }
    requires legal { IsLegal line.now (timetable_of t.now) }
    ensures none { IfOk result (λ read. (read ≡ MarginRead.NoWindow) ↔ (last_step line.now ≡ 0)) }
    ensures margin { IfOk result (λ read. IsMarginRead line.now (timetable_of t.now) read) }
{
    if line.inner() == 0 {
        return Ok(MarginRead::NoWindow);
    }
    let read = found(alloc, line, t)?;
    Ok(read)
}
