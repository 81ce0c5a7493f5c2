// The tanks and the hoists of a path that leaves none of them open.
ghost use Rattle.std.specs.Prelude.{◌≡◌, ℕ, length, get_or, Some, IsSome, IfOk};
ghost use Rattle.hoist_base.specs.LineData.{IsMove, IsVisit, move_number, move_count};
ghost use Rattle.hoist_base.specs.Routes.{IsRoute, route_tank};
ghost use Rattle.path_constraints.specs.Questions.{FitsPath};
ghost use Rattle.path_constraints.specs.Tanks.{tank_below};
ghost use Rattle.path_constraints.specs.Hoists as below;
ghost use Rattle.node_expand.specs.Settled.{HasTanks, HasHoists};

use crate::solved::Hoists;
use choice_tree::Decision;
use hoist_base::{Line, MoveId, Route};
use path_constraints::{hoist_below, tanks_below};
use std::alloc::{AllocError, Global};

// The hoist of a move that the path leaves one.
fn hoist_of(line: &Line, path: &[Decision], m: MoveId) -> u32
    requires fits { FitsPath line.now path.now }
    requires there { IsMove line.now m.carrier m.step }
    requires settled { IsSome (below.hoist_below line.now path.now m.carrier m.step) }
    ensures { below.hoist_below line.now path.now m.carrier m.step ≡ Some result }
{
    match hoist_below(line, path, m) {
        Some(hoist) => hoist,
        None => unreachable!(),
    }
}

/// The hoist of each move.
pub(crate) fn hoists_of(alloc: Global, line: &Line, path: &[Decision]) -> Result<Hoists, AllocError>
    requires fits { FitsPath line.now path.now }
    requires settled { HasHoists line.now path.now }
    ensures count { IfOk result (λ hoists. length hoists ≡ move_count line.now) }
    ensures value { IfOk result (λ hoists. (c k : ℕ) → IsMove line.now c k
        → below.hoist_below line.now path.now c k ≡ Some (get_or hoists (move_number line.now c k) 0)) }
{
    let count = line.move_count();
    let mut numbers = Vec::with_capacity(alloc, count as usize)?;
    for number in 0..count {
        numbers.push(hoist_of(line, path, line.move_at(number)))?;
    }
    Ok(Hoists::from_vec(numbers))
}

/// The tank of each visit.
pub(crate) fn route_of(alloc: Global, line: &Line, path: &[Decision]) -> Result<Route, AllocError>
    requires fits { FitsPath line.now path.now }
    requires settled { HasTanks line.now path.now }
    ensures route { IfOk result (λ route. IsRoute line.now route) }
    ensures value { IfOk result (λ route. (c k : ℕ) → IsVisit line.now c k
        → tank_below line.now path.now c k ≡ Some (route_tank line.now route c k)) }
{
    let count = line.visit_count();
    let mut numbers = Vec::with_capacity(alloc, count as usize)?;
    for number in 0..count {
        numbers.push(tanks_below(line, path, line.visit_at(number))[0])?;
    }
    Ok(Route::from_vec(numbers))
}
