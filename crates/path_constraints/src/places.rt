// Where the constraints of a path stand in their system, and writing them there.
ghost use Rattle.std.specs.Prelude.{◌≡◌, ◌≤◌, ◌<◌, []};
ghost use Rattle.hoist_base.specs.LineData.{IsMove, IsStageOf};
ghost use Rattle.hoist_base.specs.Valid.{IsLine};
ghost use Rattle.path_constraints.specs.Questions.{FitsPath};
ghost use Rattle.path_constraints.specs.Constraints.{IsConstraint};
ghost use Rattle.path_constraints.specs.Places.{IsUndecided, IsOfMove, HasPlaces, Rewrites, undecided_count};
ghost use Rattle.path_constraints.specs.Places as places;

use crate::arcs::{arc_of, has_max, is_constraint};
use choice_tree::{Constraint, Decision};
use hoist_base::{Line, MoveId};
use longest_path::System;

// How many inner stages before this one have a greatest dwell.
fn maxes_before(line: &Line, stage: u32) -> u32
    requires { (1 ≤ stage) × IsStageOf line.now stage }
    ensures value { result ≡ places.maxes_before line.now stage }
    ensures small { result < stage }
{
    let mut count = 0;
    for k in 1..stage {
        if has_max(line, k) {
            count += 1;
        }
    }
    count
}

/// How many constraints a line has before any decision.
pub(crate) fn undecided(line: &Line) -> u32
    ensures value { result ≡ undecided_count line.now }
    ensures small { result ≤ 700 }
{
    let moves = line.inner() + 1;
    line.degree() * (line.inner() + maxes_before(line, moves) + 1 + moves + moves)
}

// Where a constraint that stands on every path stands in the list.
fn place_of(line: &Line, name: Constraint) -> u32
    requires named { IsConstraint line.now [] name }
    requires undecided { IsUndecided name }
    ensures value { result ≡ places.place line.now name }
    ensures there { result < undecided_count line.now }
{
    let inner = line.inner();
    let moves = inner + 1;
    let degree = line.degree();
    let maxes = maxes_before(line, moves);
    match name {
        Constraint::Min { c, k } => c * inner + (k - 1),
        Constraint::Max { c, k } => degree * inner + c * maxes + maxes_before(line, k),
        Constraint::Entry { c } => degree * (inner + maxes) + c,
        Constraint::Visit { c, k } => degree * (inner + maxes + 1) + c * moves + (k - 1),
        Constraint::Repeat { c, k } => degree * (inner + maxes + 1 + moves) + c * moves + k,
        Constraint::Decided { .. } => 0,
    }
}

/// Writes what the path asks by a constraint into its place, where the path has it.
pub(crate) fn write(s: &mut System, line: &Line, path: &[Decision], name: Constraint)
    requires fits { FitsPath line.now path.now }
    requires undecided { IsUndecided name }
    requires places { HasPlaces line.now s.old }
    ensures written { Rewrites line.now path.now (λ t. t ≡ name) s.old s.new }
    ensures valid { IsLine line.now }
{
    if !is_constraint(line, path, name) {
        return;
    }
    let place = place_of(line, name);
    s.set(place, arc_of(line, path, name));
}

/// Writes the constraints that depend on how long a move lasts into their places.
pub(crate) fn write_move(s: &mut System, line: &Line, path: &[Decision], m: MoveId)
    requires fits { FitsPath line.now path.now }
    requires there { IsMove line.now m.carrier m.step }
    requires places { HasPlaces line.now s.old }
    ensures written { Rewrites line.now path.now (IsOfMove m.carrier m.step) s.old s.new }
    ensures valid { IsLine line.now }
{
    let c = m.carrier;
    write(s, line, path, Constraint::Repeat { c, k: m.step });
    let k = m.step + 1;
    write(s, line, path, Constraint::Min { c, k });
    write(s, line, path, Constraint::Max { c, k });
    write(s, line, path, Constraint::Visit { c, k });
}
