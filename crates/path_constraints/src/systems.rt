// The constraints of a path as a system, and how a decision extends it.
ghost use Rattle.std.specs.Prelude.{
  ◌≡◌,
  ◌+◌,
  ◌≤◌,
  ◌<◌,
  ◌↔◌,
  [],
  length,
  take,
  true,
  Contains,
  IsSome,
  IfSome,
  IfOk,
  OnOk,
  OnErr,
};
ghost use Rattle.hoist_base.specs.LineData.{IsVisit, stage, move_count};
ghost use Rattle.hoist_base.specs.Valid.{IsLine};
ghost use Rattle.longest_path.specs.System.{IsArc};
ghost use Rattle.path_constraints.specs.Questions.{FitsPath};
ghost use Rattle.path_constraints.specs.Constraints.{IsConstraint, constraint_list};
ghost use Rattle.path_constraints.specs.Constraints as constraints;
ghost use Rattle.path_constraints.specs.Places.{
  system_below,
  HasPlaces,
  Rewrites,
  IsOfCarrier,
  IsOfVisit,
  undecided_count,
};

use crate::arcs::{arc_of, decided_arc, is_constraint};
use crate::places::{undecided, write, write_move};
use choice_tree::{Constraint, Decision, Question};
use hoist_base::{Line, MoveId, VisitId};
use longest_path::{Arc, System};
use std::alloc::{AllocError, Global};

// A system with a node for each move and room for the line's constraints.
fn blank(alloc: Global, line: &Line) -> Result<System, AllocError>
    ensures places { IfOk result (λ s. HasPlaces line.now s) }
    ensures count { IfOk result (λ s. length s.arcs ≡ undecided_count line.now) }
{
    let nothing = Arc {
        from: 0,
        to: 0,
        w: 0,
        q: 0,
    };
    let arcs = vec![in alloc; nothing; undecided(line) as usize]?;
    Ok(System::new(line.move_count(), arcs))
}

// Writes the constraints of a carrier into their places.
fn write_carrier(s: &mut System, line: &Line, path: &[Decision], carrier: u32)
    requires fits { FitsPath line.now path.now }
    requires there { carrier < line.now.degree }
    requires places { HasPlaces line.now s.old }
    ensures { Rewrites line.now path.now (IsOfCarrier carrier) s.old s.new }
{
    write(s, line, path, Constraint::Entry { c: carrier });
    for step in 0..line.inner() + 1 {
        write_move(s, line, path, MoveId { carrier, step });
    }
}

/// The system of a line before any decision: a node for each move, and the constraints in their order.
pub fn base_of(alloc: Global, line: &Line) -> Result<System, AllocError>
    ensures { IfOk result (λ s. s ≡ system_below line.now []) }
{
    let mut s = blank(alloc, line)?;
    for carrier in 0..line.degree() {
        write_carrier(&mut s, line, &[], carrier);
    }
    Ok(s)
}

/// The system of a path: a node for each move, and the path's constraints in their order.
pub fn system_of(alloc: Global, line: &Line, path: &[Decision]) -> Result<System, AllocError>
    requires fits { FitsPath line.now path.now }
    requires short { length path.now ≤ 20000 }
    ensures { IfOk result (λ s. s ≡ system_below line.now path.now) }
{
    let mut s = base_of(alloc, line)?;
    for i in 0..path.len() {
        decide(&mut s, line, path, i as u32)?;
    }
    Ok(s)
}

// Writes the constraints of the moves before and after a visit into their places; its stage has a choice, so it is
// inner.
fn write_visit(s: &mut System, line: &Line, path: &[Decision], visit: VisitId)
    requires fits { FitsPath line.now path.now }
    requires there { IsVisit line.now visit.carrier visit.stage }
    requires several { 2 ≤ length (stage line.now visit.stage).tanks }
    requires places { HasPlaces line.now s.old }
    ensures written { Rewrites line.now path.now (IsOfVisit visit.carrier visit.stage) s.old s.new }
    ensures valid { IsLine line.now }
{
    let inner = line.inner();
    let after = visit.stage;
    prove!(1 <= after && after <= inner);
    let carrier = visit.carrier;
    write_move(
        s,
        line,
        path,
        MoveId {
            carrier,
            step: after - 1,
        },
    );
    write_move(
        s,
        line,
        path,
        MoveId {
            carrier,
            step: after,
        },
    );
}

/// Takes decision `i` of the path into the system of the decisions before it: true. On want of memory the system is as
/// before.
///
/// An order puts one constraint behind the others. A tank that is chosen changes how long the moves before and after
/// its visit last: their constraints are written in place.
pub fn decide(s: &mut System, line: &Line, path: &[Decision], i: u32) -> Result<bool, AllocError>
    requires fits { FitsPath line.now path.now }
    requires i { (i < length path.now) × (i < 20000) }
    requires system { s.old ≡ system_below line.now (take i path.now) }
    ensures answer { IfOk result (λ done. done ≡ true) }
    ensures ok { OnOk result (s.new ≡ system_below line.now (take (i + 1) path.now)) }
    ensures err { OnErr result (s.new ≡ s.old) }
{
    let decision = path[i as usize];
    let above = &path[..i as usize + 1];
    match decision.question {
        Question::Assign { .. } => Ok(true),
        Question::Choose { v } => {
            write_visit(s, line, above, v);
            Ok(true)
        }
        _ => {
            let arc = decided_arc(line, above, decision);
            s.push(arc)
        }
    }
}

/// The constraint of the path that has this name; None exactly where the path has none.
///
/// It is looked up by its name: no list is made, and no memory is taken.
pub fn constraint_of(line: &Line, path: &[Decision], name: Constraint) -> Option<Arc>
    requires { FitsPath line.now path.now }
    ensures named { IsSome result ↔ IsConstraint line.now path.now name }
    ensures listed { IsSome result ↔ Contains (constraint_list line.now path.now) name }
    ensures value { IfSome result (λ arc. arc ≡ constraints.arc_of line.now path.now name) }
    ensures arc { IfSome result (IsArc (move_count line.now)) }
{
    if !is_constraint(line, path, name) {
        return None;
    }
    Some(arc_of(line, path, name))
}
