// The constraints of a path, one at a time.
ghost use Rattle.std.specs.Prelude.{◌≡◌, ◌≤◌, ◌<◌, ◌↔◌, IsTrue, unsigned_abs, unwrap_or, is_some};
ghost use Rattle.hoist_base.specs.LineData.{IsMove, IsVisit, stage, last_step, last_stage, move_count};
ghost use Rattle.hoist_base.specs.Valid.{IsLine};
ghost use Rattle.longest_path.specs.System.{IsArc};
ghost use Rattle.path_constraints.specs.Questions.{FitsPath};
ghost use Rattle.path_constraints.specs.Constraints.{IsOrder};
ghost use Rattle.path_constraints.specs.Constraints as constraints;
ghost use Rattle.path_constraints.specs.Hoists.{clash_below};
ghost use Rattle.path_constraints.specs.Places.{NamesOrder};

use crate::holds::{Moment, begin_below, end_below, node_of};
use crate::rides::clash_below;
use crate::times::times_below;
use choice_tree::{Constraint, Decision, Question};
use hoist_base::{Line, MoveId, VisitId};
use longest_path::Arc;

// The dwell at an inner stage is long enough.
fn min_arc(line: &Line, path: &[Decision], carrier: u32, stage: u32) -> Arc
    requires fits { FitsPath line.now path.now }
    requires there { (carrier < line.now.degree) × (1 ≤ stage) × (stage ≤ last_step line.now) }
    ensures value { result ≡ constraints.min_arc line.now path.now carrier stage }
    ensures arc { IsArc (move_count line.now) result }
{
    let min = line.stages()[stage as usize].min;
    let before = MoveId {
        carrier,
        step: stage - 1,
    };
    let after = MoveId {
        carrier,
        step: stage,
    };
    Arc {
        from: line.move_number(before),
        to: line.move_number(after),
        w: i64::from(times_below(line, path, before).low + min),
        q: 0,
    }
}

// And not too long.
fn max_arc(line: &Line, path: &[Decision], carrier: u32, stage: u32) -> Arc
    requires fits { FitsPath line.now path.now }
    requires there { (carrier < line.now.degree) × (1 ≤ stage) × (stage ≤ last_step line.now) }
    ensures value { result ≡ constraints.max_arc line.now path.now carrier stage }
    ensures arc { IsArc (move_count line.now) result }
{
    let max = greatest_dwell(line, stage);
    let before = MoveId {
        carrier,
        step: stage - 1,
    };
    let after = MoveId {
        carrier,
        step: stage,
    };
    Arc {
        from: line.move_number(after),
        to: line.move_number(before),
        w: -i64::from(times_below(line, path, before).high + max),
        q: 0,
    }
}

// The greatest dwell at an inner stage, or 0 where it has none.
fn greatest_dwell(line: &Line, number: u32) -> u32
    requires { (1 ≤ number) × (number ≤ last_step line.now) }
    ensures value { result ≡ unwrap_or (stage line.now number).max 0 }
    ensures small { result ≤ 20000 }
{
    line.stages()[number as usize].max.unwrap_or(0)
}

// The next carrier, that of the next period after the last, is put on when this one has been lifted.
fn entry_arc(line: &Line, carrier: u32) -> Arc
    requires { carrier < line.now.degree }
    ensures value { result ≡ constraints.entry_arc line.now carrier }
    ensures arc { IsArc (move_count line.now) result }
{
    let w = i64::from(line.load() + line.stages()[0].lift);
    let from = line.move_number(MoveId { carrier, step: 0 });
    if carrier + 1 == line.degree() {
        Arc {
            from,
            to: 0,
            w,
            q: -1,
        }
    } else {
        let next = MoveId {
            carrier: carrier + 1,
            step: 0,
        };
        Arc {
            from,
            to: line.move_number(next),
            w,
            q: 0,
        }
    }
}

// A carrier has left the tank of a stage when that of the next period is lowered into it.
fn visit_arc(line: &Line, path: &[Decision], carrier: u32, stage: u32) -> Arc
    requires fits { FitsPath line.now path.now }
    requires there { (carrier < line.now.degree) × (1 ≤ stage) × (stage ≤ last_stage line.now) }
    ensures value { result ≡ constraints.visit_arc line.now path.now carrier stage }
    ensures arc { IsArc (move_count line.now) result }
{
    let lift = line.stages()[stage as usize].lift;
    let lower = line.stages()[stage as usize].lower;
    let before = MoveId {
        carrier,
        step: stage - 1,
    };
    let node = line.move_number(before);
    if stage == line.inner() + 1 {
        return Arc {
            from: node,
            to: node,
            w: i64::from(lower + line.unload()),
            q: -1,
        };
    }
    let after = MoveId {
        carrier,
        step: stage,
    };
    let high = times_below(line, path, before).high;
    Arc {
        from: line.move_number(after),
        to: node,
        w: i64::from(lift + lower) - i64::from(high),
        q: -1,
    }
}

// The hoist of a move is back a period later.
fn repeat_arc(line: &Line, path: &[Decision], carrier: u32, step: u32) -> Arc
    requires fits { FitsPath line.now path.now }
    requires there { (carrier < line.now.degree) × (step ≤ last_step line.now) }
    requires valid { IsLine line.now }
    ensures value { result ≡ constraints.repeat_arc line.now path.now carrier step }
    ensures arc { IsArc (move_count line.now) result }
{
    let m = MoveId { carrier, step };
    let node = line.move_number(m);
    let back = times_below(line, path, m).back;
    Arc {
        from: node,
        to: node,
        w: i64::from(back),
        q: -1,
    }
}

// The second moment, so many periods later, is not before the first.
fn moment_arc(line: &Line, first: Moment, second: Moment, shift: i64) -> Arc
    requires moves { IsMove line.now first.carrier first.step × IsMove line.now second.carrier second.step }
    requires fixed { (unsigned_abs first.fixed ≤ 22000) × (unsigned_abs second.fixed ≤ 22000) }
    requires shift { unsigned_abs shift ≤ 1000000000 }
    ensures value { result ≡ constraints.moment_arc line.now first second shift }
    ensures arc { IsArc (move_count line.now) result }
    ensures valid { IsLine line.now }
{
    Arc {
        from: node_of(line, first),
        to: node_of(line, second),
        w: first.fixed - second.fixed,
        q: -shift,
    }
}

// What a child of a TankOrder asks.
fn tank_arc(line: &Line, path: &[Decision], a: VisitId, b: VisitId, q: i64, child: u32) -> Arc
    requires fits { FitsPath line.now path.now }
    requires first { IsVisit line.now a.carrier a.stage }
    requires second { IsVisit line.now b.carrier b.stage }
    requires q { unsigned_abs q ≤ 1000000000 }
    ensures value { result ≡ constraints.tank_arc line.now path.now a b q child }
    ensures arc { IsArc (move_count line.now) result }
    ensures valid { IsLine line.now }
{
    if child == 0 {
        moment_arc(
            line,
            end_below(line, path, a),
            begin_below(line, path, b),
            q,
        )
    } else {
        moment_arc(
            line,
            end_below(line, path, b),
            begin_below(line, path, a),
            -q,
        )
    }
}

// What a child of a HoistOrder asks.
fn hoist_arc(line: &Line, path: &[Decision], a: MoveId, b: MoveId, q: i64, child: u32) -> Arc
    requires fits { FitsPath line.now path.now }
    requires first { IsMove line.now a.carrier a.step }
    requires second { IsMove line.now b.carrier b.step }
    requires q { unsigned_abs q ≤ 1000000000 }
    ensures value { result ≡ constraints.span_arc line.now a b q child (clash_below line.now path.now a b) }
    ensures arc { IsArc (move_count line.now) result }
    ensures valid { IsLine line.now }
{
    let from = line.move_number(a);
    let to = line.move_number(b);
    match clash_below(line, path, a, b) {
        None => Arc {
            from: 0,
            to: 0,
            w: 0,
            q: 0,
        },
        Some(span) if child == 0 => Arc {
            from,
            to,
            w: span.after,
            q: -q,
        },
        Some(span) => Arc {
            from: to,
            to: from,
            w: span.before,
            q,
        },
    }
}

/// What a decision asks of the ticks below the path; a choice asks nothing.
pub(crate) fn decided_arc(line: &Line, path: &[Decision], decision: Decision) -> Arc
    requires fits { FitsPath line.now path.now }
    requires order { NamesOrder line.now decision.question }
    ensures value { result ≡ constraints.decided_arc line.now path.now decision.question decision.child }
    ensures arc { IsOrder decision.question → IsArc (move_count line.now) result }
    ensures valid { IsOrder decision.question → IsLine line.now }
{
    let child = decision.child;
    match decision.question {
        Question::TankOrder { a, b, q } => tank_arc(line, path, a, b, q, child),
        Question::HoistOrder { a, b, q } => hoist_arc(line, path, a, b, q, child),
        _ => Arc {
            from: 0,
            to: 0,
            w: 0,
            q: 0,
        },
    }
}

/// The constraint of this name.
pub(crate) fn arc_of(line: &Line, path: &[Decision], name: Constraint) -> Arc
    requires fits { FitsPath line.now path.now }
    requires named { constraints.IsConstraint line.now path.now name }
    requires valid { IsLine line.now }
    ensures value { result ≡ constraints.arc_of line.now path.now name }
    ensures arc { IsArc (move_count line.now) result }
{
    match name {
        Constraint::Min { c, k } => min_arc(line, path, c, k),
        Constraint::Max { c, k } => max_arc(line, path, c, k),
        Constraint::Entry { c } => entry_arc(line, c),
        Constraint::Visit { c, k } => visit_arc(line, path, c, k),
        Constraint::Repeat { c, k } => repeat_arc(line, path, c, k),
        Constraint::Decided { i } => decided_arc(line, path, path[i as usize]),
    }
}

/// Whether the path has a constraint of this name.
pub(crate) fn is_constraint(line: &Line, path: &[Decision], name: Constraint) -> bool
    ensures value { IsTrue result ↔ constraints.IsConstraint line.now path.now name }
    ensures valid { IsLine line.now }
{
    let inner = line.inner();
    let degree = line.degree();
    match name {
        Constraint::Min { c, k } => c < degree && 1 <= k && k <= inner,
        Constraint::Max { c, k } => c < degree && 1 <= k && k <= inner && has_max(line, k),
        Constraint::Entry { c } => c < degree,
        Constraint::Visit { c, k } => c < degree && 1 <= k && k <= inner + 1,
        Constraint::Repeat { c, k } => c < degree && k <= inner,
        Constraint::Decided { i } => (i as usize) < path.len()
            && is_order(path[i as usize].question),
    }
}

// Whether an inner stage has a greatest dwell.
pub(crate) fn has_max(line: &Line, number: u32) -> bool
    requires { (1 ≤ number) × (number ≤ last_step line.now) }
    ensures value { result ≡ is_some (stage line.now number).max }
{
    line.stages()[number as usize].max.is_some()
}

// Whether a question is one of order.
fn is_order(question: Question) -> bool
    ensures { IsTrue result ↔ constraints.IsOrder question }
{
    matches!(
        question,
        Question::TankOrder { .. } | Question::HoistOrder { .. }
    )
}
