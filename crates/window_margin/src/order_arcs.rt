//! What the ticks of all siblings meet by the orders of their visits and of their moves.

ghost use Rattle.std.specs.Prelude.{◌≡◌, ◌≤◌, ◌<◌, ◌++◌, pos, ◌+ℤ◌, ◌-ℤ◌, ◌*ℤ◌, neg_ℤ, Some, unsigned_abs, OnOk};
ghost use Rattle.hoist_base.specs.LineData.{IsMove, IsVisit, visit_count, move_count};
ghost use Rattle.line_model.specs.Legal.{IsLegal};
ghost use Rattle.timetable.specs.TimetableData.{timetable_of, FitsLine};
ghost use Rattle.collision_pairs.specs.Clash.{IsTight};
ghost use Rattle.path_constraints.specs.Constraints as constraints;
ghost use Rattle.window_margin.specs.Arcs.{at_period, visit_pair, move_pair, visit_row, move_row, rows_below};
ghost use Rattle.window_margin.specs.Arcs as listed;

use crate::orders::{clash_of, hold_of, move_order, visit_order};
use collision_pairs::Span;
use hoist_base::{Line, MoveId, VisitId};
use longest_path::Arc;
use path_constraints::Moment;
use std::alloc::AllocError;
use timetable::Timetable;

// A number of ticks and so many periods.
fn with_periods(ticks: i64, q: i64, period: u32) -> i64
    requires ticks { unsigned_abs ticks ≤ 50000 }
    requires q { unsigned_abs q ≤ 2100000001 }
    ensures { result ≡ ticks +ℤ q *ℤ pos period }
{
    ticks + q * i64::from(period)
}

// As many periods the other way.
fn negated(q: i64) -> i64
    requires { unsigned_abs q ≤ 2100000001 }
    ensures value { result ≡ neg_ℤ q }
    ensures small { unsigned_abs result ≤ 2100000001 }
{
    -q
}

// How much later in its move one moment is than another.
fn fixed_from(y: Moment, x: Moment) -> i64
    requires fixed { (unsigned_abs x.fixed ≤ 22000) × (unsigned_abs y.fixed ≤ 22000) }
    ensures value { result ≡ x.fixed -ℤ y.fixed }
    ensures small { unsigned_abs result ≤ 50000 }
{
    x.fixed - y.fixed
}

// Moment y, q periods later, is not before moment x.
fn moment_arc(line: &Line, x: Moment, y: Moment, q: i64, period: u32) -> Arc
    requires moves { IsMove line.now x.carrier x.step × IsMove line.now y.carrier y.step }
    requires fixed { (unsigned_abs x.fixed ≤ 22000) × (unsigned_abs y.fixed ≤ 22000) }
    requires q { unsigned_abs q ≤ 2100000001 }
    ensures { result ≡ at_period period (pos 0) (constraints.moment_arc line.now x y q) }
{
    let from = line.move_number(MoveId {
        carrier: x.carrier,
        step: x.step,
    });
    let to = line.move_number(MoveId {
        carrier: y.carrier,
        step: y.step,
    });
    let w = with_periods(fixed_from(y, x), negated(q), period);
    Arc { from, to, w, q: 0 }
}

// The number of periods by which the first of two visits comes at the latest before the second, by their order.
fn turned_back(q: i64) -> i64
    requires q { unsigned_abs q ≤ 2100000000 }
    ensures value { result ≡ neg_ℤ (q -ℤ pos 1) }
    ensures small { unsigned_abs result ≤ 2100000001 }
{
    1 - q
}

// Adds what two visits meet by their order, where they use one tank.
fn push_visits(
    arcs: &mut Vec<Arc>,
    line: &Line,
    t: &Timetable,
    a: VisitId,
    b: VisitId,
) -> Result<(), AllocError>
    requires fits { FitsLine line.now t.now }
    requires first { IsVisit line.now a.carrier a.stage }
    requires second { IsVisit line.now b.carrier b.stage }
    ensures { OnOk result (arcs.new.items ≡ arcs.old.items ++ visit_pair line.now (timetable_of t.now) a b) }
{
    if t.tank(a) == t.tank(b) {
        let q = visit_order(line, t, a, b);
        let first = hold_of(line, t, a);
        let second = hold_of(line, t, b);
        let period = t.period();
        arcs.push(moment_arc(line, first.end, second.begin, q, period))?;
        arcs.push(moment_arc(line, second.end, first.begin, turned_back(q), period))?;
    }
    Ok(())
}

// Move b, q periods later, starts late enough after move a.
fn after_arc(line: &Line, a: MoveId, b: MoveId, q: i64, span: Span, period: u32) -> Arc
    requires moves { IsMove line.now a.carrier a.step × IsMove line.now b.carrier b.step }
    requires tight { IsTight span }
    requires q { unsigned_abs q ≤ 2100000001 }
    ensures { result ≡ at_period period (pos 0) (constraints.span_arc line.now a b q 0 (Some span)) }
{
    let from = line.move_number(a);
    let to = line.move_number(b);
    let w = with_periods(span.after, negated(q), period);
    Arc { from, to, w, q: 0 }
}

// And move a late enough after b, one period less later.
fn before_arc(line: &Line, a: MoveId, b: MoveId, q: i64, span: Span, period: u32) -> Arc
    requires moves { IsMove line.now a.carrier a.step × IsMove line.now b.carrier b.step }
    requires tight { IsTight span }
    requires q { unsigned_abs q ≤ 2100000000 }
    ensures { result ≡ at_period period (pos 0) (constraints.span_arc line.now a b (q -ℤ pos 1) 1 (Some span)) }
{
    let from = line.move_number(b);
    let to = line.move_number(a);
    let w = with_periods(span.before, q - 1, period);
    Arc { from, to, w, q: 0 }
}

// Adds what two moves meet by their order, where they can collide.
fn push_moves(
    arcs: &mut Vec<Arc>,
    line: &Line,
    t: &Timetable,
    a: MoveId,
    b: MoveId,
) -> Result<(), AllocError>
    requires fits { FitsLine line.now t.now }
    requires legal { IsLegal line.now (timetable_of t.now) }
    requires first { IsMove line.now a.carrier a.step }
    requires second { IsMove line.now b.carrier b.step }
    ensures { OnOk result (arcs.new.items ≡ arcs.old.items ++ move_pair line.now (timetable_of t.now) a b) }
{
    if let Some(span) = clash_of(line, t, a, b) {
        let q = move_order(line, t, a, b, span);
        let period = t.period();
        arcs.push(after_arc(line, a, b, q, span, period))?;
        arcs.push(before_arc(line, a, b, q, span, period))?;
    }
    Ok(())
}

// Adds what two visits meet, named by their numbers, where they stand in their order.
fn push_visits_at(
    arcs: &mut Vec<Arc>,
    line: &Line,
    t: &Timetable,
    i: u32,
    j: u32,
) -> Result<(), AllocError>
    requires fits { FitsLine line.now t.now }
    requires there { (i < visit_count line.now) × (j < visit_count line.now) }
    ensures { OnOk result (arcs.new.items ≡ arcs.old.items ++ visit_row line.now (timetable_of t.now) i j) }
{
    if i < j {
        push_visits(arcs, line, t, line.visit_at(i), line.visit_at(j))?;
    }
    Ok(())
}

// Adds what a visit and those behind it meet.
fn push_visit_row(arcs: &mut Vec<Arc>, line: &Line, t: &Timetable, i: u32) -> Result<(), AllocError>
    requires fits { FitsLine line.now t.now }
    requires there { i < visit_count line.now }
    ensures { OnOk result (arcs.new.items
        ≡ arcs.old.items ++ rows_below (visit_row line.now (timetable_of t.now) i) (visit_count line.now)) }
{
    for j in 0..line.visit_count() {
        push_visits_at(arcs, line, t, i, j)?;
    }
    Ok(())
}

/// Adds what the pairs of visits meet.
pub(crate) fn push_visit_rows(
    arcs: &mut Vec<Arc>,
    line: &Line,
    t: &Timetable,
) -> Result<(), AllocError>
    requires fits { FitsLine line.now t.now }
    ensures { OnOk result (arcs.new.items ≡ arcs.old.items ++ listed.visit_arcs line.now (timetable_of t.now)) }
{
    for i in 0..line.visit_count() {
        push_visit_row(arcs, line, t, i)?;
    }
    Ok(())
}

// Adds what two moves meet, named by their numbers, where they stand in their order.
fn push_moves_at(
    arcs: &mut Vec<Arc>,
    line: &Line,
    t: &Timetable,
    i: u32,
    j: u32,
) -> Result<(), AllocError>
    requires fits { FitsLine line.now t.now }
    requires legal { IsLegal line.now (timetable_of t.now) }
    requires there { (i < move_count line.now) × (j < move_count line.now) }
    ensures { OnOk result (arcs.new.items ≡ arcs.old.items ++ move_row line.now (timetable_of t.now) i j) }
{
    if i < j {
        push_moves(arcs, line, t, line.move_at(i), line.move_at(j))?;
    }
    Ok(())
}

// Adds what a move and those behind it meet.
fn push_move_row(arcs: &mut Vec<Arc>, line: &Line, t: &Timetable, i: u32) -> Result<(), AllocError>
    requires fits { FitsLine line.now t.now }
    requires legal { IsLegal line.now (timetable_of t.now) }
    requires there { i < move_count line.now }
    ensures { OnOk result (arcs.new.items
        ≡ arcs.old.items ++ rows_below (move_row line.now (timetable_of t.now) i) (move_count line.now)) }
{
    for j in 0..line.move_count() {
        push_moves_at(arcs, line, t, i, j)?;
    }
    Ok(())
}

/// Adds what the pairs of moves meet.
pub(crate) fn push_move_rows(
    arcs: &mut Vec<Arc>,
    line: &Line,
    t: &Timetable,
) -> Result<(), AllocError>
    requires fits { FitsLine line.now t.now }
    requires legal { IsLegal line.now (timetable_of t.now) }
    ensures { OnOk result (arcs.new.items ≡ arcs.old.items ++ listed.move_arcs line.now (timetable_of t.now)) }
{
    for i in 0..line.move_count() {
        push_move_row(arcs, line, t, i)?;
    }
    Ok(())
}
