// Whether ticks leave a question open.
ghost use Rattle.std.specs.Prelude.{◌≡◌, ◌≤◌, ◌<ℤ◌, ◌-ℤ◌, ◌↔◌, neg_ℤ, IsTrue, IsSomeAnd, unsigned_abs};
ghost use Rattle.hoist_base.specs.LineData.{IsMove, IsVisit, move_number};
ghost use Rattle.hoist_base.specs.Valid.{IsLine};
ghost use Rattle.collision_pairs.specs.Clash.{IsTight};
ghost use Rattle.path_constraints.specs.Tanks as tanks;
ghost use Rattle.path_constraints.specs.Hoists as hoists;
ghost use Rattle.path_constraints.specs.Holds as holds;
ghost use Rattle.path_constraints.specs.Questions.{FitsPath, Fits, Fails, HoldTogether};
ghost use Rattle.path_constraints.specs.Questions as questions;
ghost use Rattle.path_constraints.specs.Ticks.{AreTicks, tick_at};

use crate::holds::{Moment, begin_below, end_below, node_of};
use crate::rides::clash_below;
use choice_tree::{Decision, Question};
use collision_pairs::Span;
use hoist_base::{Line, MoveId, VisitId};

/// From when to when a visit holds its tank.
#[derive(Clone, Copy)]
pub(crate) struct Hold {
    pub(crate) begin: i64,
    pub(crate) end: i64,
}

/// The tick of a moment.
pub fn tick_of(line: &Line, ticks: &[i64], moment: Moment) -> i64
    requires there { IsMove line.now moment.carrier moment.step }
    requires ticks { AreTicks line.now ticks.now }
    requires fixed { unsigned_abs moment.fixed ≤ 22000 }
    ensures value { result ≡ holds.tick_of line.now (tick_at ticks.now) moment }
    ensures small { unsigned_abs result ≤ 10000000022000 }
    ensures valid { IsLine line.now }
{
    ticks[node_of(line, moment) as usize] + moment.fixed
}

// The tick at which a move starts.
fn start_of(line: &Line, ticks: &[i64], m: MoveId) -> i64
    requires there { IsMove line.now m.carrier m.step }
    requires ticks { AreTicks line.now ticks.now }
    ensures value { result ≡ tick_at ticks.now (move_number line.now m.carrier m.step) }
    ensures small { unsigned_abs result ≤ 10000000000000 }
{
    let start = Moment {
        carrier: m.carrier,
        step: m.step,
        fixed: 0,
    };
    tick_of(line, ticks, start)
}

// From when to when a visit holds its tank, where the path settles both.
pub(crate) fn hold_of(line: &Line, path: &[Decision], visit: VisitId, ticks: &[i64]) -> Hold
    requires fits { FitsPath line.now path.now }
    requires there { IsVisit line.now visit.carrier visit.stage }
    requires ticks { AreTicks line.now ticks.now }
    ensures begin { result.begin ≡ holds.tick_of line.now (tick_at ticks.now)
        (holds.begin_of line.now (tanks.low line.now path.now) visit.carrier visit.stage) }
    ensures end { result.end ≡ holds.tick_of line.now (tick_at ticks.now)
        (holds.end_of line.now (tanks.low line.now path.now) visit.carrier visit.stage) }
    ensures small { (unsigned_abs result.begin ≤ 10000000022000) × (unsigned_abs result.end ≤ 10000000022000) }
{
    let last = end_below(line, path, visit);
    let first = begin_below(line, path, visit);
    Hold {
        begin: tick_of(line, ticks, first),
        end: tick_of(line, ticks, last),
    }
}

// A tick, q periods later.
fn later(tick: i64, q: i64, period: u32) -> i64
    requires tick { unsigned_abs tick ≤ 10000000022000 }
    requires q { unsigned_abs q ≤ 1000000000 }
    ensures value { result ≡ holds.periods_later tick q period }
    ensures small { unsigned_abs result ≤ 4300000000000000000 }
{
    tick + q * i64::from(period)
}

// Whether both numbers are below those beside them.
fn are_below(first: i64, second: i64, third: i64, fourth: i64) -> bool
    ensures { IsTrue result ↔ ((first <ℤ second) × (third <ℤ fourth)) }
{
    first < second && third < fourth
}

// Whether two holds, the second q periods later, have a tick together.
fn hold_together(a: Hold, b: Hold, q: i64, period: u32) -> bool
    requires first { (unsigned_abs a.begin ≤ 10000000022000) × (unsigned_abs a.end ≤ 10000000022000) }
    requires second { (unsigned_abs b.begin ≤ 10000000022000) × (unsigned_abs b.end ≤ 10000000022000) }
    requires q { unsigned_abs q ≤ 1000000000 }
    ensures { IsTrue result ↔ ((holds.periods_later b.begin q period <ℤ a.end)
        × (a.begin <ℤ holds.periods_later b.end q period)) }
{
    let begin = later(b.begin, q, period);
    let end = later(b.end, q, period);
    are_below(begin, a.end, a.begin, end)
}

// How many ticks after the first move the second starts, that q periods later.
fn offset_of(line: &Line, a: MoveId, b: MoveId, q: i64, ticks: &[i64], period: u32) -> i64
    requires first { IsMove line.now a.carrier a.step }
    requires second { IsMove line.now b.carrier b.step }
    requires q { unsigned_abs q ≤ 1000000000 }
    requires ticks { AreTicks line.now ticks.now }
    ensures value { result ≡ questions.offset_of line.now (tick_at ticks.now) period a b q }
    ensures small { unsigned_abs result ≤ 4400000000000000000 }
{
    let first = start_of(line, ticks, a);
    let start = start_of(line, ticks, b);
    let second = later(start, q, period);
    second - first
}

// Whether an offset is one of a span's.
fn is_within(span: Span, offset: i64) -> bool
    requires { IsTight span }
    ensures { IsTrue result ↔ ((neg_ℤ span.before <ℤ offset) × (offset <ℤ span.after)) }
{
    are_below(-span.before, offset, offset, span.after)
}

// Whether two visits, the second q periods later, hold their tank at one tick.
fn fails_tank_order(
    line: &Line,
    path: &[Decision],
    a: VisitId,
    b: VisitId,
    q: i64,
    ticks: &[i64],
    period: u32,
) -> bool
    requires fits { FitsPath line.now path.now }
    requires first { IsVisit line.now a.carrier a.stage }
    requires second { IsVisit line.now b.carrier b.stage }
    requires q { unsigned_abs q ≤ 1000000000 }
    requires ticks { AreTicks line.now ticks.now }
    ensures { IsTrue result ↔ HoldTogether line.now (tanks.low line.now path.now) (tick_at ticks.now) period a b q }
{
    let first = hold_of(line, path, a, ticks);
    let second = hold_of(line, path, b, ticks);
    hold_together(first, second, q, period)
}

// Whether the offset of two moves, the second q periods later, is one that their clash forbids.
fn fails_hoist_order(
    line: &Line,
    path: &[Decision],
    a: MoveId,
    b: MoveId,
    q: i64,
    ticks: &[i64],
    period: u32,
) -> bool
    requires fits { FitsPath line.now path.now }
    requires first { IsMove line.now a.carrier a.step }
    requires second { IsMove line.now b.carrier b.step }
    requires q { unsigned_abs q ≤ 1000000000 }
    requires ticks { AreTicks line.now ticks.now }
    ensures { IsTrue result ↔ IsSomeAnd (hoists.clash_below line.now path.now a b)
        (λ span. (neg_ℤ span.before <ℤ questions.offset_of line.now (tick_at ticks.now) period a b q)
        × (questions.offset_of line.now (tick_at ticks.now) period a b q <ℤ span.after)) }
{
    match clash_below(line, path, a, b) {
        None => false,
        Some(span) => {
            let offset = offset_of(line, a, b, q, ticks, period);
            is_within(span, offset)
        }
    }
}

/// Whether the ticks, one a move, leave the question open at the period: a choice always; an order where it comes
/// neither way.
pub fn fails(line: &Line, path: &[Decision], question: Question, ticks: &[i64], period: u32) -> bool
    requires fits { FitsPath line.now path.now }
    requires question { Fits line.now path.now question }
    requires ticks { AreTicks line.now ticks.now }
    ensures { IsTrue result ↔ Fails line.now path.now (tick_at ticks.now) period question }
{
    match question {
        Question::TankOrder { a, b, q } => fails_tank_order(line, path, a, b, q, ticks, period),
        Question::HoistOrder { a, b, q } => fails_hoist_order(line, path, a, b, q, ticks, period),
        _ => true,
    }
}
