//! The orders of a timetable: of two visits of one tank, and of two moves whose hoists could collide.

ghost use Rattle.std.specs.Prelude.{◌≡◌, ◌≤◌, ◌<◌, pos, negsuc, ◌≤ℤ◌, ◌-ℤ◌, IfSome, unsigned_abs};
ghost use Rattle.hoist_base.specs.LineData.{IsMove, IsVisit, move_count};
ghost use Rattle.hoist_base.specs.Valid.{IsLine};
ghost use Rattle.line_model.specs.Motion.{IsMotion};
ghost use Rattle.line_model.specs.Timetable as model;
ghost use Rattle.line_model.specs.Legal.{IsLegal};
ghost use Rattle.timetable.specs.TimetableData.{timetable_of, FitsLine};
ghost use Rattle.collision_pairs.specs.Clash.{IsTight};
ghost use Rattle.path_constraints.specs.Holds as holds;
ghost use Rattle.path_constraints.specs.Meets.{ticks_of, durations_of};
ghost use Rattle.window_margin.specs.Orders.{own_clash};
ghost use Rattle.window_margin.specs.Orders as orders;

use collision_pairs::{Span, clash};
use hoist_base::{Line, MoveId, VisitId};
use move_list::{Motion, duration, motion_of};
use path_constraints::{Moment, begin_of, end_of};
use timetable::Timetable;

/// From when to when a visit holds its tank.
#[derive(Clone, Copy)]
pub(crate) struct Hold {
    pub(crate) begin: Moment,
    pub(crate) end: Moment,
}

/// The motion of a move between the tanks that the timetable gives its carrier.
pub(crate) fn motion(line: &Line, t: &Timetable, m: MoveId) -> Motion
    requires fits { FitsLine line.now t.now }
    requires there { IsMove line.now m.carrier m.step }
    ensures value { result ≡ model.motion line.now (timetable_of t.now) m.carrier m.step }
    ensures motion { IsMotion result }
{
    motion_of(line, t.route(), m)
}

// How long a move lasts.
fn lasting(line: &Line, t: &Timetable, m: MoveId) -> u32
    requires fits { FitsLine line.now t.now }
    requires there { IsMove line.now m.carrier m.step }
    ensures value { result ≡ durations_of line.now (timetable_of t.now) m.carrier m.step }
    ensures small { result ≤ 2000 }
{
    duration(motion(line, t, m))
}

// When the hold of a visit begins.
fn begin(line: &Line, t: &Timetable, v: VisitId) -> Moment
    requires fits { FitsLine line.now t.now }
    requires there { IsVisit line.now v.carrier v.stage }
    requires valid { IsLine line.now }
    ensures value { result ≡ holds.begin_of line.now (durations_of line.now (timetable_of t.now)) v.carrier v.stage }
    ensures move_there { IsMove line.now result.carrier result.step }
    ensures small { unsigned_abs result.fixed ≤ 20000 }
{
    // The load station has no move before it, and the first one is looked at in vain.
    let before = MoveId {
        carrier: v.carrier,
        step: v.stage.saturating_sub(1),
    };
    begin_of(line, v, lasting(line, t, before))
}

// When it ends.
fn end(line: &Line, t: &Timetable, v: VisitId) -> Moment
    requires fits { FitsLine line.now t.now }
    requires there { IsVisit line.now v.carrier v.stage }
    ensures value { result ≡ holds.end_of line.now (durations_of line.now (timetable_of t.now)) v.carrier v.stage }
    ensures move_there { IsMove line.now result.carrier result.step }
    ensures small { unsigned_abs result.fixed ≤ 22000 }
    ensures valid { IsLine line.now }
{
    let last = MoveId {
        carrier: v.carrier,
        step: line.inner(),
    };
    end_of(line, v, lasting(line, t, last))
}

/// From when to when a visit holds its tank.
pub(crate) fn hold_of(line: &Line, t: &Timetable, v: VisitId) -> Hold
    requires fits { FitsLine line.now t.now }
    requires there { IsVisit line.now v.carrier v.stage }
    ensures begin { result.begin
        ≡ holds.begin_of line.now (durations_of line.now (timetable_of t.now)) v.carrier v.stage }
    ensures end { result.end ≡ holds.end_of line.now (durations_of line.now (timetable_of t.now)) v.carrier v.stage }
    ensures begin_there { IsMove line.now result.begin.carrier result.begin.step }
    ensures end_there { IsMove line.now result.end.carrier result.end.step }
    ensures small { (unsigned_abs result.begin.fixed ≤ 22000) × (unsigned_abs result.end.fixed ≤ 22000) }
{
    let end = end(line, t, v);
    let begin = begin(line, t, v);
    Hold { begin, end }
}

// The tick of a moment.
fn tick_of(line: &Line, t: &Timetable, moment: Moment) -> i64
    requires fits { FitsLine line.now t.now }
    requires there { IsMove line.now moment.carrier moment.step }
    requires fixed { unsigned_abs moment.fixed ≤ 22000 }
    ensures value { result ≡ holds.tick_of line.now (ticks_of line.now (timetable_of t.now)) moment }
    ensures small { (negsuc 21999 ≤ℤ result) × (result ≤ℤ pos 1000022000) }
{
    let m = MoveId {
        carrier: moment.carrier,
        step: moment.step,
    };
    start_of(line, t, m) + moment.fixed
}

// The tick at which a move starts.
fn start_of(line: &Line, t: &Timetable, m: MoveId) -> i64
    requires fits { FitsLine line.now t.now }
    requires there { IsMove line.now m.carrier m.step }
    ensures value { result ≡ orders.start_tick line.now (timetable_of t.now) m }
    ensures small { (pos 0 ≤ℤ result) × (result ≤ℤ pos 1000000000) }
{
    let _hoists = line.hoists();
    t.start(m) as i64
}

// The ticks at which the hold of a visit begins and ends.
fn begin_tick(line: &Line, t: &Timetable, v: VisitId) -> i64
    requires fits { FitsLine line.now t.now }
    requires there { IsVisit line.now v.carrier v.stage }
    ensures value { result ≡ orders.begin_tick line.now (timetable_of t.now) v }
    ensures small { (negsuc 21999 ≤ℤ result) × (result ≤ℤ pos 1000022000) }
{
    let hold = hold_of(line, t, v);
    tick_of(line, t, hold.begin)
}

fn end_tick(line: &Line, t: &Timetable, v: VisitId) -> i64
    requires fits { FitsLine line.now t.now }
    requires there { IsVisit line.now v.carrier v.stage }
    ensures value { result ≡ orders.end_tick line.now (timetable_of t.now) v }
    ensures small { (negsuc 21999 ≤ℤ result) × (result ≤ℤ pos 1000022000) }
{
    let hold = hold_of(line, t, v);
    tick_of(line, t, hold.end)
}

// How many ticks later one tick is than another.
fn ticks_from(earlier: i64, later: i64) -> i64
    requires earlier { (negsuc 21999 ≤ℤ earlier) × (earlier ≤ℤ pos 1000022000) }
    requires later { (negsuc 21999 ≤ℤ later) × (later ≤ℤ pos 1000022000) }
    ensures value { result ≡ later -ℤ earlier }
    ensures small { unsigned_abs result ≤ 1000044000 }
{
    later - earlier
}

// The least number of periods that are no fewer ticks than from one tick to another.
fn periods_from(earlier: i64, later: i64, period: u32) -> i64
    requires period { 1 ≤ period }
    requires earlier { unsigned_abs earlier ≤ 1000044000 }
    requires later { (negsuc 21999 ≤ℤ later) × (later ≤ℤ pos 1000022000) }
    ensures value { result ≡ orders.periods_for (later -ℤ earlier) period }
    ensures small { unsigned_abs result ≤ 2100000000 }
{
    let period = u64::from(period);
    let ticks = later - earlier;
    let size = ticks.unsigned_abs();
    if ticks < 0 {
        -((size / period) as i64)
    } else {
        size.div_ceil(period) as i64
    }
}

/// From how many periods on the second of two visits begins after the first has ended.
pub(crate) fn visit_order(line: &Line, t: &Timetable, a: VisitId, b: VisitId) -> i64
    requires fits { FitsLine line.now t.now }
    requires first { IsVisit line.now a.carrier a.stage }
    requires second { IsVisit line.now b.carrier b.stage }
    ensures value { result ≡ orders.visit_order line.now (timetable_of t.now) a b }
    ensures small { unsigned_abs result ≤ 2100000000 }
{
    periods_from(begin_tick(line, t, b), end_tick(line, t, a), t.period())
}

/// The offsets of two moves at which their hoists can't both follow them.
pub(crate) fn clash_of(line: &Line, t: &Timetable, a: MoveId, b: MoveId) -> Option<Span>
    requires fits { FitsLine line.now t.now }
    requires legal { IsLegal line.now (timetable_of t.now) }
    requires first { IsMove line.now a.carrier a.step }
    requires second { IsMove line.now b.carrier b.step }
    ensures value { result ≡ own_clash line.now (timetable_of t.now) a b }
    ensures tight { IfSome result IsTight }
{
    clash(
        line,
        motion(line, t, a),
        t.hoist(a),
        motion(line, t, b),
        t.hoist(b),
    )
}

/// From how many periods on the second of two moves starts late enough after the first.
pub(crate) fn move_order(line: &Line, t: &Timetable, a: MoveId, b: MoveId, span: Span) -> i64
    requires fits { FitsLine line.now t.now }
    requires first { IsMove line.now a.carrier a.step }
    requires second { IsMove line.now b.carrier b.step }
    requires tight { IsTight span }
    ensures value { result ≡ orders.move_order line.now (timetable_of t.now) a b span }
    ensures small { unsigned_abs result ≤ 2100000000 }
{
    let offset = ticks_from(start_of(line, t, a), start_of(line, t, b));
    periods_from(offset, span.after, t.period())
}
