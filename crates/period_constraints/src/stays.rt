// When visits hold their tanks, where all tanks are settled, and the first two that hold one at one tick.
ghost use Rattle.std.specs.Prelude.{◌≡◌, ◌≤◌, ◌<◌, ◌-ℤ◌, unsigned_abs, IfSome};
ghost use Rattle.hoist_base.specs.LineData.{IsMove, visit_count};
ghost use Rattle.line_model.specs.Motion.{IsMotion};
ghost use Rattle.longest_path.specs.Bounds.{IsPeriod};
ghost use Rattle.path_constraints.specs.Holds as holds;
ghost use Rattle.path_constraints.specs.Ticks.{AreTicks, tick_at};
ghost use Rattle.period_constraints.specs.Pairs.{IsFirstShift, IsFirstPair};
ghost use Rattle.period_constraints.specs.Stays.{AreRouted, AreNear, IsStay};
ghost use Rattle.period_constraints.specs.Stays as stays;
ghost use Rattle.period_constraints.specs.Routed.{HoldOneTank};

use crate::pairs::{Pair, first_shift};
use hoist_base::{Line, MoveId, VisitId};
use move_list::{Motion, duration};
use path_constraints::{Moment, begin_of, end_of, motion_between, tick_of};

/// From when to when a visit holds its tank, in ticks from the tick of move 0 on.
#[derive(Clone, Copy)]
pub(crate) struct Stay {
    pub(crate) begin: i32,
    pub(crate) end: i32,
}

/// The motion of a move between the tanks of its two visits.
pub(crate) fn motion_by(line: &Line, tanks: &[u32], m: MoveId) -> Motion
    requires there { IsMove line.now m.carrier m.step }
    requires tanks { AreRouted line.now tanks.now }
    ensures value { result ≡ stays.motion_by line.now tanks.now m.carrier m.step }
    ensures motion { IsMotion result }
{
    let visit = VisitId {
        carrier: m.carrier,
        stage: m.step,
    };
    let from = line.visit_number(visit) as usize;
    motion_between(line, m.step, tanks[from], tanks[from + 1])
}

// How long a move lasts between the tanks of its two visits.
fn lasting(line: &Line, tanks: &[u32], m: MoveId) -> u32
    requires there { IsMove line.now m.carrier m.step }
    requires tanks { AreRouted line.now tanks.now }
    ensures value { result ≡ stays.lasting line.now tanks.now m.carrier m.step }
    ensures small { result ≤ 2000 }
{
    duration(motion_by(line, tanks, m))
}

/// How many ticks after the start of move 0 a moment is.
pub(crate) fn since_first(line: &Line, ticks: &[i64], moment: Moment) -> i32
    requires there { IsMove line.now moment.carrier moment.step }
    requires fixed { unsigned_abs moment.fixed ≤ 22000 }
    requires ticks { AreTicks line.now ticks.now }
    requires near { AreNear line.now (tick_at ticks.now) }
    ensures value { result ≡ holds.tick_of line.now (tick_at ticks.now) moment -ℤ tick_at ticks.now 0 }
    ensures near { unsigned_abs result ≤ 900000 }
{
    let tick = tick_of(line, ticks, moment);
    (tick - ticks[0]) as i32
}

// The stay of a visit.
fn stay_at(line: &Line, tanks: &[u32], ticks: &[i64], number: u32) -> Stay
    requires there { number < visit_count line.now }
    requires tanks { AreRouted line.now tanks.now }
    requires ticks { AreTicks line.now ticks.now }
    requires near { AreNear line.now (tick_at ticks.now) }
    ensures { IsStay line.now tanks.now (tick_at ticks.now) number result }
{
    let visit = line.visit_at(number);
    // The load station has no move before it, and the first one is looked at in vain.
    let before = MoveId {
        carrier: visit.carrier,
        step: visit.stage.saturating_sub(1),
    };
    let last = MoveId {
        carrier: visit.carrier,
        step: line.inner(),
    };
    let begin = begin_of(line, visit, lasting(line, tanks, before));
    let end = end_of(line, visit, lasting(line, tanks, last));
    Stay {
        begin: since_first(line, ticks, begin),
        end: since_first(line, ticks, end),
    }
}

// The first q at which two visits, the second q periods later, hold one tank at one tick.
fn shared_shift(
    line: &Line,
    tanks: &[u32],
    ticks: &[i64],
    period: u32,
    first: u32,
    second: u32,
) -> Option<i64>
    requires tanks { AreRouted line.now tanks.now }
    requires ticks { AreTicks line.now ticks.now }
    requires near { AreNear line.now (tick_at ticks.now) }
    requires period { IsPeriod period }
    requires there { (first < second) × (second < visit_count line.now) }
    ensures first { IsFirstShift (HoldOneTank line.now tanks.now (tick_at ticks.now) period first second) result }
    ensures small { IfSome result (λ q. unsigned_abs q ≤ 1000000000) }
{
    if tanks[first as usize] == tanks[second as usize] {
        let a = stay_at(line, tanks, ticks, first);
        let b = stay_at(line, tanks, ticks, second);
        first_shift(a.begin - b.end, a.end - b.begin, period)
    } else {
        None
    }
}

// The first later visit that holds the tank of this one at one tick, with its first shift.
fn first_tank_pair_of(
    line: &Line,
    tanks: &[u32],
    ticks: &[i64],
    period: u32,
    first: u32,
) -> Option<Pair>
    requires tanks { AreRouted line.now tanks.now }
    requires ticks { AreTicks line.now ticks.now }
    requires near { AreNear line.now (tick_at ticks.now) }
    requires period { IsPeriod period }
    requires there { first < visit_count line.now }
    ensures first { IsFirstPair (λ i j q. (i ≡ first)
        × HoldOneTank line.now tanks.now (tick_at ticks.now) period i j q) result }
    ensures small { IfSome result (λ x. unsigned_abs x.shift ≤ 1000000000) }
{
    let count = line.visit_count();
    for second in first + 1..count {
        let shift = shared_shift(line, tanks, ticks, period, first, second);
        if let Some(shift) = shift {
            return Some(Pair {
                first,
                second,
                shift,
            });
        }
    }
    None
}

/// The first two visits that hold one tank at one tick. Their stays are reckoned only where they have one tank.
pub(crate) fn first_tank_pair(
    line: &Line,
    tanks: &[u32],
    ticks: &[i64],
    period: u32,
) -> Option<Pair>
    requires tanks { AreRouted line.now tanks.now }
    requires ticks { AreTicks line.now ticks.now }
    requires near { AreNear line.now (tick_at ticks.now) }
    requires period { IsPeriod period }
    ensures first { IsFirstPair (HoldOneTank line.now tanks.now (tick_at ticks.now) period) result }
    ensures small { IfSome result (λ x. unsigned_abs x.shift ≤ 1000000000) }
{
    for first in 0..line.visit_count() {
        let pair = first_tank_pair_of(line, tanks, ticks, period, first);
        if pair.is_some() {
            return pair;
        }
    }
    None
}
