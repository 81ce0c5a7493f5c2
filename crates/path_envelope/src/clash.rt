// The first two fixed points that contradict one another.
ghost use Rattle.std.specs.Prelude.{
  ◌≡◌,
  ◌<◌,
  ◌≤◌,
  ◌+◌,
  ◌*◌,
  ◌/◌,
  ◌%◌,
  ◌↔◌,
  ◌≤ℤ◌,
  ◌-ℤ◌,
  ℕ,
  ℤ,
  pos,
  length,
  get_or,
  unsigned_abs,
  IsTrue,
  MatchOption,
};
ghost use Rattle.hoist_base.specs.LineData.{last_stage, move_count};
ghost use Rattle.hoist_base.specs.Routes.{IsRoute, route_tank};
ghost use Rattle.line_model.specs.Motion.{IsMotion, motion_by};
ghost use Rattle.path_envelope.specs.Duties.{duties, Agree, Contradict, apart};
ghost use Rattle.path_envelope.specs.FirstClash as turns;
ghost use Rattle.path_envelope.specs.FirstClash.{
  Given,
  IsGiven,
  IsPartner,
  HasPartner,
  IsFirstPartner,
  IsFirstClash,
  IsNearestTick,
  NoneOfMove,
  NoneOfHoist,
  IsFirstOfMove,
  IsFirstOfHoist,
  IsNearestCopy,
  AreClash,
  IsSmall,
};
ghost use Rattle.path_envelope.specs.Slots.{AreMoves};

use crate::duties::Duties;
use crate::point::Point;
use hoist_base::{Line, Route};
use move_list::{Motion, duration, motion_of, place};

/// The first fixed point of the starts as given that contradicts another or a copy of it, by hoist, then by move, then
/// by tick; and the first one that it contradicts, in its nearest copy. None where no two fixed points contradict one
/// another.
pub(crate) fn first_clash(asked: Duties) -> Option<(Point, Point)>
    requires moves { AreMoves asked.line.now asked.route.now asked.period asked.starts.now asked.hoists.now }
    ensures { let p = duties asked.entry.line.now asked.entry.route.now asked.entry.period asked.entry.starts.now
        asked.entry.hoists.now in MatchOption result (Agree asked.entry.line.now p)
        (λ pair. IsFirstClash asked.entry.line.now p pair.0 pair.1) }
{
    for h in 0..asked.line.hoists() {
        if let Some(pair) = clash_of_hoist(asked, h) {
            return Some(pair);
        }
    }
    None
}

// The same among the fixed points of one hoist.
fn clash_of_hoist(asked: Duties, h: u32) -> Option<(Point, Point)>
    requires moves { AreMoves asked.line.now asked.route.now asked.period asked.starts.now asked.hoists.now }
    ensures { let p = duties asked.entry.line.now asked.entry.route.now asked.entry.period asked.entry.starts.now
        asked.entry.hoists.now in MatchOption result
        (NoneOfHoist asked.entry.line.now p (HasPartner asked.entry.line.now p) h (move_count asked.entry.line.now))
        (λ pair. (g : Given) × IsFirstOfHoist asked.entry.line.now p (HasPartner asked.entry.line.now p) h g
        × AreClash asked.entry.line.now p g pair) }
{
    for number in 0..asked.line.move_count() {
        if asked.hoists[number as usize] == h {
            if let Some(pair) = clash_of_move(asked, number) {
                return Some(pair);
            }
        }
    }
    None
}

// The same among the fixed points of one move.
fn clash_of_move(asked: Duties, number: u32) -> Option<(Point, Point)>
    requires moves { AreMoves asked.line.now asked.route.now asked.period asked.starts.now asked.hoists.now }
    requires number { number < move_count asked.line.now }
    ensures { let p = duties asked.entry.line.now asked.entry.route.now asked.entry.period asked.entry.starts.now
        asked.entry.hoists.now in MatchOption result
        (NoneOfMove asked.entry.line.now p (HasPartner asked.entry.line.now p) number)
        (λ pair. (g : Given) × IsFirstOfMove asked.entry.line.now p (HasPartner asked.entry.line.now p) number g
        × AreClash asked.entry.line.now p g pair) }
{
    let motion = motion_by_number(asked.line, asked.route, number);
    let start = asked.starts[number as usize];
    for u in 0..duration(motion) + 1 {
        let x = Point {
            hoist: asked.hoists[number as usize],
            tick: (start + u64::from(u)) as i64,
            at: place(motion, u),
        };
        if let Some(y) = first_partner(asked, x) {
            return Some((x, y));
        }
    }
    None
}

// The first fixed point that contradicts a point, by itself or by a copy, in the copy that is nearest to it.
fn first_partner(asked: Duties, x: Point) -> Option<Point>
    requires moves { AreMoves asked.line.now asked.route.now asked.period asked.starts.now asked.hoists.now }
    requires small { IsSmall asked.line.now x }
    ensures { let p = duties asked.entry.line.now asked.entry.route.now asked.entry.period asked.entry.starts.now
        asked.entry.hoists.now in MatchOption result
        ((g : Given) → IsGiven asked.entry.line.now p g → IsPartner asked.entry.line.now p x g → ⊥)
        (λ y. IsFirstPartner asked.entry.line.now p x y) }
{
    for h in 0..asked.line.hoists() {
        if let Some(y) = partner_of_hoist(asked, h, x) {
            return Some(y);
        }
    }
    None
}

// The same among the fixed points of one hoist.
fn partner_of_hoist(asked: Duties, h: u32, x: Point) -> Option<Point>
    requires moves { AreMoves asked.line.now asked.route.now asked.period asked.starts.now asked.hoists.now }
    requires small { IsSmall asked.line.now x }
    ensures { let p = duties asked.entry.line.now asked.entry.route.now asked.entry.period asked.entry.starts.now
        asked.entry.hoists.now in MatchOption result
        (NoneOfHoist asked.entry.line.now p (IsPartner asked.entry.line.now p x) h (move_count asked.entry.line.now))
        (λ y. (g : Given) × IsFirstOfHoist asked.entry.line.now p (IsPartner asked.entry.line.now p x) h g
        × IsNearestCopy asked.entry.line.now p x g y) }
{
    for number in 0..asked.line.move_count() {
        if asked.hoists[number as usize] == h {
            if let Some(y) = partner_of_move(asked, number, x) {
                return Some(y);
            }
        }
    }
    None
}

// The same among the fixed points of one move.
fn partner_of_move(asked: Duties, number: u32, x: Point) -> Option<Point>
    requires moves { AreMoves asked.line.now asked.route.now asked.period asked.starts.now asked.hoists.now }
    requires number { number < move_count asked.line.now }
    requires small { IsSmall asked.line.now x }
    ensures { let p = duties asked.entry.line.now asked.entry.route.now asked.entry.period asked.entry.starts.now
        asked.entry.hoists.now in MatchOption result
        (NoneOfMove asked.entry.line.now p (IsPartner asked.entry.line.now p x) number)
        (λ y. (g : Given) × IsFirstOfMove asked.entry.line.now p (IsPartner asked.entry.line.now p x) number g
        × IsNearestCopy asked.entry.line.now p x g y) }
{
    let motion = motion_by_number(asked.line, asked.route, number);
    let start = asked.starts[number as usize];
    for u in 0..duration(motion) + 1 {
        let y = Point {
            hoist: asked.hoists[number as usize],
            tick: nearest(x.tick, start + u64::from(u), asked.period),
            at: place(motion, u),
        };
        if contradicts(asked.line, x, y) {
            return Some(y);
        }
    }
    None
}

// The motion of a move by its number.
fn motion_by_number(line: &Line, route: &Route, number: u32) -> Motion
    requires route { IsRoute line.now route.now }
    requires number { number < move_count line.now }
    ensures value { result ≡ motion_by line.now (route_tank line.now route.now (number / last_stage line.now))
        (number % last_stage line.now) }
    ensures motion { IsMotion result }
    ensures moves { 1 ≤ last_stage line.now }
{
    motion_of(line, route, line.move_at(number))
}

// Whether no positions that keep to the track go through both points.
fn contradicts(line: &Line, x: Point, y: Point) -> bool
    requires hoists { (x.hoist < line.now.hoists) × (y.hoist < line.now.hoists) }
    requires small { (x.at ≤ 1000) × (y.at ≤ 1000) }
    requires ticks { apart x y ≤ 20000 }
    ensures { IsTrue result ↔ Contradict line.now x y }
{
    let gap = line.gap();
    let ticks = x.tick.abs_diff(y.tick);
    if x.hoist == y.hoist {
        return ticks < u64::from(x.at.abs_diff(y.at));
    }
    if x.hoist < y.hoist {
        u64::from(y.at) + ticks < u64::from(x.at + (y.hoist - x.hoist) * gap)
    } else {
        u64::from(x.at) + ticks < u64::from(y.at + (x.hoist - y.hoist) * gap)
    }
}

// Of a tick and its copies, whole periods away, the one that is nearest to another tick, the earlier of two that are
// equally near.
fn nearest(to: i64, tick: u64, period: u32) -> i64
    requires to { (pos 0 ≤ℤ to) × (to ≤ℤ pos 1000002000) }
    requires tick { tick ≤ 1000002000 }
    requires period { (1 ≤ period) × (period ≤ 20000) }
    ensures nearest { IsNearestTick period to tick result }
    ensures near { unsigned_abs (to -ℤ result) ≤ 20000 }
{
    let after = wait(to.unsigned_abs(), tick, period);
    let next = to + i64::from(after);
    if 2 * after < period {
        next
    } else {
        next - i64::from(period)
    }
}

// How many ticks after a tick the next copy of another one comes.
fn wait(to: u64, tick: u64, period: u32) -> u32
    requires { (1 ≤ period) × (period ≤ 20000) }
    ensures value { result ≡ turns.wait period to tick }
    ensures small { result < period }
{
    let period = u64::from(period);
    ((tick % period + period - to % period) % period) as u32
}
