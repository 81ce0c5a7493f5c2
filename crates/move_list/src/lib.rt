// The motion of each move of a line: how long it lasts, where its hoist is at each tick, and which hoists reach it.
#![tactic(auto)]

ghost use Rattle.std.specs.Prelude.{◌≡◌, ◌+◌, ◌*◌, ◌<◌, ◌≤◌, ◌↔◌, length, IsTrue};
ghost use Rattle.hoist_base.specs.LineData.{IsMove, IsVisit};
ghost use Rattle.hoist_base.specs.Routes.{IsRoute, route_tank};
ghost use Rattle.line_model.specs.Motion.{IsMotion, Reaches, ReachesMotion, motion_by};
ghost use Rattle.line_model.specs.Motion as motion;

use hoist_base::{Line, MoveId, Route};
pub use line_model::Motion;

// The tank that a carrier uses at a stage.
fn tank_of(line: &Line, route: &Route, carrier: u32, stage: u32) -> u32
    requires route { IsRoute line.now route.now }
    requires visit { IsVisit line.now carrier stage }
    ensures value { result ≡ route_tank line.now route.now carrier stage }
    ensures there { result < length line.now.tanks }
{
    let stages = line.stages().len();
    route.as_slice()[carrier as usize * stages + stage as usize]
}

/// The motion of a move: from the place of its visit's tank to that of the next visit's, in ticks of travel, with the
/// ticks that lifting and lowering take there.
pub fn motion_of(line: &Line, route: &Route, m: MoveId) -> Motion
    requires route { IsRoute line.now route.now }
    requires there { IsMove line.now m.carrier m.step }
    ensures value { result ≡ motion_by line.now (route_tank line.now route.now m.carrier) m.step }
    ensures motion { IsMotion result }
{
    let stages = line.stages();
    let step = m.step as usize;
    let from = tank_of(line, route, m.carrier, m.step);
    let to = tank_of(line, route, m.carrier, m.step + 1);
    Motion {
        from: line.at(from),
        to: line.at(to),
        lift: stages[step].lift,
        lower: stages[step + 1].lower,
    }
}

/// The ticks that a motion lasts: lifting, one tick for each unit of travel, and lowering.
pub fn duration(a: Motion) -> u32
    requires { IsMotion a }
    ensures value { result ≡ motion.duration a }
    ensures small { result ≤ 2000 }
{
    a.lift + a.from.abs_diff(a.to) + a.lower
}

/// Where the hoist is `u` ticks after the start of a motion: at `from` while it lifts, then a unit further each tick,
/// and then at `to`.
pub fn place(a: Motion, u: u32) -> u32
    requires motion { IsMotion a }
    requires tick { u ≤ motion.duration a }
    ensures value { result ≡ motion.place a u }
    ensures small { result ≤ 1000 }
{
    let travelled = u.saturating_sub(a.lift);
    if a.from <= a.to {
        a.to.min(a.from + travelled)
    } else {
        a.to.max(a.from.saturating_sub(travelled))
    }
}

/// Whether hoist `h` reaches a position: the hoists below it have room before it, and those above it behind it.
pub fn reaches_place(line: &Line, h: u32, at: u32) -> bool
    requires hoist { h < line.now.hoists }
    requires small { at ≤ 1000 }
    ensures { IsTrue result ↔ Reaches line.now h at }
{
    h * line.gap() <= at && at + (line.hoists() - 1 - h) * line.gap() <= line.track()
}

/// Whether hoist `h` reaches a motion: it reaches both of its ends.
pub fn reaches(line: &Line, h: u32, a: Motion) -> bool
    requires hoist { h < line.now.hoists }
    requires motion { IsMotion a }
    ensures { IsTrue result ↔ ReachesMotion line.now h a }
{
    reaches_place(line, h, a.from) && reaches_place(line, h, a.to)
}
