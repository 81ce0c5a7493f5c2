// How long moves last below a path.
ghost use Rattle.std.specs.Prelude.{◌≡◌, ℕ, ◌+◌, ◌<◌, ◌≤◌, length, get_or, min, max, map, fold};
ghost use Rattle.hoist_base.specs.LineData.{IsMove, IsStep};
ghost use Rattle.line_model.specs.Motion.{IsMotion};
ghost use Rattle.line_model.specs.Motion as motion;
ghost use Rattle.path_constraints.specs.Questions.{FitsPath};
ghost use Rattle.path_constraints.specs.Tanks as below;

use crate::tanks::{tanks_after, tanks_before};
use choice_tree::Decision;
use hoist_base::{Line, MoveId};
use move_list::{Motion, duration};

/// The ticks that a move takes below a path, over the tanks that are open to its two visits.
///
/// - `low` and `high`: the least and the greatest duration.
/// - `back`: the least time until its hoist is back where it began.
#[derive(Clone, Copy)]
pub(crate) struct Times {
    pub(crate) low: u32,
    pub(crate) high: u32,
    pub(crate) back: u32,
}

/// The motion of a step between two tanks.
pub fn motion_between(line: &Line, step: u32, from: u32, to: u32) -> Motion
    requires step { IsStep line.now step }
    requires tanks { (from < length line.now.tanks) × (to < length line.now.tanks) }
    ensures value { result ≡ motion.motion_between line.now step from to }
    ensures motion { IsMotion result }
{
    let stages = line.stages();
    let step = step as usize;
    Motion {
        from: line.at(from),
        to: line.at(to),
        lift: stages[step].lift,
        lower: stages[step + 1].lower,
    }
}

// The times of one motion.
fn times_of(a: Motion) -> Times
    requires { IsMotion a }
    ensures low { result.low ≡ motion.duration a }
    ensures high { result.high ≡ motion.duration a }
    ensures back { result.back ≡ below.there_and_back a }
    ensures small { (result.low ≤ 2000) × (result.high ≤ 2000) × (result.back ≤ 3000) }
{
    let ticks = duration(a);
    Times {
        low: ticks,
        high: ticks,
        back: ticks + a.to.abs_diff(a.from),
    }
}

// The times over what was seen and one motion more.
fn widened(times: Times, a: Motion) -> Times
    requires motion { IsMotion a }
    requires small { (times.low ≤ 2000) × (times.high ≤ 2000) × (times.back ≤ 3000) }
    ensures low { result.low ≡ min times.low (motion.duration a) }
    ensures high { result.high ≡ max times.high (motion.duration a) }
    ensures back { result.back ≡ min times.back (below.there_and_back a) }
    ensures small { (result.low ≤ 2000) × (result.high ≤ 2000) × (result.back ≤ 3000) }
{
    let one = times_of(a);
    Times {
        low: times.low.min(one.low),
        high: times.high.max(one.high),
        back: times.back.min(one.back),
    }
}

// The times over what was seen and the motions from one tank.
fn widened_from(line: &Line, step: u32, from: u32, to: &[u32], seen: Times) -> Times
    requires step { IsStep line.now step }
    requires from { from < length line.now.tanks }
    requires to { (i : ℕ) → i < length to.now → get_or to.now i 0 < length line.now.tanks }
    requires small { (seen.low ≤ 2000) × (seen.high ≤ 2000) × (seen.back ≤ 3000) }
    ensures low { result.low ≡ fold min seen.low
        (map motion.duration (map (λ j. motion.motion_between line.now step from j) to.now)) }
    ensures high { result.high ≡ fold max seen.high
        (map motion.duration (map (λ j. motion.motion_between line.now step from j) to.now)) }
    ensures back { result.back ≡ fold min seen.back
        (map below.there_and_back (map (λ j. motion.motion_between line.now step from j) to.now)) }
    ensures small { (result.low ≤ 2000) × (result.high ≤ 2000) × (result.back ≤ 3000) }
{
    let mut times = seen;
    for i in 0..to.len() {
        times = widened(times, motion_between(line, step, from, to[i]));
    }
    times
}

/// The times of a move below the path.
pub(crate) fn times_below(line: &Line, path: &[Decision], m: MoveId) -> Times
    requires fits { FitsPath line.now path.now }
    requires there { IsMove line.now m.carrier m.step }
    ensures low { result.low ≡ below.low line.now path.now m.carrier m.step }
    ensures high { result.high ≡ below.high line.now path.now m.carrier m.step }
    ensures back { result.back ≡ below.back line.now path.now m.carrier m.step }
    ensures small { (result.low ≤ 2000) × (result.high ≤ 2000) × (result.back ≤ 3000) }
{
    let from = tanks_before(line, path, m);
    let to = tanks_after(line, path, m);
    let mut times = times_of(motion_between(line, m.step, from[0], to[0]));
    for i in 0..from.len() {
        times = widened_from(line, m.step, from[i], to, times);
    }
    times
}
