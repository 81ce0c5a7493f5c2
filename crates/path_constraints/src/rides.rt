// The motions and the hoists that a path settles.
ghost use Rattle.std.specs.Prelude.{◌≡◌, ℕ, ◌<◌, ◌↔◌, length, slice_get, IfSome};
ghost use Rattle.hoist_base.specs.LineData.{IsMove};
ghost use Rattle.line_model.specs.Motion.{IsMotion};
ghost use Rattle.collision_pairs.specs.Clash.{IsTight};
ghost use Rattle.path_constraints.specs.Questions.{FitsPath};
ghost use Rattle.path_constraints.specs.Tanks as tanks;
ghost use Rattle.path_constraints.specs.Hoists as hoists;

use crate::tanks::{tanks_after, tanks_before};
use crate::times::motion_between;
use choice_tree::{Decision, Question};
use collision_pairs::{Span, clash};
use hoist_base::{Line, MoveId};
use move_list::{Motion, reaches};

/// A motion and the hoist that follows it.
#[derive(Clone, Copy, PartialEq, Eq)]
pub struct Ride {
    pub motion: Motion,
    pub hoist: u32,
}

// The motion of a move where both of its visits have one tank below the path.
pub(crate) fn motion_below(line: &Line, path: &[Decision], m: MoveId) -> Option<Motion>
    requires fits { FitsPath line.now path.now }
    requires there { IsMove line.now m.carrier m.step }
    ensures value { result ≡ tanks.motion_below line.now path.now m.carrier m.step }
    ensures motion { IfSome result IsMotion }
{
    let from = tanks_before(line, path, m);
    let to = tanks_after(line, path, m);
    if from.len() != 1 || to.len() != 1 {
        return None;
    }
    Some(motion_between(line, m.step, from[0], to[0]))
}

// Which of the hoists that reach it a move has by its Assign on the path.
pub(crate) fn assigned_of(path: &[Decision], named: MoveId) -> Option<u32>
    ensures { result ≡ hoists.assigned_of path.now named.carrier named.step }
{
    for decision in path {
        if let Question::Assign { m } = decision.question {
            if m.carrier == named.carrier && m.step == named.step {
                return Some(decision.child);
            }
        }
    }
    None
}

/// How many hoists reach a motion.
pub fn reaching_count(line: &Line, a: Motion) -> u32
    requires { IsMotion a }
    ensures count { result ≡ length (hoists.hoists_reaching line.now a) }
{
    let mut count = 0;
    for h in 0..line.hoists() {
        if reaches(line, h, a) {
            count += 1;
        }
    }
    count
}

// The hoist with this number among those that reach a motion, from the lowest.
fn reaching(line: &Line, a: Motion, number: u32) -> Option<u32>
    requires { IsMotion a }
    ensures value { result ≡ slice_get (hoists.hoists_reaching line.now a) number }
    ensures hoist { IfSome result (λ h. h < line.now.hoists) }
{
    let mut left = number;
    for h in 0..line.hoists() {
        if reaches(line, h, a) {
            if left == 0 {
                return Some(h);
            }
            left -= 1;
        }
    }
    None
}

/// The hoist of a move with this motion, where it is known which of those that reach it are assigned.
pub fn hoist_by(line: &Line, a: Motion, assigned: Option<u32>) -> Option<u32>
    requires { IsMotion a }
    ensures value { result ≡ hoists.hoist_by (hoists.hoists_reaching line.now a) assigned }
    ensures hoist { IfSome result (λ h. h < line.now.hoists) }
{
    if reaching_count(line, a) < 2 {
        return reaching(line, a, 0);
    }
    match assigned {
        None => None,
        Some(number) => reaching(line, a, number),
    }
}

/// The ride of a move, where the path settles its motion and its hoist.
fn ride_below(line: &Line, path: &[Decision], m: MoveId) -> Option<Ride>
    requires fits { FitsPath line.now path.now }
    requires there { IsMove line.now m.carrier m.step }
    ensures value { result ≡ hoists.ride_below line.now path.now m.carrier m.step }
    ensures ride { IfSome result (λ r. IsMotion r.motion × (r.hoist < line.now.hoists)) }
{
    match motion_below(line, path, m) {
        None => None,
        Some(motion) => match hoist_by(line, motion, assigned_of(path, m)) {
            None => None,
            Some(hoist) => Some(Ride { motion, hoist }),
        },
    }
}

/// The clash of two moves, where the path settles both rides and some offset is forbidden.
pub(crate) fn clash_below(line: &Line, path: &[Decision], a: MoveId, b: MoveId) -> Option<Span>
    requires fits { FitsPath line.now path.now }
    requires first { IsMove line.now a.carrier a.step }
    requires second { IsMove line.now b.carrier b.step }
    ensures value { result ≡ hoists.clash_below line.now path.now a b }
    ensures tight { IfSome result IsTight }
{
    match ride_below(line, path, a) {
        None => None,
        Some(x) => match ride_below(line, path, b) {
            None => None,
            Some(y) => clash(line, x.motion, x.hoist, y.motion, y.hoist),
        },
    }
}

/// The hoist of a move, where the path settles its motion and its hoist: the only one that reaches it, or that of its
/// Assign.
pub fn hoist_below(line: &Line, path: &[Decision], m: MoveId) -> Option<u32>
    requires fits { FitsPath line.now path.now }
    requires there { IsMove line.now m.carrier m.step }
    ensures { result ≡ hoists.hoist_below line.now path.now m.carrier m.step }
{
    match ride_below(line, path, m) {
        None => None,
        Some(ride) => Some(ride.hoist),
    }
}
