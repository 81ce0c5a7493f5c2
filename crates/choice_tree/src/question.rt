// Questions that cut the space of timetables, and decisions on them.
use hoist_base::{MoveId, VisitId};

/// A question of which each timetable meets at least one child.
///
/// - `Assign`: which hoist does move `m`? A child for each hoist that reaches it.
/// - `TankOrder`: two visits of one tank, `b` by the carrier that comes `q` periods later: which comes first?
/// - `HoistOrder`: two moves whose hoists could collide, `b` by the carrier that comes `q` periods later: which
///   goes first?
/// - `Choose`: which tank of its stage does visit `v` use? A child for each tank.
#[derive(Clone, Copy, Debug, PartialEq, Eq)]
pub enum Question {
    Assign { m: MoveId },
    TankOrder { a: VisitId, b: VisitId, q: i64 },
    HoistOrder { a: MoveId, b: MoveId, q: i64 },
    Choose { v: VisitId },
}

/// A question and the number of the child that is taken, from 0.
///
/// For `Assign` the child's number counts the hoists that reach the move, from the lowest. For `Choose` it is the
/// number of the tank in its stage's list. For an order, child 0 has `a` first and child 1 has `b` first.
#[derive(Clone, Copy, Debug, PartialEq, Eq)]
pub struct Decision {
    pub question: Question,
    pub child: u32,
}
