// Whether a question may stand below a path.
ghost use Rattle.std.specs.Prelude.{◌≡◌, ◌≤◌, ◌<◌, ◌↔◌, length, IsTrue, unsigned_abs};
ghost use Rattle.hoist_base.specs.LineData.{IsMove, IsVisit};
ghost use Rattle.hoist_base.specs.LineData.{stage as stage_of};
ghost use Rattle.hoist_base.specs.Valid.{IsLine};
ghost use Rattle.path_constraints.specs.Tanks as tanks;
ghost use Rattle.path_constraints.specs.Hoists as hoists;
ghost use Rattle.path_constraints.specs.Questions as questions;
ghost use Rattle.path_constraints.specs.Questions.{
  IsBefore,
  HasBegin,
  ShareTank,
  MayClash,
  IsOpenVisit,
  IsOpenMove,
  FitsPath,
  Fits,
};

use crate::rides::{assigned_of, clash_below, motion_below, reaching_count};
use crate::tanks::{choice_of, tanks_below};
use choice_tree::{Decision, Question};
use hoist_base::{Line, MoveId, VisitId};

// Whether one comes before another, by carrier and then by stage or step.
fn comes_before(carrier: u32, at: u32, other_carrier: u32, other_at: u32) -> bool
    ensures { IsTrue result ↔ IsBefore carrier at other_carrier other_at }
{
    carrier < other_carrier || (carrier == other_carrier && at < other_at)
}

// Whether q is not too large for a question that fits.
fn is_small(q: i64) -> bool
    ensures { IsTrue result ↔ (unsigned_abs q ≤ 1000000000) }
{
    q.unsigned_abs() <= 1_000_000_000
}

// Whether the stage of a visit has a choice, and the path makes none.
fn is_open_visit(line: &Line, path: &[Decision], v: VisitId) -> bool
    ensures { IsTrue result ↔ IsOpenVisit line.now path.now v }
{
    if !line.has_visit(v) {
        return false;
    }
    if line.stages()[v.stage as usize].tanks.as_slice().len() < 2 {
        return false;
    }
    choice_of(path, v).is_none()
}

// Whether a move has one motion below the path, no hoist on it, and not one hoist alone that reaches it.
fn is_open_move(line: &Line, path: &[Decision], m: MoveId) -> bool
    requires { FitsPath line.now path.now }
    ensures { IsTrue result ↔ IsOpenMove line.now path.now m }
{
    if !line.has_move(m) {
        return false;
    }
    match motion_below(line, path, m) {
        None => false,
        Some(a) => {
            if reaching_count(line, a) == 1 {
                return false;
            }
            assigned_of(path, m).is_none()
        }
    }
}

// The tank of a visit, where the path leaves it one only.
fn tank_below(line: &Line, path: &[Decision], v: VisitId) -> Option<u32>
    requires fits { FitsPath line.now path.now }
    requires there { IsVisit line.now v.carrier v.stage }
    ensures { result ≡ tanks.tank_below line.now path.now v.carrier v.stage }
{
    let tanks = tanks_below(line, path, v);
    if tanks.len() == 1 {
        Some(tanks[0])
    } else {
        None
    }
}

// Whether the begin of a visit's hold is settled.
fn has_begin(line: &Line, path: &[Decision], v: VisitId) -> bool
    requires fits { FitsPath line.now path.now }
    requires there { IsVisit line.now v.carrier v.stage }
    ensures { IsTrue result ↔ HasBegin line.now path.now v.carrier v.stage }
{
    if v.stage == 0 {
        return true;
    }
    let before = VisitId {
        carrier: v.carrier,
        stage: v.stage - 1,
    };
    tank_below(line, path, before).is_some()
}

// Whether two visits in their order have the same only tank, and the begins of their holds are settled.
fn share_tank(line: &Line, path: &[Decision], a: VisitId, b: VisitId) -> bool
    requires { FitsPath line.now path.now }
    ensures { IsTrue result ↔ ShareTank line.now path.now a b }
{
    if !line.has_visit(a) || !line.has_visit(b) {
        return false;
    }
    if !comes_before(a.carrier, a.stage, b.carrier, b.stage) {
        return false;
    }
    if !has_begin(line, path, a) || !has_begin(line, path, b) {
        return false;
    }
    match tank_below(line, path, a) {
        None => false,
        Some(tank) => match tank_below(line, path, b) {
            None => false,
            Some(other) => tank == other,
        },
    }
}

// Whether two moves in their order clash.
fn may_clash(line: &Line, path: &[Decision], a: MoveId, b: MoveId) -> bool
    requires { FitsPath line.now path.now }
    ensures { IsTrue result ↔ MayClash line.now path.now a b }
{
    if !line.has_move(a) || !line.has_move(b) {
        return false;
    }
    if !comes_before(a.carrier, a.step, b.carrier, b.step) {
        return false;
    }
    clash_below(line, path, a, b).is_some()
}

/// Whether the question may stand below the path.
///
/// - `Choose`: the stage of the visit has two tanks or more, and the path has no Choose of it.
/// - `TankOrder`: two visits in their order have one tank each, the same, and the begins of their holds are settled.
/// - `HoistOrder`: two moves in their order have their hoists and clash.
/// - `Assign`: the move has one motion and no hoist, and not one hoist alone reaches it.
///
/// The size of q is at most 1,000,000,000.
pub fn fits(line: &Line, path: &[Decision], question: Question) -> bool
    requires { FitsPath line.now path.now }
    ensures { IsTrue result ↔ Fits line.now path.now question }
{
    match question {
        Question::Assign { m } => is_open_move(line, path, m),
        Question::TankOrder { a, b, q } => is_small(q) && share_tank(line, path, a, b),
        Question::HoistOrder { a, b, q } => is_small(q) && may_clash(line, path, a, b),
        Question::Choose { v } => is_open_visit(line, path, v),
    }
}

// How many hoists reach a move, where the path settles its motion.
fn hoist_count(line: &Line, path: &[Decision], m: MoveId) -> u32
    requires fits { FitsPath line.now path.now }
    requires there { IsMove line.now m.carrier m.step }
    ensures { result ≡ length (hoists.hoists_below line.now path.now m.carrier m.step) }
{
    match motion_below(line, path, m) {
        None => 0,
        Some(a) => reaching_count(line, a),
    }
}

// How many tanks a stage has.
fn tank_count(line: &Line, stage: u32) -> u32
    requires { stage < length line.now.stages }
    ensures { result ≡ length (stage_of line.now stage).tanks }
{
    line.stages()[stage as usize].tanks.as_slice().len() as u32
}

/// How many children a question that fits the path has: one for each tank of the stage or each hoist that reaches the
/// move, or the two orders.
pub fn child_count(line: &Line, path: &[Decision], question: Question) -> u32
    requires fits { FitsPath line.now path.now }
    requires question { Fits line.now path.now question }
    ensures { result ≡ questions.child_count line.now path.now question }
{
    match question {
        Question::Assign { m } => hoist_count(line, path, m),
        Question::TankOrder { .. } => 2,
        Question::HoistOrder { .. } => 2,
        Question::Choose { v } => tank_count(line, v.stage),
    }
}
