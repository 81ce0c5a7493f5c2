// The tanks that a path leaves open to a visit.
ghost use Rattle.std.specs.Prelude.{◌≡◌, ℕ, ◌+◌, ◌<◌, length, get_or};
ghost use Rattle.hoist_base.specs.LineData.{IsMove, IsVisit};
ghost use Rattle.hoist_base.specs.Valid.{IsLine};
ghost use Rattle.path_constraints.specs.Questions.{FitsPath};
ghost use Rattle.path_constraints.specs.Tanks as below;

use choice_tree::{Decision, Question};
use hoist_base::{Line, MoveId, VisitId};

// Which tank of its stage's list a visit has by its Choose on the path.
pub(crate) fn choice_of(path: &[Decision], visit: VisitId) -> Option<u32>
    ensures { result ≡ below.choice_of path.now visit.carrier visit.stage }
{
    for decision in path {
        if let Question::Choose { v } = decision.question {
            if v.carrier == visit.carrier && v.stage == visit.stage {
                return Some(decision.child);
            }
        }
    }
    None
}

/// The tanks that are open to a visit below the path: the one of its Choose, or all of its stage.
///
/// A stage with one tank has no Choose, so the path is not looked at there.
pub fn tanks_below<'a>(line: &'a Line, path: &[Decision], visit: VisitId) -> &'a [u32]
    requires fits { FitsPath line.now path.now }
    requires there { IsVisit line.now visit.carrier visit.stage }
    ensures value { result.now ≡ below.tanks_below line.now path.now visit.carrier visit.stage }
    ensures some { 0 < length result.now }
    ensures tanks { (i : ℕ) → i < length result.now → get_or result.now i 0 < length line.now.tanks }
    ensures valid { IsLine line.now }
{
    let tanks = line.stages()[visit.stage as usize].tanks.as_slice();
    if tanks.len() < 2 {
        return tanks;
    }
    match choice_of(path, visit) {
        None => tanks,
        Some(number) => &tanks[number as usize..number as usize + 1],
    }
}

/// The tanks that are open to the visit that a move begins at.
pub(crate) fn tanks_before<'a>(line: &'a Line, path: &[Decision], m: MoveId) -> &'a [u32]
    requires fits { FitsPath line.now path.now }
    requires there { IsMove line.now m.carrier m.step }
    ensures value { result.now ≡ below.tanks_below line.now path.now m.carrier m.step }
    ensures some { 0 < length result.now }
    ensures tanks { (i : ℕ) → i < length result.now → get_or result.now i 0 < length line.now.tanks }
    ensures valid { IsLine line.now }
{
    tanks_below(
        line,
        path,
        VisitId {
            carrier: m.carrier,
            stage: m.step,
        },
    )
}

/// The tanks that are open to the visit that a move ends at.
pub(crate) fn tanks_after<'a>(line: &'a Line, path: &[Decision], m: MoveId) -> &'a [u32]
    requires fits { FitsPath line.now path.now }
    requires there { IsMove line.now m.carrier m.step }
    requires valid { IsLine line.now }
    ensures value { result.now ≡ below.tanks_below line.now path.now m.carrier (m.step + 1) }
    ensures some { 0 < length result.now }
    ensures tanks { (i : ℕ) → i < length result.now → get_or result.now i 0 < length line.now.tanks }
    ensures valid { IsLine line.now }
{
    tanks_below(
        line,
        path,
        VisitId {
            carrier: m.carrier,
            stage: m.step + 1,
        },
    )
}
