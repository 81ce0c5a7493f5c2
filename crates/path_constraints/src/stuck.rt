// Moves that no hoist may reach.
ghost use Rattle.std.specs.Prelude.{◌≡◌, ℕ, ◌<◌, ◌↔◌, length, get_or, IsTrue, Contains};
ghost use Rattle.hoist_base.specs.LineData.{IsMove, position_of};
ghost use Rattle.line_model.specs.Motion.{Reaches};
ghost use Rattle.path_constraints.specs.Questions.{FitsPath};
ghost use Rattle.path_constraints.specs.Tanks.{IsStuck};

use crate::tanks::{tanks_after, tanks_before};
use choice_tree::Decision;
use hoist_base::{Line, MoveId};
use move_list::reaches_place;

// Whether a hoist reaches one of these tanks.
fn may_serve(line: &Line, tanks: &[u32], h: u32) -> bool
    requires hoist { h < line.now.hoists }
    requires tanks { (i : ℕ) → i < length tanks.now → get_or tanks.now i 0 < length line.now.tanks }
    ensures { IsTrue result ↔ ((i : ℕ) × Contains tanks.now i × Reaches line.now h (position_of line.now i)) }
{
    for i in 0..tanks.len() {
        if reaches_place(line, h, line.at(tanks[i])) {
            return true;
        }
    }
    false
}

/// Whether no hoist may reach a move below the path: each misses all open tanks of one of its two visits.
pub fn is_stuck(line: &Line, path: &[Decision], m: MoveId) -> bool
    requires fits { FitsPath line.now path.now }
    requires there { IsMove line.now m.carrier m.step }
    ensures { IsTrue result ↔ IsStuck line.now path.now m.carrier m.step }
{
    let from = tanks_before(line, path, m);
    let to = tanks_after(line, path, m);
    for h in 0..line.hoists() {
        if may_serve(line, from, h) && may_serve(line, to, h) {
            return false;
        }
    }
    true
}
