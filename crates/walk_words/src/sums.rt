// The sums of a walk.
ghost use Rattle.std.specs.Prelude.{◌≡◌, ◌≤◌, length, All, unsigned_abs};
ghost use Rattle.path_constraints.specs.Questions.{FitsPath};
ghost use Rattle.path_constraints.specs.Constraints.{IsConstraint, arc_of};
ghost use Rattle.cycle_walk.specs.Refuting.{AreSmall};
ghost use Rattle.walk_words.specs.Walks as walks;

use choice_tree::{Constraint, Decision};
use cycle_walk::Sums;
use hoist_base::Line;
use longest_path::Arc;
use path_constraints::constraint_of;

/// What a constraint of the path asks.
pub(crate) fn arc_named(line: &Line, path: &[Decision], name: Constraint) -> Arc
    requires fits { FitsPath line.now path.now }
    requires named { IsConstraint line.now path.now name }
    ensures value { result ≡ arc_of line.now path.now name }
    ensures small { (unsigned_abs result.w ≤ 10000000) × (unsigned_abs result.q ≤ 1000000000) }
{
    constraint_of(line, path, name).unwrap()
}

/// The ticks and periods of all constraints of a walk together.
pub fn sums_of(line: &Line, path: &[Decision], walk: &[Constraint]) -> Sums
    requires fits { FitsPath line.now path.now }
    requires named { All (IsConstraint line.now path.now) walk.now }
    requires few { length walk.now ≤ 1000 }
    ensures value { result ≡ walks.sums_of line.now path.now walk.now }
    ensures small { AreSmall result }
{
    let mut w = 0;
    let mut q = 0;
    for &name in walk {
        let arc = arc_named(line, path, name);
        w += arc.w;
        q += arc.q;
    }
    Sums { w, q }
}
