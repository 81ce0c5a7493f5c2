// Moves that no hoist may reach.
ghost use Rattle.std.specs.Prelude.{ℕ, ◌<◌, MatchOption};
ghost use Rattle.hoist_base.specs.LineData.{IsStep};
ghost use Rattle.path_constraints.specs.Questions.{FitsPath};
ghost use Rattle.path_constraints.specs.Tanks.{IsStuck};
ghost use Rattle.node_expand.specs.Expansion.{NoneStuck, IsFirstStuck};
ghost use Rattle.node_expand.specs.Reaching.{IsReachOf};

use choice_tree::Decision;
use hoist_base::{Line, MoveId};
use path_constraints::is_stuck;

/// Which move no hoist may reach.
///
/// Where every stage has one tank it is the same one below each path, and is found once.
#[derive(Clone, Copy, Debug)]
pub(crate) struct Reach {
    /// Whether every stage has one tank.
    pub(crate) single: bool,
    /// The least move that no hoist may reach before any decision.
    pub(crate) stuck: Option<MoveId>,
}

// The first step of a carrier's moves that no hoist may reach.
fn first_stuck_step(line: &Line, path: &[Decision], carrier: u32) -> Option<u32>
    requires fits { FitsPath line.now path.now }
    requires there { carrier < line.now.degree }
    ensures { MatchOption result ((k : ℕ) → IsStep line.now k → IsStuck line.now path.now carrier k → ⊥)
        (λ step. IsStep line.now step × IsStuck line.now path.now carrier step
        × ((k : ℕ) → k < step → IsStuck line.now path.now carrier k → ⊥)) }
{
    for step in 0..line.inner() + 1 {
        if is_stuck(line, path, MoveId { carrier, step }) {
            return Some(step);
        }
    }
    None
}

// The least move that no hoist may reach; None exactly where there is none.
fn first_stuck(line: &Line, path: &[Decision]) -> Option<MoveId>
    requires fits { FitsPath line.now path.now }
    ensures { MatchOption result (NoneStuck line.now path.now) (λ m. IsFirstStuck line.now path.now m) }
{
    for carrier in 0..line.degree() {
        if let Some(step) = first_stuck_step(line, path, carrier) {
            return Some(MoveId { carrier, step });
        }
    }
    None
}

impl Reach {
    /// How far the hoists of a line reach.
    pub(crate) fn of(line: &Line) -> Reach
        ensures { IsReachOf line.now result }
    {
        Reach {
            single: line.single(),
            stuck: first_stuck(line, &[]),
        }
    }

    /// The least move that no hoist may reach below a path; None exactly where there is none.
    pub(crate) fn first_stuck(self, line: &Line, path: &[Decision]) -> Option<MoveId>
        requires reach { IsReachOf line.now self }
        requires fits { FitsPath line.now path.now }
        ensures { MatchOption result (NoneStuck line.now path.now) (λ m. IsFirstStuck line.now path.now m) }
    {
        if self.single {
            return self.stuck;
        }
        first_stuck(line, path)
    }
}
