// What an expansion answers.
use crate::solved::Solved;
use choice_tree::{Proof, Question};
use hoist_base::MoveId;

/// What comes of a path under a cap on the period.
///
/// - `Stuck`: no hoist may reach move `m`, the least such move.
/// - `Closed`: no period below the cap is feasible; `low` and `high` together refute them all.
/// - `Solved`: the least feasible period leaves no question; `low` refutes every smaller one.
/// - `Split`: the least feasible period, `period`, leaves this first question, which has so many children; `low`
///   refutes every smaller period.
#[derive(Debug, Drop)]
pub enum Expanded {
    Stuck {
        m: MoveId,
    },
    Closed {
        low: Option<Proof>,
        high: Option<Proof>,
    },
    Solved {
        solved: Solved,
        low: Proof,
    },
    Split {
        question: Question,
        children: u32,
        period: u32,
        low: Proof,
    },
}
