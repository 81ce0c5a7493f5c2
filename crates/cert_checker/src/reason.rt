// Reasons to reject an answer.
use cycle_walk::Sums;
use hoist_base::MoveId;
use timetable::Fault;

/// Why an answer is rejected. The rules of the answer as a whole stand first, in their order; then each node of the
/// tree, in preorder and numbered from 0, is tried by the rules of nodes in theirs.
///
/// A `place` counts the constraints of a leaf from 0, through its low walk and then its high one.
#[derive(Clone, Copy, Debug, PartialEq, Eq)]
pub enum Reason {
    /// An optimal answer has no timetable.
    TimetableMissing,
    /// An answer that says that there is no timetable has one.
    TimetableExtra,
    /// The bound isn't the one that the verdict asks for.
    Bound {
        seen: u32,
        want: u32,
    },
    /// The answer names another number of splits than its tree has.
    Splits {
        seen: u32,
        count: u32,
    },
    /// A node is left, and the answer isn't open. It is the first.
    LeftNode {
        node: u32,
    },
    /// No node is left, and the answer is open.
    NoLeft,
    /// The timetable isn't legal. It is its first fault.
    Fault(Fault),
    /// The question of a split doesn't fit its path, or the split hasn't a child for each answer.
    Question {
        node: u32,
    },
    /// A leaf calls this move stuck, which isn't there or which a hoist may reach below the path.
    Stuck {
        node: u32,
        m: MoveId,
    },
    /// A constraint of a leaf isn't on its path.
    Token {
        node: u32,
        place: u32,
    },
    /// A constraint doesn't end where the next of its walk begins, or the last where the first begins.
    Joint {
        node: u32,
        place: u32,
    },
    /// No walk of the leaf refutes this period, which is below the bound. It is the least; `low` and `high` are the
    /// sums of the walks that are there.
    Period {
        node: u32,
        period: u32,
        low: Option<Sums>,
        high: Option<Sums>,
    },
}
