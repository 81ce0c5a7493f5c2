// What a line of the tree says.
use choice_tree::Proof;
use hoist_base::{MoveId, VisitId};

/// A line of the tree: a node that doesn't say yet which numbers its children have.
#[derive(Debug, Drop)]
pub(crate) enum Row {
    Choose { v: VisitId, children: u32 },
    TankOrder { a: VisitId, b: VisitId, q: i64 },
    HoistOrder { a: MoveId, b: MoveId, q: i64 },
    Assign { m: MoveId, children: u32 },
    ClosedLow { low: Proof, high: Option<Proof> },
    ClosedHigh { high: Proof },
    Stuck { m: MoveId },
    Solved { low: Proof },
    Left { low: Option<Proof> },
}

/// The words that begin a line of the tree.
#[derive(Clone, Copy, Debug, PartialEq, Eq)]
pub(crate) enum RowKind {
    Choose,
    TankOrder,
    HoistOrder,
    Assign,
    ClosedLow,
    ClosedHigh,
    Stuck,
    Solved,
    Left,
}

/// What follows the low walk of a closed line.
#[derive(Clone, Copy, Debug, PartialEq, Eq)]
pub(crate) enum Tail {
    End,
    High,
}
