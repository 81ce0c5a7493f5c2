// The names of moves and visits.

/// Names a move: `step` k of `carrier` c leads from its visit of stage k to that of stage k + 1.
///
/// Moves are ordered by carrier, then by step.
#[derive(Clone, Copy, Debug, PartialEq, Eq, PartialOrd, Ord)]
pub struct MoveId {
    pub carrier: u32,
    pub step: u32,
}

/// Names a visit: `carrier` c at `stage` k, from 0 for the load to the unload.
///
/// Visits are ordered by carrier, then by stage.
#[derive(Clone, Copy, Debug, PartialEq, Eq, PartialOrd, Ord)]
pub struct VisitId {
    pub carrier: u32,
    pub stage: u32,
}
