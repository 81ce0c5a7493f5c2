// The parts that a timetable is made of.

/// The parts of a timetable; `Timetable::new` makes the timetable of parts that fit a line.
///
/// Ticks are whole numbers from 0 on. `put` and `off` have, for each carrier, the tick at which it is put on and that
/// at which it is taken off. `start` and `hoist` have, for each move, the tick at which it starts and the number of its
/// hoist: with n moves for each carrier, move (c, k) stands at c * n + k. `path` has the position of each hoist at each
/// tick of the period: that of hoist h at tick t stands at h * period + t. `tank` has the number of the tank of each
/// visit, as in a route.
#[derive(Debug, Drop)]
pub struct TimetableParts {
    pub period: u32,
    pub put: Vec<u64>,
    pub off: Vec<u64>,
    pub start: Vec<u64>,
    pub hoist: Vec<u32>,
    pub path: Vec<u32>,
    pub tank: Vec<u32>,
}
