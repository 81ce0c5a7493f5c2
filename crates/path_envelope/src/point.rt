// Fixed points, and what is found of them.

/// A hoist has to be at position `at` at a tick; copies of it stand one period apart, so the tick may be below 0.
#[derive(Clone, Copy, Debug, PartialEq, Eq)]
pub struct Point {
    pub hoist: u32,
    pub tick: i64,
    pub at: u32,
}

/// What `paths` answers: the lowest paths, hoist h at tick t at h * period + t, or two fixed points that no positions
/// on the track meet together.
#[derive(Debug, Drop)]
pub enum Traced {
    Made(Vec<u32>),
    Clashing { a: Point, b: Point },
}
