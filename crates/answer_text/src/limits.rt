// The greatest numbers that a text may name, whatever its line has.

/// One tick more than the greatest period.
pub const MOST_BOUND: u32 = 20_001;

pub const MOST_SPLITS: u32 = 1_000_000_000;

/// In ticks.
pub const MOST_PERIOD: u32 = 20_000;

/// Of a put, an off or a start.
pub const LAST_TICK: u32 = 1_000_000_000;

/// A position on the track.
pub const MOST_POSITION: u32 = 1000;

/// The number of a carrier, from 0.
pub const MOST_CARRIER: u32 = 3;

/// The number of a step or a stage, from 0.
pub const MOST_STAGE: u32 = 32;

/// The number of a decision on a path, from 0.
pub const MOST_DECISION: u32 = 19_999;

/// How many constraints a walk has.
pub const MOST_TOKENS: u32 = 1000;

/// How many children a split has.
pub const MOST_CHILDREN: u32 = 6;

/// How many periods later the second of two moves or visits is, or earlier.
pub const MOST_SHIFT: u32 = 1_000_000_000;
