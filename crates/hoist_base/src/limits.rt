// The limits of a line.

/// The longest track, in ticks of travel.
pub const MAX_TRACK: u32 = 1_000;

/// The widest gap between neighbouring hoists, in ticks of travel.
pub const MAX_GAP: u32 = 100;

/// The most hoists.
pub const MAX_HOISTS: u32 = 6;

/// The most carriers that enter in one period.
pub const MAX_DEGREE: u32 = 4;

/// The greatest `max_period`, in ticks.
pub const PERIOD_LIMIT: u32 = 20_000;

/// The longest bound on a dwell in ticks: in a tank, at the load and at the unload.
pub const MAX_DWELL: u32 = 20_000;

/// The longest lift, in ticks.
pub const MAX_LIFT: u32 = 500;

/// The longest lower, in ticks.
pub const MAX_LOWER: u32 = 500;

/// The fewest tanks.
pub const MIN_TANKS: u32 = 2;

/// The most tanks.
pub const MAX_TANKS: u32 = 64;

/// The fewest stages: the load and the unload.
pub const MIN_STAGES: u32 = 2;

/// The most stages.
pub const MAX_STAGES: u32 = 32;

/// The most tanks that one stage may use.
pub const MAX_TANKS_OF_STAGE: u32 = 4;

/// The most bytes of a tank's name.
pub const MAX_NAME: u32 = 32;
