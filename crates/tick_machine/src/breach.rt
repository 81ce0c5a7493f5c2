// Breaches: why an order can't be followed.

/// Why a step can't be made. Hoists and tanks are named by number, positions and ages are in ticks.
#[derive(Clone, Copy, Debug, PartialEq, Eq)]
pub enum Breach {
    /// A hoist that carries is ordered to go, or to begin before its carry ends.
    Busy {
        hoist: u32,
    },
    /// A hoist is ordered off the track; it is `at` this end.
    Edge {
        hoist: u32,
        at: u32,
    },
    /// The unload holds no carrier that rests there at the last stage.
    NoCarrier {
        tank: u32,
    },
    /// A carrier would leave a stage at an age below the least one, `bound`.
    Early {
        carrier: u64,
        stage: u32,
        age: u64,
        bound: u64,
    },
    /// A tank that must be free holds a carrier.
    Held {
        tank: u32,
        carrier: u64,
    },
    /// A hoist is ordered to begin where no carrier rests.
    NotThere {
        hoist: u32,
        at: u32,
    },
    /// The carrier is at the last stage: no move leads on.
    NoMove {
        carrier: u64,
        stage: u32,
    },
    /// The tank to go to is none of the next stage.
    NoWay {
        hoist: u32,
        tank: u32,
    },
    /// A carrier rests for longer than the greatest age, `bound`.
    Late {
        carrier: u64,
        stage: u32,
        age: u64,
        bound: u64,
    },
    /// The hoist above `hoist` keeps less than the gap; `low` and `high` are their positions.
    Near {
        hoist: u32,
        low: u32,
        high: u32,
    },
}
