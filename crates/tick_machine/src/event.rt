// Events: what a run logs.

/// What happens to a carrier.
#[derive(Clone, Copy, Debug, PartialEq, Eq)]
pub enum What {
    /// It is set down at a stage.
    Set { carrier: u64, stage: u32 },
    /// It is taken off the unload.
    Off { carrier: u64 },
    /// It is put on the load.
    Put { carrier: u64 },
    /// A hoist begins its move of a step.
    Begin { carrier: u64, step: u32, hoist: u32 },
}

/// An event with its tick.
#[derive(Clone, Copy, Debug, PartialEq, Eq)]
pub struct Event {
    pub tick: u64,
    pub what: What,
}
