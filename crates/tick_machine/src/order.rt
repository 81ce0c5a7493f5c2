// Orders: what is to be done in one tick.
ghost use Rattle.std.specs.Prelude.{IfOk};
ghost use Rattle.tick_machine.specs.Scene.{IsSizedOrder};

use std::alloc::{AllocError, Global};

/// Where a hoist goes in a tick: nowhere, or one unit towards the low or the high end of the track.
#[derive(Clone, Copy, Debug, PartialEq, Eq)]
pub enum Go {
    Stay,
    Low,
    High,
}

/// What is ordered for one tick.
///
/// `go` has the motion of each hoist, and `begin` the tank to which it begins a move, where it does.
/// `off` orders that the carrier in the unload be taken off, `put` that the next one be put on.
#[derive(Debug, Drop)]
pub struct Order {
    pub go: Vec<Go>,
    pub begin: Vec<Option<u32>>,
    pub off: bool,
    pub put: bool,
}

impl Order {
    /// An order to so many hoists that leaves all of them where they are.
    pub fn idle(alloc: Global, hoists: u32) -> Result<Order, AllocError>
        ensures { IfOk result (IsSizedOrder hoists) }
    {
        let mut go = Vec::new(alloc);
        go.resize(hoists as usize, Go::Stay)?;
        let mut begin = Vec::new(alloc);
        begin.resize(hoists as usize, None)?;
        Ok(Order {
            go,
            begin,
            off: false,
            put: false,
        })
    }
}
