// Who gives the orders of a run.
ghost use Rattle.std.specs.Prelude.{◌≡◌, ℕ, ◌≤◌, ◌<◌};
ghost use Rattle.tick_machine.specs.Scene.{Command, command_of, IsSizedOrder};

use crate::order::Order;

/// Drives a run: from the first to the last tick it gives the order that leads into each tick.
///
/// What the calls answer are its meanings: the number of hoists, the first and the last tick, the
/// position of each hoist at the first tick, and the order that leads into a tick, in which a hoist
/// that isn't there stays and begins nothing. The order at the first tick moves no hoist.
pub trait Driver {
    ghost hoists: { Self → ℕ };

    ghost first_tick: { Self → ℕ };

    ghost last_tick: { Self → ℕ };

    ghost place: { Self → ℕ → ℕ };

    ghost command: { Self → ℕ → Command };

    /// The first tick of the run.
    fn first(&self) -> u64
        ensures { result ≡ first_tick self.now };

    /// The last tick of the run.
    fn last(&self) -> u64
        ensures { result ≡ last_tick self.now };

    /// Where hoist `h` is at the first tick.
    fn at(&self, h: u32) -> u32
        requires { h < hoists self.now }
        ensures { result ≡ place self.now h };

    /// Writes the order that leads into `tick` over `into`, which has one entry for each hoist.
    fn order(&self, tick: u64, into: &mut Order)
        requires { IsSizedOrder (hoists self.now) into.old }
        ensures command { command_of into.new ≡ command self.now tick }
        ensures sized { IsSizedOrder (hoists self.now) into.new };
}
