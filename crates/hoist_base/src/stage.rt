// Stages, and the tanks that serve them.
ghost use Rattle.std.specs.Prelude.{◌≡◌, IfOk};

use std::alloc::{AllocError, Global};
use std::marker::Model;

/// Numbers of tanks, seen as a list.
#[derive(Debug, Drop)]
pub struct Tanks {
    numbers: Vec<u32>,
}

impl Model for Tanks {
    ghost use Rattle.std.specs.Prelude.{List, ℕ};

    ghost Value = { List ℕ };

    ghost view = { λ tanks. tanks.numbers.items };
}

impl Tanks {
    /// These numbers of tanks, in this order. It takes no memory.
    pub fn from_vec(numbers: Vec<u32>) -> Self
        ensures { result ≡ numbers.items }
    {
        Tanks { numbers }
    }

    /// The numbers in their order.
    pub fn as_slice(&self) -> &[u32]
        ensures { result.now ≡ self.now }
    {
        self.numbers.as_slice()
    }

    /// A copy.
    pub fn copied(&self, alloc: Global) -> Result<Tanks, AllocError>
        ensures { IfOk result (λ copy. copy ≡ self.now) }
    {
        let numbers = Vec::from_slice(alloc, self.numbers.as_slice())?;
        Ok(Tanks { numbers })
    }
}

/// A stage of the line: stage 0 is the load, the last stage the unload.
///
/// Each carrier uses one of `tanks`. Its dwell there is at least `min` ticks and, where `max` is
/// there, at most `max`. `lift` is how many ticks lifting out of the stage takes, `lower` how many
/// lowering into it. The first stage has no `lower`, the last no `lift`, and neither a window: these are 0
/// and None.
#[derive(Debug, Drop)]
pub struct Stage {
    pub tanks: Tanks,
    pub min: u32,
    pub max: Option<u32>,
    pub lift: u32,
    pub lower: u32,
}

impl Stage {
    /// A copy.
    pub fn copied(&self, alloc: Global) -> Result<Stage, AllocError>
        ensures { IfOk result (λ copy. copy ≡ self.now) }
    {
        let tanks = self.tanks.copied(alloc)?;
        Ok(Stage {
            tanks,
            min: self.min,
            max: self.max,
            lift: self.lift,
            lower: self.lower,
        })
    }
}
