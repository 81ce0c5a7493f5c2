// What a path comes to where no question is left.
ghost use Rattle.std.specs.Prelude.{◌≡◌, IfOk};

use hoist_base::Route;
use std::alloc::{AllocError, Global};
use std::marker::Model;

/// The ticks of all moves, seen as a list by the numbers of the moves.
#[derive(Debug, Drop)]
pub struct Ticks {
    numbers: Vec<i64>,
}

impl Model for Ticks {
    ghost use Rattle.std.specs.Prelude.{List, ℤ};

    ghost Value = { List ℤ };

    ghost view = { λ ticks. ticks.numbers.items };
}

impl Ticks {
    /// These ticks, in the order of the moves. It takes no memory.
    pub fn from_vec(numbers: Vec<i64>) -> Self
        ensures { result ≡ numbers.items }
    {
        Ticks { numbers }
    }

    /// The ticks, in the order of the moves.
    pub fn as_slice(&self) -> &[i64]
        ensures { result.now ≡ self.now }
    {
        self.numbers.as_slice()
    }

    /// The same ticks once more.
    pub(crate) fn copied(&self, alloc: Global) -> Result<Ticks, AllocError>
        ensures { IfOk result (λ copy. copy ≡ self.now) }
    {
        let numbers = Vec::from_slice(alloc, self.numbers.as_slice())?;
        Ok(Ticks { numbers })
    }
}

/// The hoists of all moves, seen as a list by the numbers of the moves.
#[derive(Debug, Drop)]
pub struct Hoists {
    numbers: Vec<u32>,
}

impl Model for Hoists {
    ghost use Rattle.std.specs.Prelude.{List, ℕ};

    ghost Value = { List ℕ };

    ghost view = { λ hoists. hoists.numbers.items };
}

impl Hoists {
    /// These hoists, in the order of the moves. It takes no memory.
    pub fn from_vec(numbers: Vec<u32>) -> Self
        ensures { result ≡ numbers.items }
    {
        Hoists { numbers }
    }

    /// The hoists, in the order of the moves.
    pub fn as_slice(&self) -> &[u32]
        ensures { result.now ≡ self.now }
    {
        self.numbers.as_slice()
    }
}

/// A path on which no question is left: its period and ticks, with 0 at the first move of carrier 0, the hoist of each
/// move and the tank of each visit.
#[derive(Debug, Drop)]
pub struct Solved {
    pub period: u32,
    pub ticks: Ticks,
    pub hoists: Hoists,
    pub tanks: Route,
}
