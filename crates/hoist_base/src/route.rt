// The tanks that carriers use.
ghost use Rattle.std.specs.Prelude.{◌≡◌};

use std::marker::Model;

/// The tanks of all visits, seen as a list of numbers of tanks.
///
/// The tank of visit (c, k) stands at c * s + k, with s the number of stages.
#[derive(Debug, Drop)]
pub struct Route {
    numbers: Vec<u32>,
}

impl Model for Route {
    ghost use Rattle.std.specs.Prelude.{List, ℕ};

    ghost Value = { List ℕ };

    ghost view = { λ route. route.numbers.items };
}

impl Route {
    /// The route with these numbers of tanks. It takes no memory.
    pub fn from_vec(numbers: Vec<u32>) -> Self
        ensures { result ≡ numbers.items }
    {
        Route { numbers }
    }

    /// The numbers of the tanks, carrier by carrier and stage by stage.
    pub fn as_slice(&self) -> &[u32]
        ensures { result.now ≡ self.now }
    {
        self.numbers.as_slice()
    }
}
