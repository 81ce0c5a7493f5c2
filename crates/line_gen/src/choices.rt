// What is drawn for a line.
ghost use Rattle.std.specs.Prelude.{◌≡◌, IfOk};
ghost use Rattle.line_gen.specs.Generated.{choices, AreChoices};

use crate::draws::Draws;
use std::alloc::{AllocError, Global};
use std::marker::Model;

/// The number of baths, 8 to 12, and of hoists, whether the last bath stands in the tank of the first, and for each
/// bath a number below 80 that gives its window.
#[derive(Debug, Drop)]
pub(crate) struct Choices {
    pub(crate) baths: u32,
    pub(crate) hoists: u32,
    pub(crate) again: bool,
    pub(crate) z: Vec<u32>,
}

impl Model for Choices {
    ghost use Rattle.line_gen.specs.Generated.{ChoiceData};

    ghost Value = { ChoiceData };

    ghost view = { λ c. record { baths = c.baths; hoists = c.hoists; again = c.again; z = c.z.items } };
}

impl Choices {
    #[tactic(auto, using(crate::proofs::Drawn::are_choices))]
    /// The choices of a seed, in the order in which they are drawn.
    pub(crate) fn of_seed(alloc: Global, seed: u32) -> Result<Choices, AllocError>
        ensures value { IfOk result (λ c. c ≡ choices seed) }
        ensures valid { AreChoices (choices seed) }
    {
        let mut draws = Draws::new(seed);
        let baths = 8 + draws.next(5);
        let hoists = 1 + draws.next(2);
        let again = draws.next(2) == 1;
        let mut z = Vec::new(alloc);
        for _bath in 0..baths {
            z.push(draws.next(80))?;
        }
        Ok(Choices {
            baths,
            hoists,
            again,
            z,
        })
    }
}
