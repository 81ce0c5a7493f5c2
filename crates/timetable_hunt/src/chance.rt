//! Chance, the same for the same seed.

use rand_core::{Rng, SeedableRng};
use rand_xoshiro::Xoshiro256PlusPlus;

/// Numbers by chance.
#[derive(Drop)]
pub(crate) struct Chance {
    generator: Xoshiro256PlusPlus,
}

impl Chance {
    /// The numbers of a seed.
    pub(crate) fn new(seed: u64) -> Chance {
        Chance {
            generator: Xoshiro256PlusPlus::seed_from_u64(seed),
        }
    }

    /// A number of 64 bits.
    #[inline]
    pub(crate) fn word(&mut self) -> u64 {
        self.generator.next_u64()
    }

    /// A number below `count`; 0 where that is 0.
    pub(crate) fn below(&mut self, count: usize) -> usize {
        let word = self.word() >> 33;
        if count == 0 {
            return 0;
        }
        (word % count as u64) as usize
    }

    /// True once in `count` times.
    pub(crate) fn once_in(&mut self, count: usize) -> bool {
        self.below(count) == 0
    }
}
