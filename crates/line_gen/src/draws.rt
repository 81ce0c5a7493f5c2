// The draws of a seed.
ghost use Rattle.std.specs.Prelude.{◌≡◌, ℕ, ◌+◌, ◌%◌, ◌<◌};
ghost use Rattle.line_gen.specs.Generated.{number_after};

// The prime below which the numbers are, and the factor from one number to the next.
const MODULUS: u64 = 2_147_483_647;

const FACTOR: u64 = 48_271;

/// The numbers of a seed, one for each draw.
#[derive(Debug, Drop)]
pub(crate) struct Draws {
    pub(crate) x: u64,
}

impl Draws {
    #[tactic(auto, using(crate::proofs::Drawn::first_number))]
    /// The draws of a seed, before the first.
    pub(crate) fn new(seed: u32) -> Draws
        ensures value { result.x ≡ number_after seed 0 }
        ensures small { result.x < 2147483647 }
    {
        Draws {
            x: 1 + seed as u64 % (MODULUS - 1),
        }
    }

    #[tactic(auto, using(crate::proofs::Drawn::next_number))]
    /// The next draw, below a limit.
    pub(crate) fn next(&mut self, limit: u32) -> u32
        requires limit { 0 < limit }
        requires small { self.old.x < 2147483647 }
        ensures next { (seed draws : ℕ) → self.old.x ≡ number_after seed draws
            → self.new.x ≡ number_after seed (draws + 1) }
        ensures small { self.new.x < 2147483647 }
        ensures value { result ≡ self.new.x % limit }
        ensures below { result < limit }
    {
        self.x = FACTOR * self.x % MODULUS;
        (self.x % limit as u64) as u32
    }
}
