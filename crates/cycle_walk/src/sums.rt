//! The sums of a closed walk's constraints, and the periods that they refute.

ghost use Rattle.std.specs.Prelude.{ℕ, ◌≤◌, ◌<◌, ◌<ℤ◌, ◌↔◌, pos, IsTrue};
ghost use Rattle.longest_path.specs.Bounds.{IsWithinCap, IsPeriod};
ghost use Rattle.longest_path.specs.System.{Refutes};
ghost use Rattle.cycle_walk.specs.Refuting.{AreSmall};

/// The sums of w (in ticks) and of q (in periods) of the constraints of a closed walk.
///
/// At a period T such a walk asks that its first node begins `w + q * T` ticks after itself, so no ticks solve its
/// system where that is above 0: the walk refutes T.
#[derive(Clone, Copy, Debug, PartialEq, Eq)]
pub struct Sums {
    pub w: i64,
    pub q: i64,
}

impl Sums {
    /// Whether a closed walk with these sums shows that no ticks solve its system at a period.
    pub fn refutes(self, period: u32) -> bool
        requires small { AreSmall self }
        requires period { IsWithinCap period }
        ensures { IsTrue result ↔ Refutes self.w self.q period }
    {
        let asked = self.w + self.q * i64::from(period);
        asked > 0
    }

    /// Whether such a walk asks less at greater periods, so that only the periods below some number are refuted.
    pub fn falls(self) -> bool
        ensures { IsTrue result ↔ (self.q <ℤ pos 0) }
    {
        self.q < 0
    }

    /// The least period from 1 on that these sums don't refute, or the cap where they refute all below it.
    ///
    /// Where the sums fall, all later periods aren't refuted either.
    pub fn least_kept(self, cap: u32) -> u32
        requires small { AreSmall self }
        requires cap { IsPeriod cap }
        ensures some { 1 ≤ result }
        ensures most { result ≤ cap }
        ensures below { (t : ℕ) → 1 ≤ t → t < result → Refutes self.w self.q t }
        ensures kept { result < cap → Refutes self.w self.q result → ⊥ }
    {
        if !self.refutes(1) {
            return 1;
        }
        if !self.falls() {
            return cap;
        }
        let kept = self.w.unsigned_abs().div_ceil(self.q.unsigned_abs());
        kept.min(u64::from(cap)) as u32
    }
}
