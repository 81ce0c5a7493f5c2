// The least period that the walks of a leaf leave open.
ghost use Rattle.std.specs.Prelude.{ℕ, ◌≤◌, ◌<◌, ◌↔◌, IsTrue};
ghost use Rattle.longest_path.specs.Bounds.{IsWithinCap, IsPeriod};
ghost use Rattle.cert_checker.specs.Followed.{Gives, AreSmall, IsLeastUngiven};

use cycle_walk::Sums;

// Whether the walk with these sums, where there is one, refutes a period.
fn gives(sums: Option<Sums>, period: u32) -> bool
    requires small { AreSmall sums }
    requires period { IsWithinCap period }
    ensures { IsTrue result ↔ Gives sums period }
{
    match sums {
        None => false,
        Some(sums) => sums.refutes(period),
    }
}

// The least period from 1 on that the walk doesn't refute, or the bound where it refutes all below that.
fn least_open(sums: Option<Sums>, bound: u32) -> u32
    requires small { AreSmall sums }
    requires bound { IsPeriod bound }
    ensures range { (1 ≤ result) × (result ≤ bound) }
    ensures below { (t : ℕ) → 1 ≤ t → t < result → Gives sums t }
    ensures open_there { result < bound → Gives sums result → ⊥ }
{
    match sums {
        None => 1,
        Some(sums) => sums.least_kept(bound),
    }
}

/// The least period from 1 to `bound - 1` that neither walk refutes, or None where they refute all of them.
///
/// Each walk refutes the periods on one side of a number, so the least that is open, where there is one, is the greater
/// of the two that the walks alone leave open.
pub(crate) fn first_open(low: Option<Sums>, high: Option<Sums>, bound: u32) -> Option<u32>
    requires low { AreSmall low }
    requires high { AreSmall high }
    requires bound { IsPeriod bound }
    ensures { IsLeastUngiven low high bound result }
{
    let period = least_open(low, bound).max(least_open(high, bound));
    if period >= bound || gives(low, period) || gives(high, period) {
        return None;
    }
    Some(period)
}
