// Pairs of visits or of moves, and the least number of periods between two numbers.
ghost use Rattle.std.specs.Prelude.{◌≤◌, ◌↔◌, pos, ◌*ℤ◌, ◌<ℤ◌, unsigned_abs, IsTrue, IfSome};
ghost use Rattle.longest_path.specs.Bounds.{IsPeriod, IsWithinCap};
ghost use Rattle.period_constraints.specs.Pairs.{IsFirstShift, IsNextShift, IsBetween};

/// Two visits or two moves by their numbers, the second so many periods later.
#[derive(Clone, Copy)]
pub(crate) struct Pair {
    pub(crate) first: u32,
    pub(crate) second: u32,
    pub(crate) shift: i64,
}

// The least number of periods above a number.
fn next_shift(low: i32, period: u32) -> i32
    requires period { IsPeriod period }
    requires near { unsigned_abs low ≤ 2000000 }
    ensures next { IsNextShift low period result }
    ensures small { unsigned_abs result ≤ 2000001 }
{
    low.div_euclid(period as i32) + 1
}

// Whether so many periods are below a number.
fn ends_below(shift: i32, period: u32, high: i32) -> bool
    requires period { IsWithinCap period }
    requires near { unsigned_abs (shift *ℤ pos period) ≤ 3000000 }
    ensures { IsTrue result ↔ ((shift *ℤ pos period) <ℤ high) }
{
    shift * (period as i32) < high
}

/// The least number of periods strictly between two numbers, if there is one.
pub(crate) fn first_shift(low: i32, high: i32, period: u32) -> Option<i64>
    requires period { IsPeriod period }
    requires near { unsigned_abs low ≤ 2000000 }
    ensures first { IsFirstShift (λ q. IsBetween low high period q) result }
    ensures small { IfSome result (λ q. unsigned_abs q ≤ 1000000000) }
{
    let shift = next_shift(low, period);
    if ends_below(shift, period, high) {
        Some(i64::from(shift))
    } else {
        None
    }
}
