// The best of several rows.
ghost use Rattle.std.specs.Prelude.{◌≡◌};
ghost use Rattle.degree_sweep.specs.Sweep.{IsBest};
ghost use Rattle.degree_sweep.specs.Paces.{HavePeriods, HaveDegrees, pace_of, is_less, quicker};

use crate::rows::DegreeRow;
use answer_text::Verdict;

/// How often a carrier enters: `degree` of them in each `period`.
#[derive(Clone, Copy, Debug)]
pub(crate) struct Pace {
    pub(crate) degree: u32,
    pub(crate) period: u32,
}

impl Pace {
    // That of an optimal row.
    fn of(row: &DegreeRow) -> Option<Pace>
        ensures { result ≡ pace_of row.now }
    {
        let period = row.period?;
        match row.verdict {
            Verdict::Optimal => Some(Pace {
                degree: row.degree,
                period,
            }),
            _ => None,
        }
    }

    // Whether this has less period for each carrier.
    fn is_less(self, other: Pace) -> bool
        ensures { result ≡ is_less self other }
    {
        u64::from(self.period) * u64::from(other.degree)
            < u64::from(other.period) * u64::from(self.degree)
    }
}

// The second, where it has less period for each carrier, else the first.
fn quicker(first: Option<Pace>, second: Option<Pace>) -> Option<Pace>
    ensures { result ≡ quicker first second }
{
    match (first, second) {
        (Some(a), Some(b)) if !b.is_less(a) => Some(a),
        (first, None) => first,
        (_, second) => second,
    }
}

/// The degree of the optimal row with the least period for each carrier, the first of those that are equal; None where
/// no row is optimal. The rows have the degrees from 1 on, and an optimal row has a period.
pub(crate) fn best_of(rows: &[DegreeRow]) -> Option<u32>
    requires periods { HavePeriods rows.now }
    requires degrees { HaveDegrees rows.now }
    ensures { IsBest rows.now result }
{
    let mut best: Option<Pace> = None;
    for row in rows {
        best = quicker(best, Pace::of(row));
    }
    match best {
        Some(pace) => Some(pace.degree),
        None => None,
    }
}
