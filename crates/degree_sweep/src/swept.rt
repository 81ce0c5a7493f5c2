// What a sweep comes to.
ghost use Rattle.std.specs.Prelude.{◌≡◌};
ghost use Rattle.degree_sweep.specs.Claims.{is_known, is_settled};

use crate::rows::Rows;
use answer_text::Verdict;

/// What a sweep comes to: a row for each degree, and the degree of the optimal row whose period for each carrier is
/// least, the smaller one where two are equal; `None` where no row is optimal.
#[derive(Debug, Drop)]
pub struct Swept {
    pub rows: Rows,
    pub best: Option<u32>,
}

/// Whether it is known which timetables there are.
fn is_known(verdict: Verdict) -> bool
    ensures { result ≡ is_known verdict }
{
    match verdict {
        Verdict::Optimal | Verdict::Nothing => true,
        Verdict::Unfinished => false,
    }
}

impl Swept {
    /// Whether no row is open, so that `best` is the best of all these degrees.
    pub fn is_settled(&self) -> bool
        ensures { result ≡ is_settled self.now.rows }
    {
        self.rows.as_slice().iter().all(|row| is_known(row.verdict))
    }
}
