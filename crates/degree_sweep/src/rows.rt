// What is found at each degree.
ghost use Rattle.std.specs.Prelude.{◌≡◌};

use answer_text::Verdict;
use std::marker::Model;

/// What the search of a line with a degree comes to.
///
/// - `degree`: how many carriers enter in each period.
/// - `verdict`: whether a least period is known, or that there is none.
/// - `bound`: no legal timetable of this degree has a smaller period, in ticks.
/// - `splits`: how many questions were asked.
/// - `period`: that of the best timetable that was found.
#[derive(Clone, Copy, Debug, PartialEq, Eq)]
pub struct DegreeRow {
    pub degree: u32,
    pub verdict: Verdict,
    pub bound: u32,
    pub splits: u32,
    pub period: Option<u32>,
}

/// Rows, one for each degree, seen as their list.
#[derive(Debug, Drop)]
pub struct Rows {
    rows: Vec<DegreeRow>,
}

impl Model for Rows {
    ghost use Rattle.std.specs.Prelude.{List};
    ghost use Rattle.degree_sweep.specs.declared.rows.DegreeRow.{DegreeRow};

    ghost Value = { List DegreeRow };

    ghost view = { λ rows. rows.rows.items };
}

impl Rows {
    /// These rows. It takes no memory.
    pub fn from_vec(rows: Vec<DegreeRow>) -> Rows
        ensures { result ≡ rows.items }
    {
        Rows { rows }
    }

    /// The rows, from degree 1 on.
    pub fn as_slice(&self) -> &[DegreeRow]
        ensures { result.now ≡ self.now }
    {
        self.rows.as_slice()
    }
}
