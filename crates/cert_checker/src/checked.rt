// What the checker answers.
use crate::reason::Reason;
use answer_text::Verdict;

/// What an accepted answer claims: its verdict, its bound in ticks, and the period of its timetable, where it has one.
#[derive(Clone, Copy, Debug, PartialEq, Eq)]
pub struct Claimed {
    pub verdict: Verdict,
    pub bound: u32,
    pub period: Option<u32>,
}

/// What `check` answers.
#[derive(Clone, Copy, Debug, PartialEq, Eq)]
pub enum Checked {
    /// The answer keeps every rule: its timetable, where it has one, is legal, and its tree proves its bound.
    Accepted(Claimed),
    /// The first rule that the answer fails.
    Rejected(Reason),
}
