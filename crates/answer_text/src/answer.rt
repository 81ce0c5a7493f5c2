// Answers.
use choice_tree::Tree;
use timetable::Timetable;

/// What an answer claims of the line: that its timetable has the least period, that there is none up to the line's
/// greatest period, or that neither is known yet.
#[derive(Clone, Copy, Debug, PartialEq, Eq)]
pub enum Verdict {
    Optimal,
    Nothing,
    Unfinished,
}

/// An answer to a line: no legal timetable has a period below `bound` ticks, which the `tree` of
/// `splits` questions shows; a timetable, where there is one; and what they come to.
#[derive(Debug, Drop)]
pub struct Answer {
    pub verdict: Verdict,
    pub bound: u32,
    pub splits: u32,
    pub timetable: Option<Timetable>,
    pub tree: Tree,
}
