//! A hunt for good timetables of hard lines, by local search.
//!
//! It proves nothing, and what it finds has to be checked: the functions here are shown to be safe and to end.
#![tactic(auto)]

mod chance;
mod course;
mod dive;
mod found;
mod hunt;
mod lists;
mod masks;
mod near;
mod place;
mod plan;
mod planner;
mod rides;
mod seeker;
mod spread;
mod start;
mod walks;
mod zones;

pub use found::Found;
pub use hunt::Hunt;
