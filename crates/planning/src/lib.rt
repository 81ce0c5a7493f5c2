//! The plan of a solved path: its legal timetable.
#![tactic(auto)]

mod planner;

pub use planner::plan;
