// Timetables of a line: their type, and whether they are legal.
#![tactic(auto)]

mod carrying;
mod fault;
mod fits;
mod holding;
mod legal;
mod parts;
mod stretch;
mod timetable;
mod track;
mod visits;
mod windows;

pub use fault::Fault;
pub use legal::{first_fault, is_legal};
pub use parts::TimetableParts;
pub use timetable::Timetable;
pub use visits::{arrival, departure};
pub use windows::{dwell, least_dwell};
