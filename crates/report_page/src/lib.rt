//! The page of an answer to a line: one self-contained HTML document, with no script and nothing to load, that shows
//! its timetable as a time-way diagram, the dwells beside their windows, what the hoists do, and why no period below
//! the bound is legal.
#![tactic(auto)]

mod diagram;
mod parts;
mod style;
mod whole;

pub use whole::page;
