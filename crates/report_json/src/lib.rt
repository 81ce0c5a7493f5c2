//! An answer and its timetable as one JSON document.
#![tactic(auto)]

mod document;
mod lines;
mod plans;

pub use document::json;
