//! The run of a legal timetable as a text: what happens to its carriers, from an empty line to an empty line.
#![tactic(auto)]

mod events;
mod run;

pub use run::run_text;
