// Runs of legal timetables on the tick machine, from an empty line to an empty line.
#![tactic(auto)]

mod driving;
pub mod laws;
mod runner;

pub use driving::drive;
pub use runner::Runner;
