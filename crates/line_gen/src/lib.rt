//! Lines by seed, to try a solver on.
#![tactic(auto)]

mod choices;
mod draws;
mod generator;

pub use generator::line_of;
