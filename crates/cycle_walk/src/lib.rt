//! Canonical closed walks of a system of constraints, and the climb to its least feasible period.
#![tactic(auto)]

mod climbing;
mod closed_walks;
mod going_back;
pub mod laws;
mod links;
mod sums;
mod walks;

pub use climbing::{Climbed, climb, climb_in};
pub use closed_walks::{closed_walk, closed_walk_in};
pub use sums::Sums;
pub use walks::Walk;
