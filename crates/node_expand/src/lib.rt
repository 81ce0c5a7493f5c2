//! The expansion of one path: its least feasible period, and the question that its ticks leave open there.
#![tactic(auto)]

mod climbs;
mod expanded;
mod expander;
mod least_period;
mod names;
mod path_system;
mod settling;
mod solved;
mod stuck;

pub use expanded::Expanded;
pub use expander::{Expander, expand, expand_on};
pub use solved::{Hoists, Solved, Ticks};
