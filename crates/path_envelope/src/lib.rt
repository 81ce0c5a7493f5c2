//! The lowest paths of hoists that have to be at given positions at given ticks.
#![tactic(auto)]

mod clash;
mod duties;
mod point;
mod rows;
mod slots;
mod tracing;

pub use point::{Point, Traced};
pub use rows::sweep;
pub use tracing::paths;
