//! Tables of the longest walks between all nodes, kept while constraints come and go, and closed walks of constraints.
//!
//! A constraint's weight at a period `T` is `w + q * T`. Nothing here speaks of a line.
#![tactic(auto)]

mod closed;
mod levels;
mod links;
mod lists;
mod numbers;
mod tables;

pub use closed::{Climber, Walks};
pub use levels::{LEVELS, Levels};
pub use links::{Arc, BASE, Link, NO_ARC, NO_LINK, sums};
pub use lists::{at, index, put, small};
pub use numbers::{FINE, fade, floor, logarithm, packed, parts, up, value};
pub use tables::{Loop, NEVER, patch, walks_between};
