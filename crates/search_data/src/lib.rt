//! What never changes while proofs of a line are sought: its constraints, motions, clashes, and pairs of things one of
//! which comes first.
//!
//! Moves and visits go by their numbers, carrier by carrier. Weights and ticks are numbers of 64 bits.
#![tactic(auto)]

mod base;
mod pairs;
mod problem;
mod rides;
mod stages;

pub use base::{Fixed, Kind};
pub use pairs::{NO_PAIR, Pair};
pub use problem::Problem;
pub use rides::{Lasts, NO_RIDE, Ride, Span};
pub use stages::{Hold, NO_STAGE, Stop};
