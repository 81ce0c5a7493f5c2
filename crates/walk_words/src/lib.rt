//! Closed walks of constraints in words: each constraint as a sentence with its ticks and periods, and what their sums
//! say of the period.
#![tactic(auto)]

pub mod laws;
mod orders;
mod periods;
mod places;
mod steps;
mod sums;
mod table;

pub use periods::{Periods, periods_of, sums_words};
pub use steps::step_words;
pub use sums::sums_of;
pub use table::walk_table;
