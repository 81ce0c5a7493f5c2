// Constraints and questions below a path of decisions, and that no legal timetable falls between the branches of a
// tree.
#![tactic(auto)]

mod arcs;
mod failing;
mod holds;
pub mod laws;
mod places;
mod questions;
mod rides;
mod stuck;
mod systems;
mod tanks;
mod times;

pub use failing::{fails, tick_of};
pub use holds::{Moment, begin_of, end_of};
pub use questions::{child_count, fits};
pub use rides::{Ride, hoist_below, hoist_by, reaching_count};
pub use stuck::is_stuck;
pub use systems::{base_of, constraint_of, decide, system_of};
pub use tanks::tanks_below;
pub use times::motion_between;
