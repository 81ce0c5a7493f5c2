//! The time-way diagram of a timetable, as elements: ticks to the right, positions upward, the ways of the hoists as
//! lines, and the stays of the carriers in tanks as bars.
#![tactic(auto)]

mod bars;
pub mod laws;
mod notes;
mod rides;
mod scales;
mod shapes;
mod ways;
mod whole;

pub use bars::{push_greatest, rest_ticks};
pub use rides::tank_name;
pub use shapes::{carrier_class, straight};
pub use whole::diagram;
