//! Drawings of a legal timetable: the chart of its period, and the table of its dwells.
#![tactic(auto)]

mod drawing;
mod dwell;
pub mod laws;
mod marks;
mod places;

pub use drawing::chart;
pub use dwell::dwell_table;
