//! What the hoists of a timetable do with the ticks of a period, and the numbers of an answer, as sections of a report.
#![tactic(auto)]

mod facts;
mod figures;
mod hoists;
pub mod laws;
mod ticks;

pub use facts::numbers;
pub use hoists::shares;
