//! The dwells of a timetable beside their windows, as a section of a report; and the sections and cells that the
//! reports' tables are made of.
#![tactic(auto)]

mod cells;
mod rows;
mod table;
mod windows;

pub use cells::{cell, drawing, headed, heading, number_cell, section};
pub use table::dwells;
