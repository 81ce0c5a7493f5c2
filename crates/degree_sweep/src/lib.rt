//! A line at several degrees: at which of them the period for each carrier is least, and whether that is settled.
#![tactic(auto)]

mod best;
mod degrees;
pub mod laws;
mod report;
mod rows;
mod swept;

pub use degrees::sweep;
pub use report::sweep_text;
pub use rows::{DegreeRow, Rows};
pub use swept::Swept;
