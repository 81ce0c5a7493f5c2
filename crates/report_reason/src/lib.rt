//! The section of a report that says why the period can't be shorter: of all branches of an answer's tree the first
// that ! leaves the bound open, with the decisions that lead to it and the closed walk of constraints that refutes all
// shorter ! periods there.
#![tactic(auto)]

mod decisions;
pub mod laws;
mod nearest;
mod section;

pub use section::reason;
